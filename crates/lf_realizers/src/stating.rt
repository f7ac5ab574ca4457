//! The statement of a realized constant, by its parent and its suffix.
ghost use Rattle.std.specs.Prelude.{◌≡◌, ◌≤◌, ℕ, Option, Some, option_map, IfOk};
ghost use Rattle.lf_checker.specs.Calls.{Calls};
ghost use Rattle.lf_checker.specs.Checker.{calls};
ghost use Rattle.lf_checker.specs.Extends.{shape_of};
ghost use Rattle.lf_checker.specs.Run.{Run};
ghost use Rattle.lf_checker.specs.Structures as structures;
ghost use Rattle.lf_checker.specs.View.{View, lookup_of, found};
ghost use Rattle.lf_core.specs.declared.suffix.Suffix.TheVariants as suffixes;
ghost use Rattle.lf_elaboration.specs.Closing.{sorry_name};
ghost use Rattle.lf_elaboration.specs.Equivalence as equivalence_spec;
ghost use Rattle.lf_elaboration.specs.Injectivity as injectivity_spec;
ghost use Rattle.lf_elaboration.specs.Injectivity.{Sides};
ghost use Rattle.lf_elaboration.specs.Realizers as spec;
ghost use Rattle.lf_elaboration.specs.Statement as statements;
ghost use Rattle.lf_steps.specs.Runs.{RunsAs, Rose};
ghost use Rattle.lf_steps.specs.Values as steps;
ghost use Rattle.lf_telescope.specs.Values.{statement};
ghost use Rattle.lf_realizers.specs.Values.{of_sides};

use lf_base::Stop;
use lf_case_equation::{Defined, case_equation};
use lf_check::Cx;
use lf_core::{ConstInfo, Detail, Expr, ExprNode, Name, NoMemory, Suffix};
use lf_equivalence::equivalence;
use lf_injectivity::{Constructor, injectivity, sides_of};
use lf_steps::{Body, Halt, known_body, need};
use lf_telescope::{Statement, unfolding_of};
use std::alloc::Global;

// Whether a constant stands in the term, or a projection of its structure.
fn mentions(name: &Name, term: &Expr) -> bool
    ensures { result ≡ structures.mentions name.now term.now }
{
    match term.node() {
        ExprNode::Const(constant, _) => constant.is(name),
        ExprNode::App(f, a) => mentions(name, f) || mentions(name, a),
        ExprNode::Lam(_, a, b) | ExprNode::Pi(_, a, b) => mentions(name, a) || mentions(name, b),
        ExprNode::Let(_, a, v, b) => {
            mentions(name, a) || (mentions(name, v) || mentions(name, b))
        }
        ExprNode::Proj(structure, _, t) => structure.is(name) || mentions(name, t),
        ExprNode::Bound(_)
        | ExprNode::Free(_)
        | ExprNode::Meta(_)
        | ExprNode::Sort(_)
        | ExprNode::Lit(_) => false,
    }
}

// Whether `sorryAx` stands in the term.
fn has_sorry(alloc: Global, term: &Expr) -> Result<bool, NoMemory>
    ensures { IfOk result (λ b. b ≡ structures.mentions sorry_name term.now) }
{
    let sorry = Name::one(alloc, "sorryAx")?;
    Ok(mentions(&sorry, term))
}

// The equation of a definition with this value.
#[tactic(auto, using(lf_steps::proofs::Runs::halts))]
fn of_definition<P: Stop>(
    cx: Cx<'_>,
    units: &mut u64,
    stop: &mut P,
    f: Defined<'_>,
    value: &Expr,
    suffix: Suffix,
) -> Result<Option<Statement>, Halt>
    ensures value { RunsAs (option_map statement)
        (spec.of_definition cx.entry.view.now (calls cx.entry.view.now cx.entry.depth) f.entry.name.now f.entry.levels.now value.now suffix units.old)
        result units.new }
    ensures count { P.stops stop.old ≤ P.stops stop.new }
    ensures rose { Rose result (P.stops stop.old) (P.stops stop.new) }
{
    match suffix {
        Suffix::Eq1 | Suffix::EqDef => {
            let statement = unfolding_of(cx, units, stop, f.name, f.levels, value)?;
            Ok(Some(statement))
        }
        Suffix::EqAt(k) => {
            case_equation(cx, units, stop, f, k.saturating_sub(2) as usize, value)
        }
        Suffix::Inj | Suffix::InjEq => Ok(None),
    }
}

// The equation of a constant that unfolds to this.
#[tactic(auto, using(lf_steps::proofs::Runs::halts))]
fn of_value<P: Stop>(
    cx: Cx<'_>,
    units: &mut u64,
    stop: &mut P,
    f: Defined<'_>,
    suffix: Suffix,
    body: Body<'_>,
) -> Result<Option<Statement>, Halt>
    ensures value { RunsAs (option_map statement)
        (spec.of_value cx.entry.view.now (calls cx.entry.view.now cx.entry.depth) f.entry.name.now f.entry.levels.now suffix (steps.body body.entry)
        units.old)
        result units.new }
    ensures count { P.stops stop.old ≤ P.stops stop.new }
    ensures rose { Rose result (P.stops stop.old) (P.stops stop.new) }
{
    match body {
        Body::Opaque => Ok(None),
        Body::Unresolved(key) => Err(need(units, key)),
        Body::Value(value, _) => {
            if has_sorry(cx.alloc, value)? {
                return Ok(None);
            }
            of_definition(cx, units, stop, f, value, suffix)
        }
    }
}

// The constructor that the constant of this name is, where it is one.
fn constructor_of<'a>(name: &'a Name, info: &'a ConstInfo) -> Option<Constructor<'a>>
    ensures { (V : View) (c : Calls) (m : Option Sides → Run (Option statements.Statement)) (u : ℕ)
        → spec.of_constructor V c name.now (shape_of info.now) info.now.detail m u ≡ of_sides c result m u }
{
    match &info.detail {
        Detail::Ctor {
            ind,
            index,
            params,
            fields,
        } => Some(Constructor {
            name,
            levels: info.levels.as_slice(),
            ty: &info.ty,
            ind,
            index: *index,
            params: *params,
            fields: *fields,
        }),
        Detail::Plain | Detail::Ind { .. } | Detail::Rec { .. } => None,
    }
}

// That the constructor is injective.
#[tactic(auto, using(lf_steps::proofs::Runs::halts))]
fn inj<P: Stop>(
    cx: Cx<'_>,
    units: &mut u64,
    stop: &mut P,
    of: Constructor<'_>,
) -> Result<Option<Statement>, Halt>
    ensures value { RunsAs (option_map statement)
        (of_sides (calls cx.entry.view.now cx.entry.depth) (Some of.entry) (injectivity_spec.injectivity cx.entry.view.now) units.old) result units.new }
    ensures count { P.stops stop.old ≤ P.stops stop.new }
    ensures rose { Rose result (P.stops stop.old) (P.stops stop.new) }
{
    match sides_of(cx, units, stop, of)? {
        None => Ok(None),
        Some(sides) => injectivity(cx.alloc, cx.view, units, &sides),
    }
}

// The same as an equation of propositions.
#[tactic(auto, using(lf_steps::proofs::Runs::halts))]
fn inj_eq<P: Stop>(
    cx: Cx<'_>,
    units: &mut u64,
    stop: &mut P,
    of: Constructor<'_>,
) -> Result<Option<Statement>, Halt>
    ensures value { RunsAs (option_map statement)
        (of_sides (calls cx.entry.view.now cx.entry.depth) (Some of.entry)
        (equivalence_spec.equivalence cx.entry.view.now (calls cx.entry.view.now cx.entry.depth)) units.old) result units.new }
    ensures count { P.stops stop.old ≤ P.stops stop.new }
    ensures rose { Rose result (P.stops stop.old) (P.stops stop.new) }
{
    match sides_of(cx, units, stop, of)? {
        None => Ok(None),
        Some(sides) => equivalence(cx, units, stop, &sides),
    }
}

// What `inj` says of a constant.
fn by_inj<P: Stop>(
    cx: Cx<'_>,
    units: &mut u64,
    stop: &mut P,
    parent: &Name,
    info: &ConstInfo,
) -> Result<Option<Statement>, Halt>
    ensures value { RunsAs (option_map statement)
        (spec.statement_by cx.entry.view.now (calls cx.entry.view.now cx.entry.depth) parent.now (shape_of info.now) suffixes.Inj units.old)
        result units.new }
    ensures count { P.stops stop.old ≤ P.stops stop.new }
    ensures rose { Rose result (P.stops stop.old) (P.stops stop.new) }
{
    match constructor_of(parent, info) {
        None => Ok(None),
        Some(of) => inj(cx, units, stop, of),
    }
}

// What `injEq` says of a constant.
fn by_inj_eq<P: Stop>(
    cx: Cx<'_>,
    units: &mut u64,
    stop: &mut P,
    parent: &Name,
    info: &ConstInfo,
) -> Result<Option<Statement>, Halt>
    ensures value { RunsAs (option_map statement)
        (spec.statement_by cx.entry.view.now (calls cx.entry.view.now cx.entry.depth) parent.now (shape_of info.now) suffixes.InjEq units.old)
        result units.new }
    ensures count { P.stops stop.old ≤ P.stops stop.new }
    ensures rose { Rose result (P.stops stop.old) (P.stops stop.new) }
{
    match constructor_of(parent, info) {
        None => Ok(None),
        Some(of) => inj_eq(cx, units, stop, of),
    }
}

/// The statement with its proof that the suffix asks for of this constant, which the view finds; `None` where there is
/// none. Refused, Out and Need where the definition is.
#[tactic(auto, using(lf_steps::proofs::Runs::halts))]
pub fn statement_by<P: Stop>(
    cx: Cx<'_>,
    units: &mut u64,
    stop: &mut P,
    parent: &Name,
    info: &ConstInfo,
    suffix: Suffix,
) -> Result<Option<Statement>, Halt>
    requires { lookup_of cx.view.now parent.now ≡ found info.now }
    ensures value { RunsAs (option_map statement)
        (spec.statement_by cx.entry.view.now (calls cx.entry.view.now cx.entry.depth) parent.now (shape_of info.now) suffix units.old)
        result units.new }
    ensures count { P.stops stop.old ≤ P.stops stop.new }
    ensures rose { Rose result (P.stops stop.old) (P.stops stop.new) }
{
    match suffix {
        Suffix::Inj => by_inj(cx, units, stop, parent, info),
        Suffix::InjEq => by_inj_eq(cx, units, stop, parent, info),
        Suffix::Eq1 | Suffix::EqDef | Suffix::EqAt(_) => {
            let f = Defined {
                name: parent,
                levels: info.levels.as_slice(),
            };
            of_value(
                cx,
                units,
                stop,
                f,
                suffix,
                known_body(cx.view, parent, info),
            )
        }
    }
}
