//! Statements over telescopes that hold by reflexivity.
ghost use Rattle.std.specs.Prelude.{◌≡◌, ◌≤◌, ◌∷◌, ◌++◌, [], codes, length, IfOk, IfSome, OnOk};
ghost use Rattle.lf_core.specs.Spine as spine;
ghost use Rattle.lf_core.specs.Term.{const};
ghost use Rattle.lf_rules.specs.Recursor.{parameters_from};
ghost use Rattle.lf_checker.specs.Checker.{calls};
ghost use Rattle.lf_elaboration.specs.Equations as equations;
ghost use Rattle.lf_elaboration.specs.Metavariables as terms;
ghost use Rattle.lf_elaboration.specs.Statement as spec;
ghost use Rattle.lf_steps.specs.Runs.{RunsAs, Rose};
ghost use Rattle.lf_telescope.specs.Values.{some_statement};

use crate::closed::{lambdas_closed, pis_closed};
use crate::locals::{push_variables, types};
use crate::opened::open_lambdas;
use lf_base::Stop;
use lf_check::{Cx, Mode, infer_within, sort_of};
use lf_core::{Expr, ExprNode, Level, Name, NoMemory};
use lf_recursor::Local;
use lf_steps::{Halt, apply};
use sqlite_items::Items;
use std::alloc::Global;

/// A statement, and a proof of it.
#[derive(Debug, Drop)]
pub struct Statement {
    pub ty: Expr,
    pub proof: Expr,
}

/// How many lambdas the term begins with. `None` where it is no u32.
pub fn leading_lambdas(term: &Expr) -> Option<u32>
    ensures { IfSome result (λ n. n ≡ terms.leading_lambdas term.now) }
{
    match term.node() {
        ExprNode::Lam(_, _, b) => leading_lambdas(b)?.checked_add(1),
        _ => Some(0),
    }
}

// The constant of this name at this level alone.
fn at_level(alloc: Global, name: Name, level: &Level) -> Result<Expr, NoMemory>
    ensures { IfOk result (λ t. t ≡ const name (level.now ∷ [])) }
{
    let mut levels = Items::new(alloc);
    levels.push(level.copy(alloc)?)?;
    Expr::constant(alloc, name, levels)
}

// That two terms of this type, whose sort has this level, are equal.
fn equality(
    alloc: Global,
    level: &Level,
    ty: &Expr,
    left: &Expr,
    right: &Expr,
) -> Result<Expr, NoMemory>
    ensures { IfOk result (λ t. t ≡ spine.apply (const equations.eq_name (level.now ∷ [])) (ty.now ∷ left.now ∷ right.now ∷ [])) }
{
    let name = Name::one(alloc, "Eq")?;
    let whole = at_level(alloc, name, level)?;
    let whole = Expr::app(alloc, whole, ty.copy(alloc)?)?;
    let whole = Expr::app(alloc, whole, left.copy(alloc)?)?;
    Expr::app(alloc, whole, right.copy(alloc)?)
}

// That a term of this type is itself.
fn itself(alloc: Global, level: &Level, ty: &Expr, term: &Expr) -> Result<Expr, NoMemory>
    ensures { IfOk result (λ t. t ≡ spine.apply (const (equations.eq_part (codes "refl")) (level.now ∷ [])) (ty.now ∷ term.now ∷ [])) }
{
    let name = Name::one(alloc, "Eq")?.child(alloc, "refl")?;
    let whole = at_level(alloc, name, level)?;
    let whole = Expr::app(alloc, whole, ty.copy(alloc)?)?;
    Expr::app(alloc, whole, term.copy(alloc)?)
}

/// That two terms of one type are equal, over the telescope, by reflexivity of the first (docs/language.md, Realized
/// constants), within a run. That the kernel accepts it isn't said here. Refused, Out and Need where the definition is.
#[tactic(auto, using(lf_steps::proofs::Runs::halts))]
pub fn by_reflexivity<P: Stop>(
    cx: Cx<'_>,
    units: &mut u64,
    stop: &mut P,
    locals: &[Local],
    left: &Expr,
    right: &Expr,
) -> Result<Statement, Halt>
    ensures value { RunsAs some_statement (spec.by_reflexivity (calls cx.entry.view.now cx.entry.depth) locals.now left.now right.now units.old) result
        units.new }
    ensures count { P.stops stop.old ≤ P.stops stop.new }
    ensures rose { Rose result (P.stops stop.old) (P.stops stop.new) }
{
    let alloc = cx.alloc;
    let mut context = types(alloc, locals)?;
    let ty = infer_within(cx, &mut context, units, stop, Mode::Checked, left)?;
    let level = sort_of(cx, &mut context, units, stop, Mode::Checked, &ty)?;
    let statement = equality(alloc, &level, &ty, left, right)?;
    let statement = pis_closed(alloc, units, 0, locals, statement)?;
    let proof = itself(alloc, &level, &ty, left)?;
    let proof = lambdas_closed(alloc, units, 0, locals, proof)?;
    Ok(Statement {
        ty: statement,
        proof,
    })
}

// Puts `n` level parameters from `k` on behind `all`.
#[tactic(auto, using(lf_recursor::proofs::Lists::parameters_one))]
fn push_parameters(alloc: Global, all: &mut Items<Level>, k: u32, n: usize) -> Result<(), NoMemory>
    ensures { OnOk result (all.new ≡ all.old ++ parameters_from k n) }
{
    if n == 0 {
        return Ok(());
    }
    all.push(Level::param(alloc, k)?)?;
    let next = k.checked_add(1).ok_or(NoMemory)?;
    push_parameters(alloc, all, next, n - 1)
}

/// The constant with these level parameters, at them and at the variables of the telescope.
pub fn at_itself(
    alloc: Global,
    name: &Name,
    levels: &[Name],
    locals: &[Local],
) -> Result<Expr, NoMemory>
    ensures { IfOk result (λ t. t ≡ spec.self name.now levels.now locals.now) }
{
    let mut given = Items::new(alloc);
    push_parameters(alloc, &mut given, 0, levels.len())?;
    let constant = Expr::constant(alloc, name.copy(alloc)?, given)?;
    let mut arguments = Vec::new(alloc);
    push_variables(&mut arguments, 0, locals)?;
    apply(alloc, constant, arguments.as_slice())
}

/// That a definition at its binders is its body (docs/language.md, Realized constants), within a run:
/// of the definition of this name and value with these level parameters.
#[tactic(auto, using(lf_steps::proofs::Runs::halts))]
pub fn unfolding_of<P: Stop>(
    cx: Cx<'_>,
    units: &mut u64,
    stop: &mut P,
    name: &Name,
    levels: &[Name],
    value: &Expr,
) -> Result<Statement, Halt>
    ensures value { RunsAs some_statement (spec.unfolding_of (calls cx.entry.view.now cx.entry.depth) name.now levels.now value.now units.old) result
        units.new }
    ensures count { P.stops stop.old ≤ P.stops stop.new }
    ensures rose { Rose result (P.stops stop.old) (P.stops stop.new) }
{
    let n = leading_lambdas(value).ok_or(NoMemory)? as usize;
    let opened = open_lambdas(cx.alloc, units, n, &[], value)?;
    let locals = opened.locals.as_slice();
    let left = at_itself(cx.alloc, name, levels, locals)?;
    by_reflexivity(cx, units, stop, locals, &left, &opened.rest)
}
