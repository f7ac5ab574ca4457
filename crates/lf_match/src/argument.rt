//! The argument of a definition by equations.
ghost use Rattle.std.specs.Prelude.{◌≡◌, ◌≤◌, ℕ, length, option_map, IfOk};
ghost use Rattle.lf_core.specs.Spine as spine;
ghost use Rattle.lf_rules.specs.Telescope.{types as types_of};
ghost use Rattle.lf_checker.specs.Checker.{calls};
ghost use Rattle.lf_elaboration.specs.Forms as forms;
ghost use Rattle.lf_equations.specs.Argument as spec;
ghost use Rattle.lf_equations.specs.Outcome.{or_fault};
ghost use Rattle.lf_equations.specs.declared.fault.EquationFault.TheVariants.{NotInductive};
ghost use Rattle.lf_telescope.specs.Values.{binding};
ghost use Rattle.lf_steps.specs.Runs as steps;
ghost use Rattle.lf_match.specs.Compiles.{CompilesAs, Compiles, Rose, Calm};
ghost use Rattle.lf_match.specs.Parts as parts;
ghost use Rattle.lf_match.specs.Values.{inductive, argument_of};

use crate::ended::{Ended, wanted};
use lf_base::Stop;
use lf_check::{Cx, Mode, infer_within, open, whnf_within};
use lf_core::{Binder, ConstInfo, Detail, Expr, ExprNode, Level, Name, NoMemory, copy_all};
use lf_env::View;
use lf_equations::EquationFault;
use lf_steps::{Halt, Seen, arguments, attempt, head, need, opening, see};
use lf_telescope::{Binding, Local, as_pi, open_pis, types};
use sqlite_items::Items;
use std::alloc::Global;

/// An inductive type without indices, at levels and parameters.
#[derive(Debug, Drop)]
pub struct Inductive {
    pub name: Name,
    pub levels: Items<Level>,
    pub params: Vec<Expr>,
    /// The names of its constructors, in their order.
    pub constructors: Items<Name>,
    /// It eliminates into every sort.
    pub large: bool,
}

/// What the first test finds: the definition's binders, opened from 0 on; the binder, the domain and the codomain of the
/// pi behind them; the inductive type that the domain is; and the level of the codomain's sort.
#[derive(Debug, Drop)]
pub struct Argument {
    pub binders: Vec<Local>,
    pub binder: Binder,
    pub domain: Expr,
    pub codomain: Expr,
    pub ind: Inductive,
    pub level: Level,
}

fn as_sort(term: &Expr) -> Option<&Level>
    ensures { option_map (λ l. l.now) result ≡ forms.as_sort term.now }
{
    match term.node() {
        ExprNode::Sort(level) => Some(level),
        _ => None,
    }
}

// The level of the sort that the form is.
fn sort_level(alloc: Global, form: &Expr) -> Result<Level, Ended>
    ensures value { (u : ℕ) → Compiles (or_fault NotInductive (forms.as_sort form.now) u) result u }
    ensures calm { Calm result }
{
    match as_sort(form) {
        Some(level) => Ok(level.copy(alloc)?),
        None => Err(Ended::Fault(EquationFault::NotInductive)),
    }
}

// The inductive type that a constant at these levels and arguments is.
#[tactic(auto, using(crate::proofs::Arguments::without_indices, crate::proofs::Arguments::with_indices))]
fn inductive_at(
    alloc: Global,
    name: &Name,
    levels: &[Level],
    params: Vec<Expr>,
    info: &ConstInfo,
) -> Result<Option<Inductive>, NoMemory>
    ensures { IfOk result (λ i. option_map inductive i
        ≡ spec.inductive_by (record { name = name.now; levels = levels.now }) params.items (length info.now.levels) info.now.detail) }
{
    match &info.detail {
        Detail::Ind {
            params: count,
            indices,
            ctors,
            large,
        } => {
            let fits = levels.len() == info.levels.len() && params.len() == *count as usize;
            if *indices != 0 || !fits {
                drop(params);
                return Ok(None);
            }
            Ok(Some(Inductive {
                name: name.copy(alloc)?,
                levels: copy_all(alloc, levels)?,
                params,
                constructors: copy_all(alloc, ctors.as_slice())?,
                large: *large,
            }))
        }
        Detail::Plain | Detail::Ctor { .. } | Detail::Rec { .. } => {
            drop(params);
            Ok(None)
        }
    }
}

// The inductive type that the form is.
fn inductive_of(
    alloc: Global,
    view: &View,
    units: &mut u64,
    form: &Expr,
) -> Result<Option<Inductive>, Halt>
    ensures value { steps.RunsAs (option_map inductive) (spec.inductive_of view.now (forms.as_constant (spine.head_of form.now)) (spine.arguments_of form.now)
        units.old) result units.new }
    ensures calm { steps.Calm result }
{
    match head(form).node() {
        ExprNode::Const(name, levels) => match see(alloc, view, name)? {
            Seen::Known(info) => {
                let params = arguments(alloc, form)?;
                Ok(inductive_at(alloc, name, levels.as_slice(), params, info)?)
            }
            Seen::Unknown => Ok(None),
            Seen::Missing(key) => Err(need(units, key)),
        },
        _ => Ok(None),
    }
}

// The level of the sort of a type.
#[tactic(auto, using(lf_steps::proofs::Runs::halts, lf_steps::proofs::Runs::caught_runs, crate::proofs::Arguments::level_is))]
fn level_of<P: Stop>(
    cx: Cx<'_>,
    context: &mut Vec<Expr>,
    units: &mut u64,
    stop: &mut P,
    ty: &Expr,
) -> Result<Level, Ended>
    ensures value { Compiles (spec.level_of (calls cx.entry.view.now cx.entry.depth) context.old.items ty.now units.old) result units.new }
    ensures count { P.stops stop.old ≤ P.stops stop.new }
    ensures rose { Rose result (P.stops stop.old) (P.stops stop.new) }
{
    let has = infer_within(cx, context, units, stop, Mode::Checked, ty);
    let has = wanted(attempt(has)?)?;
    let form = whnf_within(cx, context, units, stop, true, &has)?;
    sort_level(cx.alloc, &form)
}

// Behind the pi whose domain is this inductive type.
#[tactic(auto, using(lf_steps::proofs::Runs::halts, crate::proofs::Ends::step_ends))]
fn at_inductive<P: Stop>(
    cx: Cx<'_>,
    context: &mut Vec<Expr>,
    units: &mut u64,
    stop: &mut P,
    binders: Vec<Local>,
    front: Binding<'_>,
    ind: Inductive,
) -> Result<Argument, Ended>
    requires { context.old.items ≡ types_of binders.items }
    ensures value { CompilesAs argument_of (parts.at_inductive (calls cx.entry.view.now cx.entry.depth) binders.items (binding front.entry) (inductive ind)
        units.old) result units.new }
    ensures count { P.stops stop.old ≤ P.stops stop.new }
    ensures rose { Rose result (P.stops stop.old) (P.stops stop.new) }
{
    let alloc = cx.alloc;
    let codomain = opening(alloc, units, context.as_slice(), front.body)?;
    open(alloc, context, front.domain)?;
    let level = level_of(cx, context, units, stop, &codomain)?;
    Ok(Argument {
        binders,
        binder: front.binder.copy(alloc)?,
        domain: front.domain.copy(alloc)?,
        codomain: front.body.copy(alloc)?,
        ind,
        level,
    })
}

// Behind the binders, at this pi.
#[tactic(auto, using(lf_steps::proofs::Runs::halts))]
fn at_binding<P: Stop>(
    cx: Cx<'_>,
    context: &mut Vec<Expr>,
    units: &mut u64,
    stop: &mut P,
    binders: Vec<Local>,
    front: Binding<'_>,
) -> Result<Argument, Ended>
    requires { context.old.items ≡ types_of binders.items }
    ensures value { CompilesAs argument_of (parts.at_binding cx.entry.view.now (calls cx.entry.view.now cx.entry.depth) binders.items (binding front.entry)
        units.old) result units.new }
    ensures count { P.stops stop.old ≤ P.stops stop.new }
    ensures rose { Rose result (P.stops stop.old) (P.stops stop.new) }
{
    let form = whnf_within(cx, context, units, stop, true, front.domain)?;
    match inductive_of(cx.alloc, cx.view, units, &form)? {
        Some(ind) => at_inductive(cx, context, units, stop, binders, front, ind),
        None => Err(Ended::Fault(EquationFault::NotInductive)),
    }
}

// Behind the binders, at this form of what is left of the stated type.
fn at_form<P: Stop>(
    cx: Cx<'_>,
    context: &mut Vec<Expr>,
    units: &mut u64,
    stop: &mut P,
    binders: Vec<Local>,
    form: &Expr,
) -> Result<Argument, Ended>
    requires { context.old.items ≡ types_of binders.items }
    ensures value { CompilesAs argument_of (parts.at_form cx.entry.view.now (calls cx.entry.view.now cx.entry.depth) binders.items form.now units.old) result
        units.new }
    ensures count { P.stops stop.old ≤ P.stops stop.new }
    ensures rose { Rose result (P.stops stop.old) (P.stops stop.new) }
{
    match as_pi(form) {
        Some(front) => at_binding(cx, context, units, stop, binders, front),
        None => {
            drop(binders);
            Err(Ended::Fault(EquationFault::NotInductive))
        }
    }
}

/// The first test: behind `n` binders the stated type is a pi over an inductive type without indices, and its codomain is a
/// type.
#[tactic(auto, using(lf_steps::proofs::Runs::halts, crate::proofs::Arguments::argument_is))]
pub fn find_argument<P: Stop>(
    cx: Cx<'_>,
    units: &mut u64,
    stop: &mut P,
    n: usize,
    ty: &Expr,
) -> Result<Argument, Ended>
    ensures value { CompilesAs argument_of (spec.argument cx.entry.view.now (calls cx.entry.view.now cx.entry.depth) n ty.now units.old) result units.new }
    ensures count { P.stops stop.old ≤ P.stops stop.new }
    ensures rose { Rose result (P.stops stop.old) (P.stops stop.new) }
{
    let opened = open_pis(cx.alloc, units, n, &[], ty)?;
    let mut context = types(cx.alloc, opened.locals.as_slice())?;
    let form = whnf_within(cx, &mut context, units, stop, true, &opened.rest)?;
    at_form(cx, &mut context, units, stop, opened.locals, &form)
}
