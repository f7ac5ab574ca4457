//! The types of terms.
ghost use Rattle.std.specs.Prelude.{◌≡◌, ◌≤◌, true, false, option_map};
ghost use Rattle.std.specs.Option.{option_copied};
ghost use Rattle.lf_core.specs.Spine as spine;
ghost use Rattle.lf_checker.specs.Calls.{checked, unchecked, see as spec_see};
ghost use Rattle.lf_checker.specs.Checker.{calls};
ghost use Rattle.lf_checker.specs.Whnf as whnf;
ghost use Rattle.lf_checker.specs.Equal as equal;
ghost use Rattle.lf_checker.specs.Infer as infer;
ghost use Rattle.lf_steps.specs.Runs.{Runs, RunsAs, Rose};
ghost use Rattle.lf_steps.specs.Values as values;
ghost use Rattle.lf_check.specs.Bodies as bodies;
ghost use Rattle.lf_check.specs.Tower as tower;
ghost use Rattle.lf_check.specs.Values as own;
ghost use Rattle.lf_checker.specs.Extends.{shape_of};

use crate::compare::equal;
use crate::cx::{Cx, close, open};
use crate::form::parts_of_pi;
use crate::mode::Mode;
use crate::reduce::whnf;
use crate::typing::{
    argument_fits, no_function, of_constant, of_literal, of_metavariable, of_pi, of_sort,
    of_variable, on_sort, on_structure, value_fits,
};
use lf_base::Stop;
use lf_checker::TypeFault;
use lf_core::{Binder, Expr, ExprNode, Level, Name};
use lf_steps::{Halt, abstracted, enter, instance, opening, put, refusal, under};

/// The type of a term, within a run: the units go down by what is spent, and a refusal has the names opened so far.
#[cycle(check)]
#[tactic(auto, using(crate::proofs::Nest::at_infer))]
pub fn infer<P: Stop>(
    cx: Cx<'_>,
    locals: &mut Vec<Expr>,
    units: &mut u64,
    stop: &mut P,
    mode: Mode<'_>,
    term: &Expr,
) -> Result<Expr, Halt>
    ensures value { Runs ((calls cx.entry.view.now cx.entry.depth).infer (own.mode mode.entry) locals.old.items term.now units.old) result units.new }
    ensures kept { locals.new.items ≡ locals.old.items }
    ensures count { P.stops stop.old ≤ P.stops stop.new }
    ensures rose { Rose result (P.stops stop.old) (P.stops stop.new) }
{
    enter(cx.depth, units, stop)?;
    let inner = cx.below();
    infer_form(inner, locals, units, stop, mode, term)
}

// By the form of the term.
#[cycle(check)]
#[tactic(auto, using(lf_steps::proofs::Runs::halts), unfolding(lf_checker::specs::Infer::infer_body))]
pub fn infer_form<P: Stop>(
    cx: Cx<'_>,
    locals: &mut Vec<Expr>,
    units: &mut u64,
    stop: &mut P,
    mode: Mode<'_>,
    term: &Expr,
) -> Result<Expr, Halt>
    ensures value { Runs (infer.infer_body cx.entry.view.now (calls cx.entry.view.now cx.entry.depth) (own.mode mode.entry) locals.old.items term.now
        units.old) result units.new }
    ensures kept { locals.new.items ≡ locals.old.items }
    ensures count { P.stops stop.old ≤ P.stops stop.new }
    ensures rose { Rose result (P.stops stop.old) (P.stops stop.new) }
{
    match term.node() {
        ExprNode::Bound(_) => Err(Halt::Refused(refusal(cx.alloc, TypeFault::NotClosed))),
        ExprNode::Free(place) => of_variable(cx.alloc, units, locals.as_slice(), *place),
        ExprNode::Meta(number) => of_metavariable(cx.alloc, units, mode, *number),
        ExprNode::Sort(level) => of_sort(cx.alloc, units, level),
        ExprNode::Const(name, levels) => {
            of_constant(cx.alloc, cx.view, units, name, levels.as_slice())
        }
        ExprNode::Lit(_) => Ok(of_literal(cx.alloc)?),
        ExprNode::App(f, a) => infer_application(cx, locals, units, stop, mode, f, a),
        ExprNode::Lam(x, ty, body) => infer_lambda(cx, locals, units, stop, mode, x, ty, body),
        ExprNode::Pi(x, ty, body) => infer_pi(cx, locals, units, stop, mode, x, ty, body),
        ExprNode::Let(_, ty, value, body) => {
            infer_let(cx, locals, units, stop, mode, ty, value, body)
        }
        ExprNode::Proj(name, place, t) => {
            infer_projection(cx, locals, units, stop, mode, name, *place, t)
        }
    }
}

// The type of a term, and the weak head form of the type.
#[cycle(check)]
#[tactic(auto, using(lf_steps::proofs::Runs::halts))]
pub fn formed<P: Stop>(
    cx: Cx<'_>,
    locals: &mut Vec<Expr>,
    units: &mut u64,
    stop: &mut P,
    mode: Mode<'_>,
    term: &Expr,
) -> Result<(Expr, Expr), Halt>
    ensures value { Runs (bodies.formed (calls cx.entry.view.now cx.entry.depth) (own.mode mode.entry) locals.old.items term.now units.old) result units.new }
    ensures kept { locals.new.items ≡ locals.old.items }
    ensures count { P.stops stop.old ≤ P.stops stop.new }
    ensures rose { Rose result (P.stops stop.old) (P.stops stop.new) }
{
    let has = infer(cx, locals, units, stop, mode, term)?;
    let form = whnf(cx, locals, units, stop, true, &has)?;
    Ok((has, form))
}

// The codomain of the function's type at the argument.
#[cycle(check)]
#[tactic(auto, using(lf_steps::proofs::Runs::halts))]
pub fn infer_application<P: Stop>(
    cx: Cx<'_>,
    locals: &mut Vec<Expr>,
    units: &mut u64,
    stop: &mut P,
    mode: Mode<'_>,
    f: &Expr,
    a: &Expr,
) -> Result<Expr, Halt>
    ensures value { Runs (bodies.application (calls cx.entry.view.now cx.entry.depth) (own.mode mode.entry) locals.old.items f.now a.now units.old) result
        units.new }
    ensures kept { locals.new.items ≡ locals.old.items }
    ensures count { P.stops stop.old ≤ P.stops stop.new }
    ensures rose { Rose result (P.stops stop.old) (P.stops stop.new) }
{
    let (has, form) = formed(cx, locals, units, stop, mode, f)?;
    match parts_of_pi(&form) {
        Some((domain, codomain)) => {
            fits(cx, locals, units, stop, mode, a, domain)?;
            instance(cx.alloc, units, codomain, a)
        }
        None => no_function(cx.alloc, units, &has),
    }
}

// Whether the argument has this type.
#[cycle(check)]
#[tactic(auto, using(lf_steps::proofs::Runs::halts))]
pub fn fits<P: Stop>(
    cx: Cx<'_>,
    locals: &mut Vec<Expr>,
    units: &mut u64,
    stop: &mut P,
    mode: Mode<'_>,
    a: &Expr,
    wanted: &Expr,
) -> Result<(), Halt>
    ensures value { Runs (infer.argument_fits (calls cx.entry.view.now cx.entry.depth) (own.mode mode.entry) locals.old.items a.now wanted.now units.old)
        result units.new }
    ensures kept { locals.new.items ≡ locals.old.items }
    ensures count { P.stops stop.old ≤ P.stops stop.new }
    ensures rose { Rose result (P.stops stop.old) (P.stops stop.new) }
{
    match mode {
        Mode::Checked => {
            let has = infer(cx, locals, units, stop, Mode::Checked, a)?;
            let same = equal(cx, locals, units, stop, &has, wanted)?;
            let fits = argument_fits(cx.alloc, units, same, &has, wanted);
            drop(has);
            fits
        }
        Mode::Unchecked(_) => Ok(()),
    }
}

/// The level of the sort of a type, within a run.
#[cycle(check)]
#[tactic(auto, using(lf_steps::proofs::Runs::halts, crate::proofs::Judging::sort_is))]
pub fn sort_of<P: Stop>(
    cx: Cx<'_>,
    locals: &mut Vec<Expr>,
    units: &mut u64,
    stop: &mut P,
    mode: Mode<'_>,
    ty: &Expr,
) -> Result<Level, Halt>
    ensures value { Runs (infer.sort_of (calls cx.entry.view.now cx.entry.depth) (own.mode mode.entry) locals.old.items ty.now units.old) result units.new }
    ensures kept { locals.new.items ≡ locals.old.items }
    ensures count { P.stops stop.old ≤ P.stops stop.new }
    ensures rose { Rose result (P.stops stop.old) (P.stops stop.new) }
{
    let (has, form) = formed(cx, locals, units, stop, mode, ty)?;
    let level = on_sort(cx.alloc, units, &has, &form);
    drop(has);
    drop(form);
    level
}

// Whether the term is a type.
#[cycle(check)]
#[tactic(auto, using(lf_steps::proofs::Runs::halts))]
pub fn is_type<P: Stop>(
    cx: Cx<'_>,
    locals: &mut Vec<Expr>,
    units: &mut u64,
    stop: &mut P,
    mode: Mode<'_>,
    ty: &Expr,
) -> Result<(), Halt>
    ensures value { Runs (infer.is_type (calls cx.entry.view.now cx.entry.depth) (own.mode mode.entry) locals.old.items ty.now units.old) result units.new }
    ensures kept { locals.new.items ≡ locals.old.items }
    ensures count { P.stops stop.old ≤ P.stops stop.new }
    ensures rose { Rose result (P.stops stop.old) (P.stops stop.new) }
{
    match mode {
        Mode::Checked => {
            sort_of(cx, locals, units, stop, Mode::Checked, ty)?;
            Ok(())
        }
        Mode::Unchecked(_) => Ok(()),
    }
}

// The pi of a lambda.
#[cycle(check)]
#[tactic(auto, using(lf_steps::proofs::Runs::halts, crate::proofs::Fronts::front_push, lf_steps::proofs::Runs::named_runs))]
pub fn infer_lambda<P: Stop>(
    cx: Cx<'_>,
    locals: &mut Vec<Expr>,
    units: &mut u64,
    stop: &mut P,
    mode: Mode<'_>,
    x: &Binder,
    ty: &Expr,
    body: &Expr,
) -> Result<Expr, Halt>
    ensures value { Runs (bodies.lambda (calls cx.entry.view.now cx.entry.depth) (own.mode mode.entry) locals.old.items x.now ty.now body.now units.old)
        result units.new }
    ensures kept { locals.new.items ≡ locals.old.items }
    ensures count { P.stops stop.old ≤ P.stops stop.new }
    ensures rose { Rose result (P.stops stop.old) (P.stops stop.new) }
{
    is_type(cx, locals, units, stop, mode, ty)?;
    let opened = opening(cx.alloc, units, locals.as_slice(), body)?;
    let place = locals.len();
    open(cx.alloc, locals, ty)?;
    let inner = infer(cx, locals, units, stop, mode, &opened);
    close(locals);
    drop(opened);
    let codomain = under(cx.alloc, &x.name, inner)?;
    let closed = abstracted(cx.alloc, units, &codomain, place);
    drop(codomain);
    let closed = closed?;
    put(
        units,
        Expr::pi(cx.alloc, x.copy(cx.alloc)?, ty.copy(cx.alloc)?, closed)?,
    )
}

// The sort of a pi.
#[cycle(check)]
#[tactic(auto, using(lf_steps::proofs::Runs::halts, crate::proofs::Fronts::front_push, lf_steps::proofs::Runs::named_runs))]
pub fn infer_pi<P: Stop>(
    cx: Cx<'_>,
    locals: &mut Vec<Expr>,
    units: &mut u64,
    stop: &mut P,
    mode: Mode<'_>,
    x: &Binder,
    ty: &Expr,
    body: &Expr,
) -> Result<Expr, Halt>
    ensures value { Runs (bodies.pi_type (calls cx.entry.view.now cx.entry.depth) (own.mode mode.entry) locals.old.items x.now ty.now body.now units.old)
        result units.new }
    ensures kept { locals.new.items ≡ locals.old.items }
    ensures count { P.stops stop.old ≤ P.stops stop.new }
    ensures rose { Rose result (P.stops stop.old) (P.stops stop.new) }
{
    let domain = sort_of(cx, locals, units, stop, mode, ty)?;
    let opened = opening(cx.alloc, units, locals.as_slice(), body)?;
    open(cx.alloc, locals, ty)?;
    let inner = sort_of(cx, locals, units, stop, mode, &opened);
    close(locals);
    drop(opened);
    let codomain = under(cx.alloc, &x.name, inner)?;
    of_pi(cx.alloc, units, domain, codomain)
}

// The type of the body with the value in it.
#[cycle(check)]
#[tactic(auto, using(lf_steps::proofs::Runs::halts))]
pub fn infer_let<P: Stop>(
    cx: Cx<'_>,
    locals: &mut Vec<Expr>,
    units: &mut u64,
    stop: &mut P,
    mode: Mode<'_>,
    ty: &Expr,
    value: &Expr,
    body: &Expr,
) -> Result<Expr, Halt>
    ensures value { Runs (bodies.let_type (calls cx.entry.view.now cx.entry.depth) (own.mode mode.entry) locals.old.items ty.now value.now body.now units.old)
        result units.new }
    ensures kept { locals.new.items ≡ locals.old.items }
    ensures count { P.stops stop.old ≤ P.stops stop.new }
    ensures rose { Rose result (P.stops stop.old) (P.stops stop.new) }
{
    has_type(cx, locals, units, stop, mode, value, ty)?;
    let term = instance(cx.alloc, units, body, value)?;
    let ty = infer(cx, locals, units, stop, mode, &term);
    drop(term);
    ty
}

// Whether the value has the type, which is one.
#[cycle(check)]
#[tactic(auto, using(lf_steps::proofs::Runs::halts))]
pub fn has_type<P: Stop>(
    cx: Cx<'_>,
    locals: &mut Vec<Expr>,
    units: &mut u64,
    stop: &mut P,
    mode: Mode<'_>,
    value: &Expr,
    ty: &Expr,
) -> Result<(), Halt>
    ensures value { Runs (infer.value_fits (calls cx.entry.view.now cx.entry.depth) (own.mode mode.entry) locals.old.items value.now ty.now units.old) result
        units.new }
    ensures kept { locals.new.items ≡ locals.old.items }
    ensures count { P.stops stop.old ≤ P.stops stop.new }
    ensures rose { Rose result (P.stops stop.old) (P.stops stop.new) }
{
    match mode {
        Mode::Checked => {
            sort_of(cx, locals, units, stop, Mode::Checked, ty)?;
            let has = infer(cx, locals, units, stop, Mode::Checked, value)?;
            let same = equal(cx, locals, units, stop, &has, ty)?;
            let fits = value_fits(cx.alloc, units, same, &has, ty);
            drop(has);
            fits
        }
        Mode::Unchecked(_) => Ok(()),
    }
}

// The type of a field.
#[cycle(check)]
#[tactic(auto, using(lf_steps::proofs::Runs::halts, crate::proofs::Judging::projection_is))]
pub fn infer_projection<P: Stop>(
    cx: Cx<'_>,
    locals: &mut Vec<Expr>,
    units: &mut u64,
    stop: &mut P,
    mode: Mode<'_>,
    name: &Name,
    place: u32,
    term: &Expr,
) -> Result<Expr, Halt>
    ensures value { Runs (bodies.projection cx.entry.view.now (calls cx.entry.view.now cx.entry.depth) (own.mode mode.entry) locals.old.items name.now place
        term.now units.old) result units.new }
    ensures kept { locals.new.items ≡ locals.old.items }
    ensures count { P.stops stop.old ≤ P.stops stop.new }
    ensures rose { Rose result (P.stops stop.old) (P.stops stop.new) }
{
    let (has, form) = formed(cx, locals, units, stop, mode, term)?;
    let ty = on_structure(cx.alloc, cx.view, units, &has, name, place, term, &form);
    drop(has);
    drop(form);
    ty
}
