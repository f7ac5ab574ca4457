//! Normal forms.
ghost use Rattle.std.specs.Prelude.{◌≡◌, ◌≤◌, true};
ghost use Rattle.lf_checker.specs.Checker.{calls};
ghost use Rattle.lf_checker.specs.Normalize as normal;
ghost use Rattle.lf_steps.specs.Runs.{Runs, RunsAs, Rose};
ghost use Rattle.lf_check.specs.Bodies as bodies;

use crate::cx::{Cx, close, open};
use crate::reduce::whnf;
use crate::turn::as_literal;
use lf_base::Stop;
use lf_core::{Binder, Expr, ExprNode};
use lf_steps::{Halt, abstracted, apply, arguments, enter, head, opening, put};

/// The normal form.
#[cycle(normalize)]
#[tactic(auto, using(crate::proofs::Nest::at_normalize))]
pub fn normalize<P: Stop>(
    cx: Cx<'_>,
    locals: &mut Vec<Expr>,
    units: &mut u64,
    stop: &mut P,
    term: &Expr,
) -> Result<Expr, Halt>
    ensures value { Runs ((calls cx.entry.view.now cx.entry.depth).normalize locals.old.items term.now units.old) result units.new }
    ensures kept { locals.new.items ≡ locals.old.items }
    ensures count { P.stops stop.old ≤ P.stops stop.new }
    ensures rose { Rose result (P.stops stop.old) (P.stops stop.new) }
{
    enter(cx.depth, units, stop)?;
    let inner = cx.below();
    normalize_form(inner, locals, units, stop, term)
}

// The weak head form, and then its parts.
#[cycle(normalize)]
#[tactic(auto, using(lf_steps::proofs::Runs::halts), unfolding(lf_checker::specs::Normalize::normalize_body))]
fn normalize_form<P: Stop>(
    cx: Cx<'_>,
    locals: &mut Vec<Expr>,
    units: &mut u64,
    stop: &mut P,
    term: &Expr,
) -> Result<Expr, Halt>
    ensures value { Runs (normal.normalize_body (calls cx.entry.view.now cx.entry.depth) locals.old.items term.now units.old) result units.new }
    ensures kept { locals.new.items ≡ locals.old.items }
    ensures count { P.stops stop.old ≤ P.stops stop.new }
    ensures rose { Rose result (P.stops stop.old) (P.stops stop.new) }
{
    let form = whnf(cx, locals, units, stop, true, term)?;
    let term = normalize_parts(cx, locals, units, stop, &form);
    drop(form);
    term
}

// The parts of a weak head form.
#[cycle(normalize)]
#[tactic(auto, using(lf_steps::proofs::Runs::halts))]
fn normalize_parts<P: Stop>(
    cx: Cx<'_>,
    locals: &mut Vec<Expr>,
    units: &mut u64,
    stop: &mut P,
    form: &Expr,
) -> Result<Expr, Halt>
    ensures value { Runs (normal.normalize_parts (calls cx.entry.view.now cx.entry.depth) locals.old.items form.now units.old) result units.new }
    ensures kept { locals.new.items ≡ locals.old.items }
    ensures count { P.stops stop.old ≤ P.stops stop.new }
    ensures rose { Rose result (P.stops stop.old) (P.stops stop.new) }
{
    match form.node() {
        ExprNode::Lam(x, ty, body) => {
            let ty_form = normalize(cx, locals, units, stop, ty)?;
            let body = normalize_inside(cx, locals, units, stop, ty, body)?;
            let x = x.copy(cx.alloc)?;
            put(units, Expr::lam(cx.alloc, x, ty_form, body)?)
        }
        ExprNode::Pi(x, ty, body) => {
            let ty_form = normalize(cx, locals, units, stop, ty)?;
            let body = normalize_inside(cx, locals, units, stop, ty, body)?;
            let x = x.copy(cx.alloc)?;
            put(units, Expr::pi(cx.alloc, x, ty_form, body)?)
        }
        _ => normalize_arguments(cx, locals, units, stop, form),
    }
}

// The body of a binder.
#[cycle(normalize)]
#[tactic(auto, using(lf_steps::proofs::Runs::halts, crate::proofs::Fronts::front_push))]
fn normalize_inside<P: Stop>(
    cx: Cx<'_>,
    locals: &mut Vec<Expr>,
    units: &mut u64,
    stop: &mut P,
    ty: &Expr,
    body: &Expr,
) -> Result<Expr, Halt>
    ensures value { Runs (normal.normalize_body_of_binder (calls cx.entry.view.now cx.entry.depth) locals.old.items ty.now body.now units.old) result
        units.new }
    ensures kept { locals.new.items ≡ locals.old.items }
    ensures count { P.stops stop.old ≤ P.stops stop.new }
    ensures rose { Rose result (P.stops stop.old) (P.stops stop.new) }
{
    let opened = opening(cx.alloc, units, locals.as_slice(), body)?;
    let place = locals.len();
    open(cx.alloc, locals, ty)?;
    let inner = normalize(cx, locals, units, stop, &opened);
    close(locals);
    drop(opened);
    let inner = inner?;
    let closed = abstracted(cx.alloc, units, &inner, place);
    drop(inner);
    closed
}

// The arguments of a term, and then its head.
#[cycle(normalize)]
#[tactic(auto, using(lf_steps::proofs::Runs::halts, crate::proofs::Normals::into_nothing))]
fn normalize_arguments<P: Stop>(
    cx: Cx<'_>,
    locals: &mut Vec<Expr>,
    units: &mut u64,
    stop: &mut P,
    form: &Expr,
) -> Result<Expr, Halt>
    ensures value { Runs (normal.normalize_arguments (calls cx.entry.view.now cx.entry.depth) locals.old.items form.now units.old) result units.new }
    ensures kept { locals.new.items ≡ locals.old.items }
    ensures count { P.stops stop.old ≤ P.stops stop.new }
    ensures rose { Rose result (P.stops stop.old) (P.stops stop.new) }
{
    let all = arguments(cx.alloc, form)?;
    let ready = normalize_all(cx, locals, units, stop, all.as_slice(), Vec::new(cx.alloc))?;
    let start = normalize_head(cx, locals, units, stop, head(form))?;
    let term = put(units, apply(cx.alloc, start, ready.as_slice())?)?;
    Ok(as_literal(cx.alloc, term)?)
}

// Puts the normal forms of the terms at the end of `ready`.
#[cycle(normalize)]
#[tactic(auto, using(lf_steps::proofs::Runs::halts, crate::proofs::Normals::into_none, crate::proofs::Normals::into_more))]
fn normalize_all<P: Stop>(
    cx: Cx<'_>,
    locals: &mut Vec<Expr>,
    units: &mut u64,
    stop: &mut P,
    xs: &[Expr],
    ready: Vec<Expr>,
) -> Result<Vec<Expr>, Halt>
    ensures value { RunsAs (λ v. v.items) (bodies.normalize_into (calls cx.entry.view.now cx.entry.depth) locals.old.items ready.items xs.now units.old)
        result units.new }
    ensures kept { locals.new.items ≡ locals.old.items }
    ensures count { P.stops stop.old ≤ P.stops stop.new }
    ensures rose { Rose result (P.stops stop.old) (P.stops stop.new) }
{
    match xs {
        [] => Ok(ready),
        [x, rest @ ..] => {
            let one = normalize(cx, locals, units, stop, x)?;
            let mut more = ready;
            more.push(one)?;
            normalize_all(cx, locals, units, stop, rest, more)
        }
    }
}

// The head of a term: a projection's term.
#[cycle(normalize)]
#[tactic(auto, using(lf_steps::proofs::Runs::halts))]
fn normalize_head<P: Stop>(
    cx: Cx<'_>,
    locals: &mut Vec<Expr>,
    units: &mut u64,
    stop: &mut P,
    start: &Expr,
) -> Result<Expr, Halt>
    ensures value { Runs (normal.normalize_head (calls cx.entry.view.now cx.entry.depth) locals.old.items start.now units.old) result units.new }
    ensures kept { locals.new.items ≡ locals.old.items }
    ensures count { P.stops stop.old ≤ P.stops stop.new }
    ensures rose { Rose result (P.stops stop.old) (P.stops stop.new) }
{
    match start.node() {
        ExprNode::Proj(structure, place, term) => {
            let term = normalize(cx, locals, units, stop, term)?;
            let structure = structure.copy(cx.alloc)?;
            Ok(Expr::proj(cx.alloc, structure, *place, term)?)
        }
        _ => Ok(start.copy(cx.alloc)?),
    }
}
