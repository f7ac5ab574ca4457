//! Binders closed again, at their costs.
ghost use Rattle.lf_elaboration.specs.Statement as spec;
ghost use Rattle.lf_steps.specs.Runs.{Runs, Calm};

use lf_core::{Expr, NoMemory};
use lf_recursor::Local;
use lf_steps::{Halt, abstracted, put};
use std::alloc::Global;

/// Pis over the telescope that begins at `k`, and then `body`: each costs the nodes of what it binds. Out where the units
/// or the depth don't suffice.
#[tactic(auto, using(lf_steps::proofs::Runs::halts))]
pub fn pis_closed(
    alloc: Global,
    units: &mut u64,
    k: usize,
    locals: &[Local],
    body: Expr,
) -> Result<Expr, Halt>
    ensures value { Runs (spec.pis_closed k locals.now body units.old) result units.new }
    ensures calm { Calm result }
{
    match locals {
        [] => put(units, body),
        [x, xs @ ..] => {
            let next = k.checked_add(1).ok_or(NoMemory)?;
            let under = pis_closed(alloc, units, next, xs, body)?;
            let under = abstracted(alloc, units, &under, k)?;
            let closed = Expr::pi(alloc, x.binder.copy(alloc)?, x.ty.copy(alloc)?, under)?;
            put(units, closed)
        }
    }
}

/// Lambdas over the telescope that begins at `k`, and then `body`, in the same way.
#[tactic(auto, using(lf_steps::proofs::Runs::halts))]
pub fn lambdas_closed(
    alloc: Global,
    units: &mut u64,
    k: usize,
    locals: &[Local],
    body: Expr,
) -> Result<Expr, Halt>
    ensures value { Runs (spec.lambdas_closed k locals.now body units.old) result units.new }
    ensures calm { Calm result }
{
    match locals {
        [] => put(units, body),
        [x, xs @ ..] => {
            let next = k.checked_add(1).ok_or(NoMemory)?;
            let under = lambdas_closed(alloc, units, next, xs, body)?;
            let under = abstracted(alloc, units, &under, k)?;
            let closed = Expr::lam(alloc, x.binder.copy(alloc)?, x.ty.copy(alloc)?, under)?;
            put(units, closed)
        }
    }
}
