//! What is left of a type of pis at arguments.
ghost use Rattle.lf_elaboration.specs.Induction as spec;
ghost use Rattle.lf_steps.specs.Runs.{Runs, Calm};

use crate::form::as_pi;
use lf_core::Expr;
use lf_steps::{Halt, instance};
use std::alloc::Global;

/// What is left of a type of pis at these arguments, or None where it has fewer pis. Each argument costs the nodes of what
/// it leaves. Out where units or depth don't suffice, and NoMemory; no other halt.
#[tactic(auto, using(lf_steps::proofs::Runs::halts))]
pub fn codomain_at(
    alloc: Global,
    units: &mut u64,
    arguments: &[Expr],
    ty: &Expr,
) -> Result<Option<Expr>, Halt>
    ensures value { Runs (spec.codomain_at arguments.now ty.now units.old) result units.new }
    ensures calm { Calm result }
{
    match arguments {
        [] => Ok(Some(ty.copy(alloc)?)),
        [x, rest @ ..] => match as_pi(ty) {
            None => Ok(None),
            Some(front) => {
                let body = instance(alloc, units, front.body, x)?;
                let codomain = codomain_at(alloc, units, rest, &body);
                drop(body);
                codomain
            }
        },
    }
}
