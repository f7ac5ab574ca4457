//! The steps that only look at the goal.
ghost use Rattle.std.specs.Prelude.{◌≡◌, ◌≤◌, IfOk, option_map};
ghost use Rattle.lf_elaboration.specs.Forms as forms;
ghost use Rattle.lf_checker.specs.Checker.{calls};
ghost use Rattle.lf_elaboration.specs.Step as spec;
ghost use Rattle.lf_items.specs.Values as values;
ghost use Rattle.lf_steps.specs.Runs.{Runs, RunsAs, Rose};

use crate::form::as_pi;
use lf_base::Stop;
use lf_check::{Cx, equal_within, whnf_within};
use lf_core::{Binder, Expr, NoMemory};
use lf_steps::Halt;
use std::alloc::Global;

/// A pi, taken apart and kept: its binder, the type of its variable, and its codomain, in which the variable is loose.
#[derive(Debug, Drop)]
pub struct Binding {
    pub binder: Binder,
    pub domain: Expr,
    pub body: Expr,
}

// The pi that the term is, with its parts shared.
fn binding_of(alloc: Global, term: &Expr) -> Result<Option<Binding>, NoMemory>
    ensures { IfOk result (λ p. option_map values.binding p ≡ forms.as_pi term.now) }
{
    match as_pi(term) {
        None => Ok(None),
        Some(front) => Ok(Some(Binding {
            binder: front.binder.copy(alloc)?,
            domain: front.domain.copy(alloc)?,
            body: front.body.copy(alloc)?,
        })),
    }
}

/// The pi that the goal's weak head form is, or None. Refused, Out, Need and Stopped are those of the weak head form.
#[tactic(auto, using(lf_steps::proofs::Runs::halts))]
pub fn intro<P: Stop>(
    cx: Cx<'_>,
    locals: &mut Vec<Expr>,
    units: &mut u64,
    stop: &mut P,
    goal: &Expr,
) -> Result<Option<Binding>, Halt>
    ensures value { RunsAs (option_map values.binding) (spec.intro (calls cx.entry.view.now cx.entry.depth) locals.old.items goal.now units.old) result
        units.new }
    ensures kept { locals.new.items ≡ locals.old.items }
    ensures count { P.stops stop.old ≤ P.stops stop.new }
    ensures rose { Rose result (P.stops stop.old) (P.stops stop.new) }
{
    let form = whnf_within(cx, locals, units, stop, true, goal)?;
    let pi = binding_of(cx.alloc, &form);
    drop(form);
    Ok(pi?)
}

/// The number of the latest local whose type is equal to the goal, or None. Refused, Out, Need and Stopped are those of the
/// first comparison that ends so, from the latest local on.
#[tactic(auto, using(lf_steps::proofs::Runs::halts, crate::proofs::Latest::none_left, crate::proofs::Latest::one_more, crate::proofs::Latest::all_left))]
pub fn assumption<P: Stop>(
    cx: Cx<'_>,
    locals: &mut Vec<Expr>,
    units: &mut u64,
    stop: &mut P,
    goal: &Expr,
) -> Result<Option<u32>, Halt>
    ensures value { Runs (spec.assumption (calls cx.entry.view.now cx.entry.depth) locals.old.items goal.now units.old) result units.new }
    ensures kept { locals.new.items ≡ locals.old.items }
    ensures count { P.stops stop.old ≤ P.stops stop.new }
    ensures rose { Rose result (P.stops stop.old) (P.stops stop.new) }
{
    let mut left = u32::try_from(locals.len()).map_err(|_| NoMemory)?;
    'locals: while left > 0 {
        left -= 1;
        let ty = locals[left as usize].copy(cx.alloc)?;
        let fits = equal_within(cx, locals, units, stop, &ty, goal);
        drop(ty);
        if fits? {
            return Ok(Some(left));
        }
    }
    Ok(None)
}
