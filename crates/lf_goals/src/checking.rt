//! Steps that the checker makes, as runs of a part.
ghost use Rattle.std.specs.Prelude.{◌≡◌, ◌≤◌, option_map};
ghost use Rattle.lf_elaboration.specs.Part as parts;
ghost use Rattle.lf_items.specs.Values as items;
ghost use Rattle.lf_part.specs.Runs.{Runs, Calm, Rose};
ghost use Rattle.lf_part.specs.Values as own;
ghost use Rattle.lf_goals.specs.Between as between;

use lf_base::Stop;
use lf_cases::induct;
use lf_core::{Expr, Level};
use lf_forms::Binding;
use lf_items::{Step, assumption, inject, intro, proof_by};
use lf_part::{Ended, Locals, Part, Synth};
use std::alloc::Global;

/// The number of the latest local whose type is equal to the goal. It changes no state.
#[tactic(auto, using(lf_part::proofs::Runs::check_ends, lf_part::proofs::Runs::told, lf_part::proofs::Calls::check_is), unfolding(crate::specs::Between::own_local))]
pub fn own_local<S: Synth, P: Stop>(
    part: Part<'_, S>,
    locals: &mut Locals,
    units: &mut u64,
    stop: &mut P,
    goal: &Expr,
) -> Result<Option<u32>, Ended>
    ensures value { (s : parts.State) → Runs (between.own_local (own.calls (own.part S.meaning part.entry) part.entry.depth) locals.old goal.now units.old s)
        result units.new s }
    ensures kept { locals.new ≡ locals.old }
    ensures count { P.stops stop.old ≤ P.stops stop.new }
    ensures rose { Rose result (P.stops stop.old) (P.stops stop.new) }
{
    Ok(assumption(part.check(), &mut locals.types, units, stop, goal)?)
}

// The same parts, of a pi that contracts see as one value.
fn binding(pi: Option<lf_items::Binding>) -> Option<Binding>
    ensures { result ≡ option_map items.binding pi }
{
    match pi {
        None => None,
        Some(pi) => Some(Binding {
            binder: pi.binder,
            domain: pi.domain,
            body: pi.body,
        }),
    }
}

/// The pi that the goal's weak head form is. It changes no state.
#[tactic(auto, using(lf_part::proofs::Runs::check_ends, lf_part::proofs::Runs::told, lf_part::proofs::Calls::check_is), unfolding(crate::specs::Between::goal_pi))]
pub fn goal_pi<S: Synth, P: Stop>(
    part: Part<'_, S>,
    locals: &mut Locals,
    units: &mut u64,
    stop: &mut P,
    goal: &Expr,
) -> Result<Option<Binding>, Ended>
    ensures value { (s : parts.State) → Runs (between.goal_pi (own.calls (own.part S.meaning part.entry) part.entry.depth) locals.old goal.now units.old s)
        result units.new s }
    ensures kept { locals.new ≡ locals.old }
    ensures count { P.stops stop.old ≤ P.stops stop.new }
    ensures rose { Rose result (P.stops stop.old) (P.stops stop.new) }
{
    let pi = intro(part.check(), &mut locals.types, units, stop, goal)?;
    Ok(binding(pi))
}

/// The step of induction on a local of this type, or of cases where `hyps` is false. It changes no state.
#[tactic(auto, using(lf_part::proofs::Runs::check_ends, lf_part::proofs::Runs::told, lf_part::proofs::Calls::check_is), unfolding(crate::specs::Between::induction))]
pub fn induction<S: Synth, P: Stop>(
    part: Part<'_, S>,
    locals: &mut Locals,
    units: &mut u64,
    stop: &mut P,
    goal: &Expr,
    sort: &Level,
    local: u32,
    ty: &Expr,
    hyps: bool,
) -> Result<Option<Step>, Ended>
    ensures value { (s : parts.State) → Runs (between.induction (own.part S.meaning part.entry) (own.calls (own.part S.meaning part.entry) part.entry.depth)
        locals.old goal.now sort.now local ty.now hyps units.old s) result units.new s }
    ensures kept { locals.new ≡ locals.old }
    ensures count { P.stops stop.old ≤ P.stops stop.new }
    ensures rose { Rose result (P.stops stop.old) (P.stops stop.new) }
{
    let types = &mut locals.types;
    Ok(induct(
        part.check(),
        types,
        units,
        stop,
        goal,
        sort,
        local,
        ty,
        hyps,
    )?)
}

/// The step of injection on a local of this type. It changes no state.
#[tactic(auto, using(lf_part::proofs::Runs::check_ends, lf_part::proofs::Runs::told, lf_part::proofs::Calls::check_is), unfolding(crate::specs::Between::injected))]
pub fn injected<S: Synth, P: Stop>(
    part: Part<'_, S>,
    locals: &mut Locals,
    units: &mut u64,
    stop: &mut P,
    goal: &Expr,
    local: u32,
    ty: &Expr,
) -> Result<Option<Step>, Ended>
    ensures value { (s : parts.State) → Runs (between.injected (own.part S.meaning part.entry) (own.calls (own.part S.meaning part.entry) part.entry.depth)
        locals.old goal.now local ty.now units.old s) result units.new s }
    ensures kept { locals.new ≡ locals.old }
    ensures count { P.stops stop.old ≤ P.stops stop.new }
    ensures rose { Rose result (P.stops stop.old) (P.stops stop.new) }
{
    Ok(inject(
        part.check(),
        &mut locals.types,
        units,
        stop,
        goal,
        local,
        ty,
    )?)
}

/// The proof that the step makes of the proofs of its goals, in order. It changes no state.
#[tactic(auto, using(lf_part::proofs::Runs::check_ends, lf_part::proofs::Runs::told), unfolding(crate::specs::Between::step_proof))]
pub fn step_proof(
    alloc: Global,
    units: &mut u64,
    step: &Step,
    proofs: &[Expr],
) -> Result<Expr, Ended>
    ensures value { (s : parts.State) → Runs (between.step_proof step.now proofs.now units.old s) result units.new s }
    ensures calm { Calm result }
{
    Ok(proof_by(alloc, units, step, proofs)?)
}
