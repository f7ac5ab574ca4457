//! Items that are a step by themselves: `induction`, `cases`, `injection`.
ghost use Rattle.std.specs.Prelude.{◌≡◌, ◌≤◌, ℕ, IfOk};
ghost use Rattle.lf_elaboration.specs.Part as parts;
ghost use Rattle.lf_elaboration.specs.Proof as spec;
ghost use Rattle.lf_elaboration.specs.Scope.{local_named};
ghost use Rattle.lf_elaboration.specs.Unifier.{type_in};
ghost use Rattle.lf_part.specs.Runs.{Runs, Calm, Rose};
ghost use Rattle.lf_part.specs.Says as says;
ghost use Rattle.lf_part.specs.Values as own;
ghost use Rattle.lf_goals.specs.Between as between;

use crate::checking::{induction, injected};
use crate::failing::{fails_as, step_or_fail};
use lf_base::Stop;
use lf_core::{Expr, Name, NoMemory};
use lf_items::Step;
use lf_msg::ProofItem;
use lf_part::{Ended, Locals, Part, State, Synth, instantiated, local_named, sort_of, type_at};
use std::alloc::Global;

/// A realized constant that the step's proof speaks of is asked for.
pub fn asked_by(alloc: Global, state: &mut State, step: &Step) -> Result<(), Ended>
    ensures value { (u : ℕ) → Runs (spec.asked_by step.now.asked u (own.state state.old)) result u (own.state state.new) }
    ensures calm { Calm result }
    ensures metas { state.new.metas ≡ state.old.metas }
{
    match &step.asked {
        None => Ok(()),
        Some(name) => state.ask(alloc, name),
    }
}

fn type_in_locals(alloc: Global, locals: &Locals, local: u32) -> Result<Expr, NoMemory>
    ensures { IfOk result (λ t. t ≡ type_in locals.now.types local) }
{
    type_at(alloc, locals.types.as_slice(), local)
}

// The type of a local, with its assigned metavariables put in.
#[tactic(auto, unfolding(crate::specs::Between::local_type))]
fn local_type(
    alloc: Global,
    units: &mut u64,
    state: &State,
    locals: &Locals,
    local: u32,
) -> Result<Expr, Ended>
    ensures value { Runs (between.local_type locals.now local units.old (own.state state.now)) result units.new (own.state state.now) }
    ensures calm { Calm result }
{
    let ty = type_in_locals(alloc, locals, local)?;
    let whole = instantiated(units, state, &ty);
    drop(ty);
    whole
}

// The step of induction, or of cases, on a local.
#[tactic(auto, using(lf_part::proofs::Runs::halts))]
fn induct_on<S: Synth, P: Stop>(
    part: Part<'_, S>,
    locals: &mut Locals,
    units: &mut u64,
    state: &State,
    stop: &mut P,
    at: usize,
    item: ProofItem,
    hyps: bool,
    goal: &Expr,
    local: u32,
) -> Result<Step, Ended>
    ensures value { Runs (between.induct_on (own.part S.meaning part.entry) (own.calls (own.part S.meaning part.entry) part.entry.depth) locals.old at
        (says.proof_item item) hyps goal.now local units.old (own.state state.now)) result units.new (own.state state.now) }
    ensures kept { locals.new ≡ locals.old }
    ensures count { P.stops stop.old ≤ P.stops stop.new }
    ensures rose { Rose result (P.stops stop.old) (P.stops stop.new) }
{
    let sort = sort_of(part, locals, units, state, stop, at, goal)?;
    let ty = local_type(part.alloc, units, state, locals, local)?;
    let step = induction(part, locals, units, stop, goal, &sort, local, &ty, hyps)?;
    drop(sort);
    drop(ty);
    step_or_fail(at, item, step)
}

/// The step of induction on the innermost local of this name, or of cases where `hyps` is false; the item at this place fails where there is
/// no such local, or no such step on it. A refusal is the error of the item.
#[tactic(auto, unfolding(crate::specs::Between::eliminate_step))]
pub fn eliminate_step<S: Synth, P: Stop>(
    part: Part<'_, S>,
    locals: &mut Locals,
    units: &mut u64,
    state: &State,
    stop: &mut P,
    at: usize,
    item: ProofItem,
    hyps: bool,
    goal: &Expr,
    name: &Name,
) -> Result<Step, Ended>
    ensures value { Runs (between.eliminate_step (own.part S.meaning part.entry) (own.calls (own.part S.meaning part.entry) part.entry.depth) locals.old at
        (says.proof_item item) hyps goal.now (local_named locals.old.names name.now) units.old (own.state state.now)) result units.new
        (own.state state.now) }
    ensures kept { locals.new ≡ locals.old }
    ensures count { P.stops stop.old ≤ P.stops stop.new }
    ensures rose { Rose result (P.stops stop.old) (P.stops stop.new) }
{
    match local_named(locals.names.as_slice(), name)? {
        None => fails_as(at, item),
        Some(local) => induct_on(
            part, locals, units, state, stop, at, item, hyps, goal, local,
        ),
    }
}

// The step of injection on a local.
#[tactic(auto, using(lf_part::proofs::Runs::halts))]
fn inject_on<S: Synth, P: Stop>(
    part: Part<'_, S>,
    locals: &mut Locals,
    units: &mut u64,
    state: &State,
    stop: &mut P,
    at: usize,
    item: ProofItem,
    goal: &Expr,
    local: u32,
) -> Result<Step, Ended>
    ensures value { Runs (between.inject_on (own.part S.meaning part.entry) (own.calls (own.part S.meaning part.entry) part.entry.depth) locals.old at
        (says.proof_item item) goal.now local units.old (own.state state.now)) result units.new (own.state state.now) }
    ensures kept { locals.new ≡ locals.old }
    ensures count { P.stops stop.old ≤ P.stops stop.new }
    ensures rose { Rose result (P.stops stop.old) (P.stops stop.new) }
{
    let ty = local_type(part.alloc, units, state, locals, local)?;
    let step = injected(part, locals, units, stop, goal, local, &ty)?;
    drop(ty);
    step_or_fail(at, item, step)
}

/// The step of injection on the innermost local of this name; the item at this place fails where there is no such local, or no such step on it.
#[tactic(auto, unfolding(crate::specs::Between::injection_step))]
pub fn injection_step<S: Synth, P: Stop>(
    part: Part<'_, S>,
    locals: &mut Locals,
    units: &mut u64,
    state: &State,
    stop: &mut P,
    at: usize,
    goal: &Expr,
    name: &Name,
) -> Result<Step, Ended>
    ensures value { Runs (between.injection_step (own.part S.meaning part.entry) (own.calls (own.part S.meaning part.entry) part.entry.depth) locals.old at
        goal.now (local_named locals.old.names name.now) units.old (own.state state.now)) result units.new (own.state state.now) }
    ensures kept { locals.new ≡ locals.old }
    ensures count { P.stops stop.old ≤ P.stops stop.new }
    ensures rose { Rose result (P.stops stop.old) (P.stops stop.new) }
{
    match local_named(locals.names.as_slice(), name)? {
        None => fails_as(at, ProofItem::Injection),
        Some(local) => {
            let item = ProofItem::Injection;
            inject_on(part, locals, units, state, stop, at, item, goal, local)
        }
    }
}
