//! The goal rewritten by an equation.
ghost use Rattle.std.specs.Prelude.{◌≡◌, ◌≤◌, ℕ, length, take};
ghost use Rattle.lf_elaboration.specs.Part as parts;
ghost use Rattle.lf_elaboration.specs.Rewrite as spec;
ghost use Rattle.lf_part.specs.Runs.{Runs, Calm, Rose};
ghost use Rattle.lf_part.specs.Says.{proof_item};
ghost use Rattle.lf_part.specs.Values as own;
ghost use Rattle.lf_opening.specs.Rules as rules;

use lf_base::Stop;
use lf_core::Expr;
use lf_forms::{all_assigned, all_levels_assigned};
use lf_items::{Equation, Step, as_equation, equation_term, rewritten};
use lf_msg::{ProofError, ProofItem};
use lf_part::{Diagnostic, Ended, Locals, Mark, Part, State, Synth, error, instantiated, unify};
use lf_rewrite::places_for;
use std::alloc::Global;

/// The item fails under its own name.
pub fn fails_as(at: usize, item: ProofItem) -> Ended
    ensures { result ≡ rules.failed_as at item }
{
    error(at, Diagnostic::Proof(ProofError::Failed(item)))
}

/// Whether one of these terms unifies with `left`, in order; the metavariables are as before where none does.
#[tactic(auto, using(crate::proofs::Places::unify_halts))]
pub fn first_unified<S: Synth, P: Stop>(
    part: Part<'_, S>,
    locals: &mut Locals,
    units: &mut u64,
    state: &mut State,
    stop: &mut P,
    left: &Expr,
    places: &[Expr],
) -> Result<bool, Ended>
    requires { part.floor ≤ length state.old.metas }
    ensures value { Runs (rules.first_unified (own.calls (own.part S.meaning part.entry) part.entry.depth) locals.old left.now places.now units.old
        (own.state state.old)) result units.new (own.state state.new) }
    ensures kept { locals.new ≡ locals.old }
    ensures floor { part.entry.floor ≤ length state.new.metas }
    ensures below { take part.entry.floor state.new.metas ≡ take part.entry.floor state.old.metas }
    ensures count { P.stops stop.old ≤ P.stops stop.new }
    ensures rose { Rose result (P.stops stop.old) (P.stops stop.new) }
{
    'places: for place in places {
        if unify(part, locals, units, state, stop, place, left)? {
            return Ok(true);
        }
    }
    Ok(false)
}

// The first subterm of the goal that unifies with `left` is made that.
#[tactic(auto, using(lf_part::proofs::Runs::halts), unfolding(crate::specs::Rules::placed))]
fn placed<S: Synth, P: Stop>(
    part: Part<'_, S>,
    locals: &mut Locals,
    units: &mut u64,
    state: &mut State,
    stop: &mut P,
    at: usize,
    item: ProofItem,
    left: &Expr,
    goal: &Expr,
) -> Result<(), Ended>
    requires { part.floor ≤ length state.old.metas }
    ensures value { Runs (rules.placed (own.calls (own.part S.meaning part.entry) part.entry.depth) locals.old at (proof_item item) left.now goal.now
        units.old (own.state state.old)) result units.new (own.state state.new) }
    ensures kept { locals.new ≡ locals.old }
    ensures floor { part.entry.floor ≤ length state.new.metas }
    ensures below { take part.entry.floor state.new.metas ≡ take part.entry.floor state.old.metas }
    ensures count { P.stops stop.old ≤ P.stops stop.new }
    ensures rose { Rose result (P.stops stop.old) (P.stops stop.new) }
{
    let places = places_for(part.alloc, left, goal)?;
    let found = first_unified(part, locals, units, state, stop, left, places.as_slice());
    drop(places);
    if found? {
        return Ok(());
    }
    Err(fails_as(at, item))
}

// Each metavariable that was made since the mark is assigned.
#[tactic(auto, using(lf_part::proofs::Runs::halts), unfolding(crate::specs::Rules::none_left))]
fn none_left<S: Synth>(part: Part<'_, S>, state: &State, mark: Mark) -> Result<(), Ended>
    ensures value { (u : ℕ) → Runs (rules.none_left (own.part S.meaning part.entry) mark.terms mark.levels u (own.state state.now)) result u
        (own.state state.now) }
    ensures calm { Calm result }
{
    all_assigned(state, mark.terms)?;
    all_levels_assigned(part, state, mark.levels)
}

fn step_or_fail(at: usize, item: ProofItem, step: Option<Step>) -> Result<Step, Ended>
    ensures value { (u : ℕ) (s : parts.State) → Runs (spec.step_or_fail at (proof_item item) step u s) result u s }
    ensures calm { Calm result }
{
    match step {
        Some(step) => Ok(step),
        None => Err(fails_as(at, item)),
    }
}

fn equation_or_fail(
    at: usize,
    item: ProofItem,
    equation: Option<Equation>,
) -> Result<Equation, Ended>
    ensures value { (u : ℕ) (s : parts.State) → Runs (spec.step_or_fail at (proof_item item) equation u s) result u s }
    ensures calm { Calm result }
{
    match equation {
        Some(equation) => Ok(equation),
        None => Err(fails_as(at, item)),
    }
}

#[tactic(auto, unfolding(crate::specs::Rules::equation_in))]
fn equation_in(alloc: Global, at: usize, item: ProofItem, term: &Expr) -> Result<Equation, Ended>
    ensures value { (u : ℕ) (s : parts.State) → Runs (rules.equation_in at (proof_item item) term.now u s) result u s }
    ensures calm { Calm result }
{
    let equation = as_equation(alloc, term)?;
    equation_or_fail(at, item, equation)
}

// The equation that the term is, with its assigned metavariables put in.
#[tactic(auto, using(lf_part::proofs::Runs::halts), unfolding(crate::specs::Rules::equation_at))]
fn equation_at(
    alloc: Global,
    units: &mut u64,
    state: &State,
    at: usize,
    item: ProofItem,
    term: &Expr,
) -> Result<Equation, Ended>
    ensures value { Runs (rules.equation_at at (proof_item item) term.now units.old (own.state state.now)) result units.new (own.state state.now) }
    ensures calm { Calm result }
{
    let whole = instantiated(units, state, term)?;
    equation_in(alloc, at, item, &whole)
}

// The equation, with its assigned metavariables put in.
#[tactic(auto, unfolding(crate::specs::Rules::fixed))]
fn fixed(
    alloc: Global,
    units: &mut u64,
    state: &State,
    at: usize,
    item: ProofItem,
    equation: &Equation,
) -> Result<Equation, Ended>
    ensures value { Runs (rules.fixed at (proof_item item) equation.now units.old (own.state state.now)) result units.new (own.state state.now) }
    ensures calm { Calm result }
{
    let term = equation_term(alloc, equation)?;
    equation_at(alloc, units, state, at, item, &term)
}

// The step by an equation without metavariables.
#[tactic(auto, using(lf_part::proofs::Runs::halts, lf_part::proofs::Runs::check_halts, lf_part::proofs::Runs::check_ends, lf_part::proofs::Runs::told), unfolding(crate::specs::Rules::rewritten_by))]
fn rewritten_by(
    alloc: Global,
    units: &mut u64,
    state: &State,
    at: usize,
    item: ProofItem,
    goal: &Expr,
    equation: &Equation,
    proof: &Expr,
) -> Result<Step, Ended>
    ensures value { Runs (rules.rewritten_by at (proof_item item) goal.now equation.now proof.now units.old (own.state state.now)) result units.new
        (own.state state.now) }
    ensures calm { Calm result }
{
    let whole = instantiated(units, state, proof)?;
    let step = rewritten(alloc, units, goal, equation, &whole);
    drop(whole);
    step_or_fail(at, item, step?)
}

#[tactic(auto, using(lf_part::proofs::Runs::halts), unfolding(crate::specs::Rules::rewritten_fixed))]
fn rewritten_fixed(
    alloc: Global,
    units: &mut u64,
    state: &State,
    at: usize,
    item: ProofItem,
    goal: &Expr,
    equation: &Equation,
    proof: &Expr,
) -> Result<Step, Ended>
    ensures value { Runs (rules.rewritten_fixed at (proof_item item) goal.now equation.now proof.now units.old (own.state state.now)) result units.new
        (own.state state.now) }
    ensures calm { Calm result }
{
    let fixed = fixed(alloc, units, state, at, item, equation)?;
    rewritten_by(alloc, units, state, at, item, goal, &fixed, proof)
}

#[tactic(auto, using(lf_part::proofs::Runs::halts), unfolding(crate::specs::Rules::rewritten_whole))]
fn rewritten_whole<S: Synth>(
    part: Part<'_, S>,
    units: &mut u64,
    state: &State,
    at: usize,
    item: ProofItem,
    mark: Mark,
    goal: &Expr,
    equation: &Equation,
    proof: &Expr,
) -> Result<Step, Ended>
    ensures value { Runs (rules.rewritten_whole (own.part S.meaning part.entry) at (proof_item item) mark.terms mark.levels goal.now equation.now
        proof.now units.old (own.state state.now)) result units.new (own.state state.now) }
    ensures calm { Calm result }
{
    none_left(part, state, mark)?;
    rewritten_fixed(part.alloc, units, state, at, item, goal, equation, proof)
}

/// The step by an equation, which `proof` proves, for the item at this place, in bytes: its left side is fixed by the first subterm of the
/// goal that unifies with it, and then no metavariable may be left that was made since the mark. The item fails where no subterm does.
#[tactic(auto, using(lf_part::proofs::Runs::halts), unfolding(crate::specs::Rules::rewrite_by))]
pub fn rewrite_by<S: Synth, P: Stop>(
    part: Part<'_, S>,
    locals: &mut Locals,
    units: &mut u64,
    state: &mut State,
    stop: &mut P,
    at: usize,
    item: ProofItem,
    mark: Mark,
    goal: &Expr,
    equation: &Equation,
    proof: &Expr,
) -> Result<Step, Ended>
    requires { part.floor ≤ length state.old.metas }
    ensures value { Runs (rules.rewrite_by (own.part S.meaning part.entry) (own.calls (own.part S.meaning part.entry) part.entry.depth) locals.old at
        (proof_item item) mark.terms mark.levels goal.now equation.now proof.now units.old (own.state state.old)) result units.new (own.state
        state.new) }
    ensures kept { locals.new ≡ locals.old }
    ensures floor { part.entry.floor ≤ length state.new.metas }
    ensures below { take part.entry.floor state.new.metas ≡ take part.entry.floor state.old.metas }
    ensures count { P.stops stop.old ≤ P.stops stop.new }
    ensures rose { Rose result (P.stops stop.old) (P.stops stop.new) }
{
    placed(
        part,
        locals,
        units,
        state,
        stop,
        at,
        item,
        &equation.left,
        goal,
    )?;
    rewritten_whole(part, units, state, at, item, mark, goal, equation, proof)
}
