//! `apply` behind its elaborated term.
ghost use Rattle.std.specs.Prelude.{◌≡◌, ◌≤◌, ℕ, length, take};
ghost use Rattle.lf_part.specs.Runs.{Runs, RunsAs, Calm, Rose};
ghost use Rattle.lf_part.specs.Values as own;
ghost use Rattle.lf_opening.specs.Goals as goals;

use crate::opened::{Given, Opened};
use crate::opening::open_first;
use crate::pis::pis_of;
use lf_base::Stop;
use lf_core::Expr;
use lf_forms::{agreed, all_levels_assigned};
use lf_msg::ElaborationError;
use lf_name::BinderKind;
use lf_part::{Diagnostic, Ended, Locals, Part, State, Synth, error, instantiated};
use std::alloc::Global;

// Puts those that are goals behind `ready`.
fn goals_behind(
    alloc: Global,
    state: &State,
    at: usize,
    ready: Vec<Given>,
    given: &[Given],
) -> Result<Vec<Given>, Ended>
    ensures value { (u : ℕ) → RunsAs (λ v. v.items) (goals.goals_behind at ready.items given.now u (own.state state.now)) result u (own.state
        state.now) }
    ensures calm { Calm result }
{
    match given {
        [] => Ok(ready),
        [first, rest @ ..] => {
            if state.metas.value(first.number).is_some() {
                return goals_behind(alloc, state, at, ready, rest);
            }
            match first.kind {
                BinderKind::Explicit => {
                    let mut more = ready;
                    more.push(first.copy(alloc)?)?;
                    goals_behind(alloc, state, at, more, rest)
                }
                BinderKind::Implicit | BinderKind::Inst => {
                    let says = Diagnostic::Elaboration(ElaborationError::UndeterminedPlaceholder);
                    Err(error(at, says))
                }
            }
        }
    }
}

/// Those that are goals, in order: the explicit ones that aren't assigned. An implicit one that isn't assigned is an error of this place.
#[tactic(auto, using(crate::proofs::Listed::goals_nothing), unfolding(crate::specs::Goals::goals_of))]
pub fn goals_of(
    alloc: Global,
    state: &State,
    at: usize,
    given: &[Given],
) -> Result<Vec<Given>, Ended>
    ensures value { (u : ℕ) → RunsAs (λ v. v.items) (goals.goals_of at given.now u (own.state state.now)) result u (own.state state.now) }
    ensures calm { Calm result }
{
    let goals = goals_behind(alloc, state, at, Vec::new(alloc), given)?;
    Ok(goals)
}

// The term for as many pis as its type has more than the goal.
#[tactic(auto, using(lf_part::proofs::Runs::halts), unfolding(crate::specs::Goals::opened_at, crate::specs::Openings::opened_front))]
fn opened_at<S: Synth, P: Stop>(
    part: Part<'_, S>,
    locals: &mut Locals,
    units: &mut u64,
    state: &mut State,
    stop: &mut P,
    at: usize,
    goal: &Expr,
    term: Expr,
    ty: Expr,
) -> Result<Opened, Ended>
    requires { part.floor ≤ length state.old.metas }
    ensures value { Runs (goals.opened_at (own.calls (own.part S.meaning part.entry) part.entry.depth) locals.old at goal.now term ty units.old
        (own.state state.old)) result units.new (own.state state.new) }
    ensures kept { locals.new ≡ locals.old }
    ensures floor { part.entry.floor ≤ length state.new.metas }
    ensures below { take part.entry.floor state.new.metas ≡ take part.entry.floor state.old.metas }
    ensures count { P.stops stop.old ≤ P.stops stop.new }
    ensures rose { Rose result (P.stops stop.old) (P.stops stop.new) }
{
    let own = pis_of(part, locals, units, stop, &ty)?;
    let others = pis_of(part, locals, units, stop, goal)?;
    let more = own.saturating_sub(others);
    let given = Vec::new(part.alloc);
    let start = Opened { term, ty, given };
    open_first(part, locals, units, state, stop, at, more, start)
}

// The same, once the type has its assigned metavariables put in.
#[tactic(auto, using(lf_part::proofs::Runs::halts), unfolding(crate::specs::Goals::opened_against))]
fn opened_against<S: Synth, P: Stop>(
    part: Part<'_, S>,
    locals: &mut Locals,
    units: &mut u64,
    state: &mut State,
    stop: &mut P,
    at: usize,
    goal: &Expr,
    term: Expr,
    ty: &Expr,
) -> Result<Opened, Ended>
    requires { part.floor ≤ length state.old.metas }
    ensures value { Runs (goals.opened_against (own.calls (own.part S.meaning part.entry) part.entry.depth) locals.old at goal.now term ty.now
        units.old (own.state state.old)) result units.new (own.state state.new) }
    ensures kept { locals.new ≡ locals.old }
    ensures floor { part.entry.floor ≤ length state.new.metas }
    ensures below { take part.entry.floor state.new.metas ≡ take part.entry.floor state.old.metas }
    ensures count { P.stops stop.old ≤ P.stops stop.new }
    ensures rose { Rose result (P.stops stop.old) (P.stops stop.new) }
{
    let whole = instantiated(units, state, ty)?;
    opened_at(part, locals, units, state, stop, at, goal, term, whole)
}

// What is left of its type is the goal.
#[tactic(auto, using(lf_part::proofs::Runs::halts), unfolding(crate::specs::Goals::fitting))]
fn fitting<S: Synth, P: Stop>(
    part: Part<'_, S>,
    locals: &mut Locals,
    units: &mut u64,
    state: &mut State,
    stop: &mut P,
    at: usize,
    goal: &Expr,
    term: Expr,
    ty: &Expr,
) -> Result<Opened, Ended>
    requires { part.floor ≤ length state.old.metas }
    ensures value { Runs (goals.fitting (own.part S.meaning part.entry) (own.calls (own.part S.meaning part.entry) part.entry.depth) locals.old at
        goal.now term ty.now units.old (own.state state.old)) result units.new (own.state state.new) }
    ensures kept { locals.new ≡ locals.old }
    ensures floor { part.entry.floor ≤ length state.new.metas }
    ensures below { take part.entry.floor state.new.metas ≡ take part.entry.floor state.old.metas }
    ensures count { P.stops stop.old ≤ P.stops stop.new }
    ensures rose { Rose result (P.stops stop.old) (P.stops stop.new) }
{
    let opened = opened_against(part, locals, units, state, stop, at, goal, term, ty)?;
    agreed(part, locals, units, state, stop, at, &opened.ty, Some(goal))?;
    Ok(opened)
}

// Those that are goals, where each metavariable of levels from number `levels` on is assigned.
#[tactic(auto, using(lf_part::proofs::Runs::halts), unfolding(crate::specs::Goals::goals_left))]
fn goals_left<S: Synth>(
    part: Part<'_, S>,
    state: &State,
    at: usize,
    levels: u32,
    given: &[Given],
) -> Result<Vec<Given>, Ended>
    ensures value { (u : ℕ) → RunsAs (λ v. v.items) (goals.goals_left (own.part S.meaning part.entry) at levels given.now u (own.state state.now))
        result u (own.state state.now) }
    ensures calm { Calm result }
{
    let goals = goals_of(part.alloc, state, at, given)?;
    all_levels_assigned(part, state, levels)?;
    Ok(goals)
}

/// The elaborated term of an `apply` at this place, in bytes, for as many pis as its type has more than the goal: with the metavariables that
/// are left as goals, in order. What is left of the type has to be the goal; each implicit metavariable and each of levels from number
/// `levels` on has to be assigned. The term doesn't have its assigned metavariables put in.
#[tactic(auto, using(lf_part::proofs::Runs::halts), unfolding(crate::specs::Goals::applied))]
pub fn applied<S: Synth, P: Stop>(
    part: Part<'_, S>,
    locals: &mut Locals,
    units: &mut u64,
    state: &mut State,
    stop: &mut P,
    at: usize,
    levels: u32,
    goal: &Expr,
    term: Expr,
    ty: &Expr,
) -> Result<Opened, Ended>
    requires { part.floor ≤ length state.old.metas }
    ensures value { Runs (goals.applied (own.part S.meaning part.entry) (own.calls (own.part S.meaning part.entry) part.entry.depth) locals.old at
        levels goal.now term ty.now units.old (own.state state.old)) result units.new (own.state state.new) }
    ensures kept { locals.new ≡ locals.old }
    ensures floor { part.entry.floor ≤ length state.new.metas }
    ensures below { take part.entry.floor state.new.metas ≡ take part.entry.floor state.old.metas }
    ensures count { P.stops stop.old ≤ P.stops stop.new }
    ensures rose { Rose result (P.stops stop.old) (P.stops stop.new) }
{
    let Opened { term, ty, given } = fitting(part, locals, units, state, stop, at, goal, term, ty)?;
    let given = goals_left(part, state, at, levels, given.as_slice())?;
    Ok(Opened { term, ty, given })
}
