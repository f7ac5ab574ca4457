//! Metavariables: made, assigned, and unified.
ghost use Rattle.std.specs.Prelude.{◌≡◌, ◌≤◌, ℕ, length, take};
ghost use Rattle.lf_elaboration.specs.Part as spec;
ghost use Rattle.lf_elaboration.specs.Run as run;
ghost use Rattle.lf_part.specs.Runs.{Runs, Calm, Rose};
ghost use Rattle.lf_part.specs.Values as own;

use crate::ended::Ended;
use crate::locals::Locals;
use crate::part::Part;
use crate::state::State;
use crate::synth::Synth;
use crate::typed::Sorted;
use lf_base::Stop;
use lf_core::{Expr, Level};
use lf_meta::MetaFault;
use lf_unify::unify_within;

/// The greatest number of a metavariable.
const GREATEST: u32 = 4294967294;

/// Whether two terms can be made equal. The metavariables are as before after each answer but true.
#[tactic(auto, using(crate::proofs::Runs::metas_end, crate::proofs::Runs::told, crate::proofs::Calls::unify_is))]
pub fn unify<S: Synth, P: Stop>(
    part: Part<'_, S>,
    locals: &mut Locals,
    units: &mut u64,
    state: &mut State,
    stop: &mut P,
    a: &Expr,
    b: &Expr,
) -> Result<bool, Ended>
    requires { part.floor ≤ length state.old.metas }
    ensures value { Runs (spec.unify (own.calls (own.part S.meaning part.entry) part.entry.depth) locals.old a.now b.now units.old (own.state state.old))
        result units.new (own.state state.new) }
    ensures kept { locals.new ≡ locals.old }
    ensures count { P.stops stop.old ≤ P.stops stop.new }
    ensures floor { part.entry.floor ≤ length state.new.metas }
    ensures below { take part.entry.floor state.new.metas ≡ take part.entry.floor state.old.metas }
    ensures rose { Rose result (P.stops stop.old) (P.stops stop.new) }
{
    Ok(unify_within(
        part.unifier(),
        &mut locals.types,
        units,
        &mut state.metas,
        stop,
        a,
        b,
    )?)
}

/// A metavariable of this type for these locals, made by the node at this place, in bytes. It costs nothing. Out where its number would
/// pass 4,294,967,294.
#[tactic(auto, using(lf_unify::proofs::Floor::take_push))]
pub fn placeholder<S: Synth>(
    part: Part<'_, S>,
    locals: &Locals,
    state: &mut State,
    at: usize,
    ty: &Expr,
) -> Result<Expr, Ended>
    requires { part.floor ≤ length state.old.metas }
    ensures value { (u : ℕ) → Runs (spec.placeholder locals.now at ty.now u (own.state state.old)) result u (own.state state.new) }
    ensures calm { Calm result }
    ensures floor { part.entry.floor ≤ length state.new.metas }
    ensures below { take part.entry.floor state.new.metas ≡ take part.entry.floor state.old.metas }
{
    if state.metas.count() > GREATEST {
        return Err(Ended::Out);
    }
    let Ok(length) = u32::try_from(locals.types.len()) else {
        return Err(Ended::NoMemory);
    };
    let ty = ty.copy(part.alloc)?;
    let number = state.metas.fresh(ty, length, at)?;
    Ok(Expr::meta(part.alloc, number)?)
}

/// A metavariable of levels. It costs nothing. Out where its number would pass 4,294,967,294.
#[tactic(auto, using(lf_unify::proofs::Floor::take_push))]
pub fn fresh_level<S: Synth>(part: Part<'_, S>, state: &mut State) -> Result<Level, Ended>
    requires { part.floor ≤ length state.old.metas }
    ensures value { (u : ℕ) → Runs (spec.fresh_level u (own.state state.old)) result u (own.state state.new) }
    ensures calm { Calm result }
    ensures floor { part.entry.floor ≤ length state.new.metas }
    ensures below { take part.entry.floor state.new.metas ≡ take part.entry.floor state.old.metas }
{
    if state.metas.level_count() > GREATEST {
        return Err(Ended::Out);
    }
    let number = state.metas.fresh_level()?;
    Ok(Level::meta(part.alloc, number)?)
}

/// A type that isn't known yet, in a sort that isn't either.
#[tactic(auto, using(crate::proofs::Runs::halts))]
pub fn fresh_type<S: Synth>(
    part: Part<'_, S>,
    locals: &Locals,
    state: &mut State,
    at: usize,
) -> Result<Sorted, Ended>
    requires { part.floor ≤ length state.old.metas }
    ensures value { (u : ℕ) → Runs (spec.fresh_type locals.now at u (own.state state.old)) result u (own.state state.new) }
    ensures calm { Calm result }
    ensures floor { part.entry.floor ≤ length state.new.metas }
    ensures below { take part.entry.floor state.new.metas ≡ take part.entry.floor state.old.metas }
{
    let level = fresh_level(part, state)?;
    let sort = Expr::sort(part.alloc, level.copy(part.alloc)?)?;
    let term = placeholder(part, locals, state, at, &sort)?;
    drop(sort);
    Ok(Sorted { term, level })
}

/// Whether the metavariable of this number is assigned the term; else the metavariables are as before.
#[tactic(auto, using(lf_unify::proofs::Floor::take_push))]
pub fn assign<S: Synth>(
    part: Part<'_, S>,
    state: &mut State,
    metavariable: u32,
    term: &Expr,
) -> Result<bool, Ended>
    requires { part.floor ≤ length state.old.metas }
    ensures value { (u : ℕ) → Runs (spec.on_changes (run.assign metavariable term.now) u (own.state state.old)) result u (own.state state.new) }
    ensures calm { Calm result }
    ensures floor { part.entry.floor ≤ length state.new.metas }
    ensures below { take part.entry.floor state.new.metas ≡ take part.entry.floor state.old.metas }
{
    if state.metas.value(metavariable).is_some() {
        return Ok(false);
    }
    let term = term.copy(part.alloc)?;
    match state.metas.assign(metavariable, term) {
        Ok(()) => Ok(true),
        Err(MetaFault::Occurs | MetaFault::Scope(_)) => Ok(false),
        Err(MetaFault::NoMemory) => Err(Ended::NoMemory),
    }
}
