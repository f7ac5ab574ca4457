//! Metavariables for the pis of a term's type.
ghost use Rattle.std.specs.Prelude.{◌≡◌, ◌≤◌, length, take};
ghost use Rattle.lf_checker.specs.Whnf.{turn_limit};
ghost use Rattle.lf_elaboration.specs.Apply as spec;
ghost use Rattle.lf_elaboration.specs.Forms as forms;
ghost use Rattle.lf_part.specs.Runs.{Runs, Calm, Rose};
ghost use Rattle.lf_part.specs.Values as own;
ghost use Rattle.lf_opening.specs.Openings as openings;

use crate::opened::{Given, Opened, Turn};
use lf_base::Stop;
use lf_core::Expr;
use lf_forms::{Binding, as_pi};
use lf_part::{Ended, Locals, Part, State, Synth, placeholder, whnf};
use lf_steps::{instance, put};

/// One metavariable more, made by the node at this place, in bytes: the term is applied to it, and its type is the codomain at it, which
/// costs its nodes. Out where units or depth don't suffice or the metavariable's number would pass 4,294,967,294.
#[tactic(auto, using(lf_part::proofs::Runs::halts, lf_part::proofs::Runs::check_halts, lf_part::proofs::Runs::check_ends, lf_part::proofs::Runs::told))]
pub fn with_given<S: Synth>(
    part: Part<'_, S>,
    locals: &Locals,
    units: &mut u64,
    state: &mut State,
    at: usize,
    opened: Opened,
    pi: &Binding,
) -> Result<Opened, Ended>
    requires { part.floor ≤ length state.old.metas }
    ensures value { Runs (spec.with_given locals.now at opened pi.now units.old (own.state state.old)) result units.new (own.state state.new) }
    ensures floor { part.entry.floor ≤ length state.new.metas }
    ensures below { take part.entry.floor state.new.metas ≡ take part.entry.floor state.old.metas }
    ensures calm { Calm result }
{
    let Opened {
        term,
        ty,
        mut given,
    } = opened;
    drop(ty);
    let number = state.metas.count();
    let argument = placeholder(part, locals, state, at, &pi.domain)?;
    let copied = argument.copy(part.alloc)?;
    let term = put(units, Expr::app(part.alloc, term, copied)?)?;
    let ty = instance(part.alloc, units, &pi.body, &argument)?;
    given.push(Given {
        number,
        kind: pi.binder.kind,
        ty: pi.domain.copy(part.alloc)?,
    })?;
    Ok(Opened { term, ty, given })
}

// A turn at the weak head form of the type.
#[tactic(auto, using(lf_part::proofs::Runs::halts))]
fn turn_at<S: Synth>(
    part: Part<'_, S>,
    locals: &Locals,
    units: &mut u64,
    state: &mut State,
    at: usize,
    opened: Opened,
    form: &Expr,
) -> Result<Turn, Ended>
    requires { part.floor ≤ length state.old.metas }
    ensures value { Runs (openings.turn_at locals.now at opened (forms.as_pi form.now) units.old (own.state state.old)) result units.new (own.state
        state.new) }
    ensures floor { part.entry.floor ≤ length state.new.metas }
    ensures below { take part.entry.floor state.new.metas ≡ take part.entry.floor state.old.metas }
    ensures calm { Calm result }
{
    match as_pi(part.alloc, form)? {
        None => Ok(Turn::Ends(opened)),
        Some(pi) => {
            let more = with_given(part, locals, units, state, at, opened, &pi)?;
            Ok(Turn::GoesOn(more))
        }
    }
}

// A turn of the opening of the first pis.
#[tactic(auto, using(lf_part::proofs::Runs::halts), unfolding(crate::specs::Openings::first_turn))]
fn first_turn<S: Synth, P: Stop>(
    part: Part<'_, S>,
    locals: &mut Locals,
    units: &mut u64,
    state: &mut State,
    stop: &mut P,
    at: usize,
    opened: Opened,
) -> Result<Turn, Ended>
    requires { part.floor ≤ length state.old.metas }
    ensures value { Runs (openings.first_turn (own.calls (own.part S.meaning part.entry) part.entry.depth) locals.old at opened units.old (own.state
        state.old)) result units.new (own.state state.new) }
    ensures kept { locals.new ≡ locals.old }
    ensures floor { part.entry.floor ≤ length state.new.metas }
    ensures below { take part.entry.floor state.new.metas ≡ take part.entry.floor state.old.metas }
    ensures count { P.stops stop.old ≤ P.stops stop.new }
    ensures rose { Rose result (P.stops stop.old) (P.stops stop.new) }
{
    let form = whnf(part, locals, units, stop, &opened.ty)?;
    turn_at(part, locals, units, state, at, opened, &form)
}

// A turn of the opening of all pis, behind which the type is the weak head form.
#[tactic(auto, using(lf_part::proofs::Runs::halts), unfolding(crate::specs::Openings::form_turn))]
fn form_turn<S: Synth, P: Stop>(
    part: Part<'_, S>,
    locals: &mut Locals,
    units: &mut u64,
    state: &mut State,
    stop: &mut P,
    at: usize,
    opened: Opened,
) -> Result<Turn, Ended>
    requires { part.floor ≤ length state.old.metas }
    ensures value { Runs (openings.form_turn (own.calls (own.part S.meaning part.entry) part.entry.depth) locals.old at opened units.old (own.state
        state.old)) result units.new (own.state state.new) }
    ensures kept { locals.new ≡ locals.old }
    ensures floor { part.entry.floor ≤ length state.new.metas }
    ensures below { take part.entry.floor state.new.metas ≡ take part.entry.floor state.old.metas }
    ensures count { P.stops stop.old ≤ P.stops stop.new }
    ensures rose { Rose result (P.stops stop.old) (P.stops stop.new) }
{
    let Opened { term, ty, given } = opened;
    let form = whnf(part, locals, units, stop, &ty)?;
    drop(ty);
    let ty = form.copy(part.alloc)?;
    let opened = Opened { term, ty, given };
    turn_at(part, locals, units, state, at, opened, &form)
}

/// Metavariables for the first `count` pis of the type, along weak head forms, or for all where there are fewer.
#[tactic(auto, using(crate::proofs::Turns::first_none, crate::proofs::Turns::first_ends, crate::proofs::Turns::first_goes_on, crate::proofs::Turns::first_halts))]
pub fn open_first<S: Synth, P: Stop>(
    part: Part<'_, S>,
    locals: &mut Locals,
    units: &mut u64,
    state: &mut State,
    stop: &mut P,
    at: usize,
    count: u64,
    start: Opened,
) -> Result<Opened, Ended>
    requires { part.floor ≤ length state.old.metas }
    ensures value { Runs (openings.open_first (own.calls (own.part S.meaning part.entry) part.entry.depth) locals.old at count start units.old
        (own.state state.old)) result units.new (own.state state.new) }
    ensures kept { locals.new ≡ locals.old }
    ensures floor { part.entry.floor ≤ length state.new.metas }
    ensures below { take part.entry.floor state.new.metas ≡ take part.entry.floor state.old.metas }
    ensures count { P.stops stop.old ≤ P.stops stop.new }
    ensures rose { Rose result (P.stops stop.old) (P.stops stop.new) }
{
    let mut opened = start;
    let mut left = count;
    'turns: while left > 0 {
        match first_turn(part, locals, units, state, stop, at, opened)? {
            Turn::Ends(end) => return Ok(end),
            Turn::GoesOn(next) => opened = next,
        }
        left -= 1;
    }
    Ok(opened)
}

/// Metavariables for all pis of the type, along weak head forms; what is left of it is a weak head form.
#[tactic(auto, using(crate::proofs::Turns::all_none, crate::proofs::Turns::all_ends, crate::proofs::Turns::all_goes_on, crate::proofs::Turns::all_halts), unfolding(lf_checker::specs::Whnf::turn_limit))]
pub fn open_all<S: Synth, P: Stop>(
    part: Part<'_, S>,
    locals: &mut Locals,
    units: &mut u64,
    state: &mut State,
    stop: &mut P,
    at: usize,
    start: Opened,
) -> Result<Opened, Ended>
    requires { part.floor ≤ length state.old.metas }
    ensures value { Runs (openings.open_within (own.calls (own.part S.meaning part.entry) part.entry.depth) locals.old at turn_limit start units.old
        (own.state state.old)) result units.new (own.state state.new) }
    ensures kept { locals.new ≡ locals.old }
    ensures floor { part.entry.floor ≤ length state.new.metas }
    ensures below { take part.entry.floor state.new.metas ≡ take part.entry.floor state.old.metas }
    ensures count { P.stops stop.old ≤ P.stops stop.new }
    ensures rose { Rose result (P.stops stop.old) (P.stops stop.new) }
{
    let mut opened = start;
    let mut left = u64::MAX;
    'turns: while left > 0 {
        match form_turn(part, locals, units, state, stop, at, opened)? {
            Turn::Ends(end) => return Ok(end),
            Turn::GoesOn(next) => opened = next,
        }
        left -= 1;
    }
    drop(opened);
    Err(Ended::Out)
}
