//! The walk along the pis of a function's type.
ghost use Rattle.std.specs.Prelude.{◌≡◌, ◌≤◌, ◌<◌, ◌∷◌, length, take};
ghost use Rattle.lf_checker.specs.Whnf.{turn_limit};
ghost use Rattle.lf_elaboration.specs.Application as spec;
ghost use Rattle.lf_elaboration.specs.Forms as forms;
ghost use Rattle.lf_part.specs.Runs.{Runs, Calm, Rose};
ghost use Rattle.lf_part.specs.Values as own;
ghost use Rattle.lf_forms.specs.Terms as given;
ghost use Rattle.lf_terms.specs.Values as values;
ghost use Rattle.lf_terms.specs.Walk as walk;

use lf_base::Stop;
use lf_core::Expr;
use lf_forms::{Binding, Giving, Placed, Walked, as_pi, giving_for, hole, passing};
use lf_part::{Ended, Locals, Part, State, Synth, instantiated, placeholder, whnf};
use lf_syntax::Term;

/// Whether implicit arguments behind the last written one are given.
#[derive(Clone, Copy, Debug)]
pub enum Trailing {
    Given,
    LeftOpen,
}

/// What a turn of the walk comes to: its end, or one argument more.
#[derive(Debug, Drop)]
pub enum Turn {
    Ends(Walked),
    GoesOn(Walked),
}

// Behind the last argument nothing is given with `@`, or where trailing pis are left open.
fn stops(at_sign: bool, trailing: Trailing, walked: &Walked) -> bool
    ensures { result ≡ spec.stops at_sign (values.trailing trailing) walked.now }
{
    if !walked.unplaced.is_empty() {
        return false;
    }
    match trailing {
        Trailing::Given => at_sign,
        Trailing::LeftOpen => true,
    }
}

// The first term is taken away.
#[tactic(auto, using(crate::proofs::Firsts::taken))]
fn take_first(terms: &mut Vec<Term>) -> Term
    requires { 0 < length terms.old.items }
    ensures { result ∷ terms.new.items ≡ terms.old.items }
{
    terms.remove(0)
}

// A placeholder for this argument, behind which the others have no place yet.
#[tactic(auto, using(lf_part::proofs::Runs::halts))]
fn place_written<S: Synth>(
    part: Part<'_, S>,
    locals: &Locals,
    units: &mut u64,
    state: &mut State,
    at: usize,
    walked: Walked,
    pi: &Binding,
    argument: Term,
) -> Result<Turn, Ended>
    requires { part.floor ≤ length state.old.metas }
    ensures value { Runs (walk.place_written locals.now at argument walked pi.now units.old (own.state state.old)) result units.new (own.state state.new) }
    ensures floor { part.entry.floor ≤ length state.new.metas }
    ensures below { take part.entry.floor state.new.metas ≡ take part.entry.floor state.old.metas }
    ensures calm { Calm result }
{
    let placeholder = placeholder(part, locals, state, at, &pi.domain)?;
    let passed = passing(part.alloc, units, walked, pi, &placeholder)?;
    let domain = pi.domain.copy(part.alloc)?;
    let Walked {
        term,
        ty,
        mut placed,
        unplaced,
    } = passed;
    placed.push(Placed {
        placeholder,
        domain,
        argument,
    })?;
    Ok(Turn::GoesOn(Walked {
        term,
        ty,
        placed,
        unplaced,
    }))
}

// A placeholder for the first argument that has none; the walk ends where none is left.
#[tactic(auto, using(crate::proofs::Walks::written_none, crate::proofs::Walks::written_some))]
fn give_written<S: Synth>(
    part: Part<'_, S>,
    locals: &Locals,
    units: &mut u64,
    state: &mut State,
    at: usize,
    walked: Walked,
    pi: &Binding,
) -> Result<Turn, Ended>
    requires { part.floor ≤ length state.old.metas }
    ensures value { Runs (walk.written locals.now at walked pi.now walked.unplaced units.old (own.state state.old)) result units.new (own.state state.new) }
    ensures floor { part.entry.floor ≤ length state.new.metas }
    ensures below { take part.entry.floor state.new.metas ≡ take part.entry.floor state.old.metas }
    ensures calm { Calm result }
{
    if walked.unplaced.is_empty() {
        return Ok(Turn::Ends(walked));
    }
    let Walked {
        term,
        ty,
        placed,
        mut unplaced,
    } = walked;
    let argument = take_first(&mut unplaced);
    let behind = Walked {
        term,
        ty,
        placed,
        unplaced,
    };
    place_written(part, locals, units, state, at, behind, pi, argument)
}

// What is put for a pi.
#[tactic(auto, using(lf_part::proofs::Runs::halts))]
fn give<S: Synth>(
    part: Part<'_, S>,
    locals: &Locals,
    units: &mut u64,
    state: &mut State,
    at: usize,
    walked: Walked,
    pi: &Binding,
    giving: Giving,
) -> Result<Turn, Ended>
    requires { part.floor ≤ length state.old.metas }
    ensures value { Runs (walk.given_by locals.now at walked pi.now (given.giving giving) units.old (own.state state.old)) result units.new
        (own.state state.new) }
    ensures floor { part.entry.floor ≤ length state.new.metas }
    ensures below { take part.entry.floor state.new.metas ≡ take part.entry.floor state.old.metas }
    ensures calm { Calm result }
{
    match giving {
        Giving::ToUnify => {
            let argument = placeholder(part, locals, state, at, &pi.domain)?;
            let passed = passing(part.alloc, units, walked, pi, &argument)?;
            Ok(Turn::GoesOn(passed))
        }
        Giving::ToResolve => {
            let argument = hole(part, locals, state, at, None, &pi.domain)?;
            let passed = passing(part.alloc, units, walked, pi, &argument)?;
            Ok(Turn::GoesOn(passed))
        }
        Giving::ToElaborate => give_written(part, locals, units, state, at, walked, pi),
    }
}

// A turn at the weak head form of the type.
fn turn_at<S: Synth>(
    part: Part<'_, S>,
    locals: &Locals,
    units: &mut u64,
    state: &mut State,
    at: usize,
    at_sign: bool,
    walked: Walked,
    form: &Expr,
) -> Result<Turn, Ended>
    requires { part.floor ≤ length state.old.metas }
    ensures value { Runs (walk.turn_at locals.now at at_sign walked (forms.as_pi form.now) units.old (own.state state.old)) result units.new
        (own.state state.new) }
    ensures floor { part.entry.floor ≤ length state.new.metas }
    ensures below { take part.entry.floor state.new.metas ≡ take part.entry.floor state.old.metas }
    ensures calm { Calm result }
{
    match as_pi(part.alloc, form)? {
        None => Ok(Turn::Ends(walked)),
        Some(pi) => {
            let giving = giving_for(at_sign, pi.binder.kind);
            let turn = give(part, locals, units, state, at, walked, &pi, giving)?;
            Ok(turn)
        }
    }
}

// A type with its metavariables put in, and its weak head form.
#[tactic(auto, using(lf_part::proofs::Runs::halts), unfolding(crate::specs::Walk::type_form))]
fn type_form<S: Synth, P: Stop>(
    part: Part<'_, S>,
    locals: &mut Locals,
    units: &mut u64,
    state: &State,
    stop: &mut P,
    ty: &Expr,
) -> Result<(Expr, Expr), Ended>
    ensures value { Runs (walk.type_form (own.calls (own.part S.meaning part.entry) part.entry.depth) locals.old ty.now units.old
        (own.state state.now)) result units.new (own.state state.now) }
    ensures kept { locals.new ≡ locals.old }
    ensures count { P.stops stop.old ≤ P.stops stop.new }
    ensures rose { Rose result (P.stops stop.old) (P.stops stop.new) }
{
    let whole = instantiated(units, state, ty)?;
    let form = whnf(part, locals, units, stop, &whole)?;
    Ok((whole, form))
}

// A turn of the walk.
#[tactic(auto, using(lf_part::proofs::Runs::halts))]
fn walk_turn<S: Synth, P: Stop>(
    part: Part<'_, S>,
    locals: &mut Locals,
    units: &mut u64,
    state: &mut State,
    stop: &mut P,
    at: usize,
    at_sign: bool,
    walked: Walked,
) -> Result<Turn, Ended>
    requires { part.floor ≤ length state.old.metas }
    ensures value { Runs (walk.walk_turn (own.calls (own.part S.meaning part.entry) part.entry.depth) locals.old at at_sign walked units.old
        (own.state state.old)) result units.new (own.state state.new) }
    ensures kept { locals.new ≡ locals.old }
    ensures floor { part.entry.floor ≤ length state.new.metas }
    ensures below { take part.entry.floor state.new.metas ≡ take part.entry.floor state.old.metas }
    ensures count { P.stops stop.old ≤ P.stops stop.new }
    ensures rose { Rose result (P.stops stop.old) (P.stops stop.new) }
{
    let Walked {
        term,
        ty,
        placed,
        unplaced,
    } = walked;
    let (whole, form) = type_form(part, locals, units, state, stop, &ty)?;
    drop(ty);
    let walked = Walked {
        term,
        ty: whole,
        placed,
        unplaced,
    };
    turn_at(part, locals, units, state, at, at_sign, walked, &form)
}

/// The walk along the pis of the type: a metavariable for an implicit argument, a hole for an instance, a placeholder for a written one.
/// It ends where no pi is left, or no argument for one.
#[tactic(auto, using(crate::proofs::Walks::walk_none, crate::proofs::Walks::walk_stops, crate::proofs::Walks::walk_ends, crate::proofs::Walks::walk_goes_on, crate::proofs::Walks::walk_halts), unfolding(crate::specs::Walk::walked, lf_checker::specs::Whnf::turn_limit))]
pub fn walk<S: Synth, P: Stop>(
    part: Part<'_, S>,
    locals: &mut Locals,
    units: &mut u64,
    state: &mut State,
    stop: &mut P,
    at: usize,
    at_sign: bool,
    trailing: Trailing,
    start: Walked,
) -> Result<Walked, Ended>
    requires { part.floor ≤ length state.old.metas }
    ensures value { Runs (walk.walked (own.calls (own.part S.meaning part.entry) part.entry.depth) locals.old at at_sign (values.trailing trailing) start
        units.old (own.state state.old)) result units.new (own.state state.new) }
    ensures kept { locals.new ≡ locals.old }
    ensures floor { part.entry.floor ≤ length state.new.metas }
    ensures below { take part.entry.floor state.new.metas ≡ take part.entry.floor state.old.metas }
    ensures count { P.stops stop.old ≤ P.stops stop.new }
    ensures rose { Rose result (P.stops stop.old) (P.stops stop.new) }
{
    let mut walked = start;
    let mut left = u64::MAX;
    'turns: while left > 0 {
        if stops(at_sign, trailing, &walked) {
            return Ok(walked);
        }
        match walk_turn(part, locals, units, state, stop, at, at_sign, walked)? {
            Turn::Ends(end) => return Ok(end),
            Turn::GoesOn(next) => walked = next,
        }
        left -= 1;
    }
    drop(walked);
    Err(Ended::Out)
}
