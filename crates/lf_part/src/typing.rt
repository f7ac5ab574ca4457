//! Types that weren't given, computed without tests, and terms closed again.
ghost use Rattle.std.specs.Prelude.{◌≡◌, ◌≤◌, option_copied};
ghost use Rattle.lf_elaboration.specs.Forms as forms;
ghost use Rattle.lf_elaboration.specs.Part as spec;
ghost use Rattle.lf_part.specs.Runs.{Runs, Calm, Rose};
ghost use Rattle.lf_part.specs.Values as own;

use crate::checking::whnf;
use crate::ended::Ended;
use crate::locals::Locals;
use crate::part::Part;
use crate::reading::instantiated;
use crate::state::State;
use crate::synth::Synth;
use crate::telling::{OfOne, error_on, refusal_at};
use lf_base::Stop;
use lf_check::{Mode, infer_within};
use lf_core::{Expr, ExprNode, Level};
use lf_steps::{Halt, abstracted};
use std::alloc::Global;

/// The level of a sort.
pub fn as_sort(term: &Expr) -> Option<&Level>
    ensures { option_copied result ≡ forms.as_sort term.now }
{
    match term.node() {
        ExprNode::Sort(level) => Some(level),
        _ => None,
    }
}

/// The type of a term, which stood there already; a refusal is the error of the form or item at this place.
#[tactic(auto, using(crate::proofs::Calls::check_is))]
pub fn type_of<S: Synth, P: Stop>(
    part: Part<'_, S>,
    locals: &mut Locals,
    units: &mut u64,
    state: &State,
    stop: &mut P,
    at: usize,
    term: &Expr,
) -> Result<Expr, Ended>
    ensures value { Runs (spec.type_of (own.part S.meaning part.entry) (own.calls (own.part S.meaning part.entry) part.entry.depth) locals.old at term.now
        units.old (own.state state.now)) result units.new (own.state state.now) }
    ensures kept { locals.new ≡ locals.old }
    ensures count { P.stops stop.old ≤ P.stops stop.new }
    ensures rose { Rose result (P.stops stop.old) (P.stops stop.new) }
{
    let mode = Mode::Unchecked(state.metas.types());
    match infer_within(part.check(), &mut locals.types, units, stop, mode, term) {
        Ok(ty) => Ok(ty),
        Err(Halt::Refused(refused)) => refusal_at(part, locals, units, state, at, refused),
        Err(Halt::Out) => Err(Ended::Out),
        Err(Halt::Need(key)) => Err(Ended::Need(key)),
        Err(Halt::Stopped) => Err(Ended::Stopped),
        Err(Halt::NoMemory) => Err(Ended::NoMemory),
    }
}

// The level, or the fault that the type is no sort.
fn level_in<S: Synth>(
    part: Part<'_, S>,
    locals: &Locals,
    units: &mut u64,
    state: &State,
    at: usize,
    ty: &Expr,
    level: Option<&Level>,
) -> Result<Level, Ended>
    ensures value { Runs (spec.level_in (own.part S.meaning part.entry) locals.now at ty.now (option_copied level.entry) units.old (own.state state.now))
        result units.new (own.state state.now) }
    ensures calm { Calm result }
{
    match level {
        Some(level) => Ok(level.copy(part.alloc)?),
        None => error_on(
            part,
            locals.names.as_slice(),
            units,
            state,
            at,
            OfOne::TypeWanted,
            ty,
        ),
    }
}

/// The level of a type's sort; a refusal is the error of the form or item at this place.
#[tactic(auto, using(crate::proofs::Runs::halts))]
pub fn sort_of<S: Synth, P: Stop>(
    part: Part<'_, S>,
    locals: &mut Locals,
    units: &mut u64,
    state: &State,
    stop: &mut P,
    at: usize,
    ty: &Expr,
) -> Result<Level, Ended>
    ensures value { Runs (spec.sort_of (own.part S.meaning part.entry) (own.calls (own.part S.meaning part.entry) part.entry.depth) locals.old at ty.now
        units.old (own.state state.now)) result units.new (own.state state.now) }
    ensures kept { locals.new ≡ locals.old }
    ensures count { P.stops stop.old ≤ P.stops stop.new }
    ensures rose { Rose result (P.stops stop.old) (P.stops stop.new) }
{
    let sort = type_of(part, locals, units, state, stop, at, ty)?;
    let whole = instantiated(units, state, &sort)?;
    drop(sort);
    let form = whnf(part, locals, units, stop, &whole)?;
    let level = level_in(part, locals, units, state, at, &whole, as_sort(&form));
    drop(whole);
    drop(form);
    level
}

/// The term with its assigned metavariables put in, as the body of a binder over the local of number `k`.
#[tactic(auto, using(crate::proofs::Runs::halts, crate::proofs::Runs::check_ends, crate::proofs::Runs::told))]
pub fn closed_over(
    alloc: Global,
    units: &mut u64,
    state: &State,
    k: usize,
    term: &Expr,
) -> Result<Expr, Ended>
    ensures value { Runs (spec.closed_over k term.now units.old (own.state state.now)) result units.new (own.state state.now) }
    ensures calm { Calm result }
{
    let whole = instantiated(units, state, term)?;
    let body = abstracted(alloc, units, &whole, k);
    drop(whole);
    Ok(body?)
}
