//! Written universe levels.
ghost use Rattle.std.specs.Prelude.{◌≡◌, ◌≤◌, ◌++◌, ℕ, IfOk, length, take};
ghost use Rattle.lf_elaboration.specs.Identifiers as spec;
ghost use Rattle.lf_elaboration.specs.Part as parts;
ghost use Rattle.lf_rules.specs.Recursor.{parameters_from};
ghost use Rattle.lf_syntax.specs.Tree as written;
ghost use Rattle.lf_part.specs.Runs.{Runs, Calm};
ghost use Rattle.lf_part.specs.Into as into;
ghost use Rattle.lf_part.specs.Values as own;

use crate::ended::Ended;
use crate::message::Diagnostic;
use crate::metavariables::fresh_level;
use crate::part::Part;
use crate::state::State;
use crate::synth::Synth;
use crate::telling::error;
use lf_core::{Level, Name, NoMemory};
use lf_msg::ElaborationError;
use lf_syntax::{Ident, LevelNode, LevelTerm, Num};
use sqlite_items::Items;
use std::alloc::Global;

// The greatest numeral in a level.
const GREATEST_NUMERAL: u128 = 32;

#[tactic(auto, using(crate::proofs::Counts::no_successor, crate::proofs::Counts::some_successor))]
fn successors(alloc: Global, count: u128, level: Level) -> Result<Level, NoMemory>
    ensures { IfOk result (λ l. l ≡ spec.successors count level) }
{
    if count == 0 {
        return Ok(level);
    }
    let inner = successors(alloc, count - 1, level)?;
    Level::succ(alloc, inner)
}

// A numeral on a level.
fn numeral_on(alloc: Global, numeral: Num, level: Level) -> Result<Level, Ended>
    ensures value { (u : ℕ) (s : parts.State) → Runs (spec.numeral_on numeral level u s) result u s }
    ensures calm { Calm result }
{
    if numeral.value > GREATEST_NUMERAL {
        drop(level);
        return Err(error(
            numeral.at,
            Diagnostic::Elaboration(ElaborationError::LevelAbove32),
        ));
    }
    Ok(successors(alloc, numeral.value, level)?)
}

// The place of the name among these, of which the first has the place `k`.
fn position_from(k: u32, names: &[Name], name: &Name) -> Result<Option<u32>, NoMemory>
    ensures { IfOk result (λ o. o ≡ spec.position_from k names.now name.now) }
{
    match names {
        [] => Ok(None),
        [first, rest @ ..] => {
            if first.is(name) {
                return Ok(Some(k));
            }
            let next = k.checked_add(1).ok_or(NoMemory)?;
            position_from(next, rest, name)
        }
    }
}

// The parameter of this name.
fn named_level(alloc: Global, names: &[Name], x: &Ident) -> Result<Level, Ended>
    ensures value { (u : ℕ) (s : parts.State) → Runs (spec.named_level names.now x.now u s) result u s }
    ensures calm { Calm result }
{
    match position_from(0, names, &x.name)? {
        Some(k) => Ok(Level::param(alloc, k)?),
        None => {
            let name = x.name.copy(alloc)?;
            Err(error(
                x.at,
                Diagnostic::Elaboration(ElaborationError::UnknownLevel(name)),
            ))
        }
    }
}

// The maximum of a level and of a further one, where there is one.
fn maximum(alloc: Global, level: Level, further: Option<Level>) -> Result<Level, NoMemory>
    ensures { IfOk result (λ l. l ≡ spec.maximum level further) }
{
    match further {
        None => Ok(level),
        Some(other) => Level::max(alloc, level, other),
    }
}

/// A written level, where the part has these level names. It costs nothing; a numeral above 32 and a name that is none of these are errors.
#[cycle(written)]
#[tactic(auto, using(crate::proofs::Runs::halts, crate::proofs::Counts::some_size))]
pub fn level_of(alloc: Global, names: &[Name], level: &LevelTerm) -> Result<Level, Ended>
    ensures value { (u : ℕ) (s : parts.State) → Runs (spec.level_of names.now level.now u s) result u s }
    ensures calm { Calm result }
{
    match level.node() {
        LevelNode::Num(numeral) => numeral_on(alloc, *numeral, Level::zero(alloc)?),
        LevelNode::Name(x) => named_level(alloc, names, x),
        LevelNode::Plus { base, add, .. } => {
            let base = level_of(alloc, names, base)?;
            numeral_on(alloc, *add, base)
        }
        LevelNode::Max { parts, .. } => {
            let greatest = greatest_of(alloc, names, parts.as_slice())?;
            let zero = Level::zero(alloc)?;
            Ok(maximum(alloc, zero, greatest)?)
        }
        LevelNode::Imax { left, right, .. } => {
            let left = level_of(alloc, names, left)?;
            let right = level_of(alloc, names, right)?;
            Ok(Level::imax(alloc, left, right)?)
        }
    }
}

// The greatest of these.
#[cycle(written)]
#[tactic(auto, using(crate::proofs::Runs::halts, crate::proofs::Counts::some_size))]
fn greatest_of(alloc: Global, names: &[Name], levels: &[LevelTerm]) -> Result<Option<Level>, Ended>
    ensures value { (u : ℕ) (s : parts.State) → Runs (spec.greatest_of names.now (written.levels_of levels.now) u s) result u s }
    ensures calm { Calm result }
{
    match levels {
        [] => Ok(None),
        [level, rest @ ..] => {
            let first = level_of(alloc, names, level)?;
            let further = greatest_of(alloc, names, rest)?;
            Ok(Some(maximum(alloc, first, further)?))
        }
    }
}

// Puts written levels behind `ready`.
#[tactic(auto, using(crate::proofs::Runs::halts))]
fn levels_behind(
    alloc: Global,
    names: &[Name],
    ready: Items<Level>,
    levels: &[LevelTerm],
) -> Result<Items<Level>, Ended>
    ensures value { (u : ℕ) (s : parts.State) → Runs (into.levels_into names.now ready levels.now u s) result u s }
    ensures calm { Calm result }
{
    match levels {
        [] => Ok(ready),
        [level, rest @ ..] => {
            let one = level_of(alloc, names, level)?;
            let mut more = ready;
            more.push(one)?;
            levels_behind(alloc, names, more, rest)
        }
    }
}

/// Written levels, in order.
#[tactic(auto, using(crate::proofs::Into::levels_nothing))]
pub fn levels_of(alloc: Global, names: &[Name], levels: &[LevelTerm]) -> Result<Items<Level>, Ended>
    ensures value { (u : ℕ) (s : parts.State) → Runs (spec.levels_of names.now levels.now u s) result u s }
    ensures calm { Calm result }
{
    let all = levels_behind(alloc, names, Items::new(alloc), levels)?;
    Ok(all)
}

// Puts a fresh level for each of these names behind `ready`.
#[tactic(auto, using(crate::proofs::Runs::halts, crate::proofs::Into::fresh_none, crate::proofs::Into::fresh_more))]
fn fresh_behind<S: Synth>(
    part: Part<'_, S>,
    state: &mut State,
    ready: Items<Level>,
    names: &[Name],
) -> Result<Items<Level>, Ended>
    requires { part.floor ≤ length state.old.metas }
    ensures value { (u : ℕ) → Runs (into.fresh_into ready (length names.now) u (own.state state.old)) result u (own.state state.new) }
    ensures calm { Calm result }
    ensures floor { part.entry.floor ≤ length state.new.metas }
    ensures below { take part.entry.floor state.new.metas ≡ take part.entry.floor state.old.metas }
{
    match names {
        [] => Ok(ready),
        [_name, rest @ ..] => {
            let one = fresh_level(part, state)?;
            let mut more = ready;
            more.push(one)?;
            let all = fresh_behind(part, state, more, rest)?;
            Ok(all)
        }
    }
}

/// Fresh levels, as many as a constant has names.
#[tactic(auto, using(crate::proofs::Into::fresh_nothing))]
pub fn fresh_levels<S: Synth>(
    part: Part<'_, S>,
    state: &mut State,
    names: &[Name],
) -> Result<Items<Level>, Ended>
    requires { part.floor ≤ length state.old.metas }
    ensures value { (u : ℕ) → Runs (spec.fresh_levels (length names.now) u (own.state state.old)) result u (own.state state.new) }
    ensures calm { Calm result }
    ensures floor { part.entry.floor ≤ length state.new.metas }
    ensures below { take part.entry.floor state.new.metas ≡ take part.entry.floor state.old.metas }
{
    let all = fresh_behind(part, state, Items::new(part.alloc), names)?;
    Ok(all)
}

// Puts parameters from `k` on behind `all`, one for each of these names.
#[tactic(auto, using(crate::proofs::Counts::parameters_none, crate::proofs::Counts::parameters_more))]
fn push_parameters(
    alloc: Global,
    k: u32,
    names: &[Name],
    all: Items<Level>,
) -> Result<Items<Level>, NoMemory>
    ensures { IfOk result (λ r. r ≡ all ++ parameters_from k (length names.now)) }
{
    match names {
        [] => Ok(all),
        [_name, rest @ ..] => {
            let mut more = all;
            more.push(Level::param(alloc, k)?)?;
            let next = k.checked_add(1).ok_or(NoMemory)?;
            push_parameters(alloc, next, rest, more)
        }
    }
}

/// A parameter for each of these names, in order.
pub fn parameters(alloc: Global, names: &[Name]) -> Result<Items<Level>, NoMemory>
    ensures { IfOk result (λ r. r ≡ parameters_from 0 (length names.now)) }
{
    push_parameters(alloc, 0, names, Items::new(alloc))
}

/// The levels that are written behind a constant, of which there have to be as many as it has names; none written are fresh ones.
pub fn levels_at<S: Synth>(
    part: Part<'_, S>,
    state: &mut State,
    x: &Ident,
    constant: &Name,
    own_names: &[Name],
    levels: &[LevelTerm],
) -> Result<Items<Level>, Ended>
    requires { part.floor ≤ length state.old.metas }
    ensures value { (u : ℕ) → Runs (spec.levels_at part.entry.levels.now x.now constant.now (length own_names.now) levels.now u (own.state state.old)) result u
        (own.state state.new) }
    ensures calm { Calm result }
    ensures floor { part.entry.floor ≤ length state.new.metas }
    ensures below { take part.entry.floor state.new.metas ≡ take part.entry.floor state.old.metas }
{
    match levels {
        [] => fresh_levels(part, state, own_names),
        [_first, _rest @ ..] => {
            if levels.len() == own_names.len() {
                let all = levels_of(part.alloc, part.levels, levels)?;
                return Ok(all);
            }
            let constant = constant.copy(part.alloc)?;
            Err(error(
                x.at,
                Diagnostic::Elaboration(ElaborationError::WrongLevelCount(constant)),
            ))
        }
    }
}

/// The levels behind the type of an inductive command, which is at the command's own level names where none are written.
pub fn own_levels_at<S: Synth>(
    part: Part<'_, S>,
    state: &mut State,
    x: &Ident,
    constant: &Name,
    levels: &[LevelTerm],
) -> Result<Items<Level>, Ended>
    requires { part.floor ≤ length state.old.metas }
    ensures value { (u : ℕ) → Runs (spec.own_levels_at part.entry.levels.now x.now constant.now levels.now u (own.state state.old)) result u (own.state state.new) }
    ensures calm { Calm result }
    ensures floor { part.entry.floor ≤ length state.new.metas }
    ensures below { take part.entry.floor state.new.metas ≡ take part.entry.floor state.old.metas }
{
    match levels {
        [] => Ok(parameters(part.alloc, part.levels)?),
        [_first, _rest @ ..] => {
            let all = levels_at(part, state, x, constant, part.levels, levels)?;
            Ok(all)
        }
    }
}
