//! What identifiers stand for.
ghost use Rattle.std.specs.Prelude.{◌≡◌, ◌≤◌, ℕ, IfOk, length, option_copied, take};
ghost use Rattle.lf_elaboration.specs.Identifiers as spec;
ghost use Rattle.lf_elaboration.specs.Part as parts;
ghost use Rattle.lf_elaboration.specs.Scope as scopes;
ghost use Rattle.lf_elaboration.specs.Unifier.{type_in};
ghost use Rattle.lf_steps.specs.Values as steps;
ghost use Rattle.lf_part.specs.Meanings as meanings;
ghost use Rattle.lf_part.specs.Runs.{Runs, Calm};
ghost use Rattle.lf_part.specs.Values as own;

use crate::ended::Ended;
use crate::levels::{fresh_levels, levels_at, own_levels_at};
use crate::locals::Locals;
use crate::message::Diagnostic;
use crate::part::Part;
use crate::state::State;
use crate::synth::Synth;
use crate::telling::error;
use crate::typed::Typed;
use lf_core::{ConstInfo, Expr, Level, Name, NoMemory, TaskKey};
use lf_env::View;
use lf_msg::{ElaborationError, KernelError};
use lf_steps::{Seen, at_levels, see};
use lf_syntax::{Ident, LevelTerm};
use sqlite_items::Items;
use std::alloc::Global;

/// What an identifier stands for that is no local.
#[derive(Drop)]
pub enum Meaning<'a> {
    /// The type of the inductive command itself.
    OwnType(Name),
    Constant(Name, &'a ConstInfo),
    Nothing,
    /// This has to be made first.
    Waits(TaskKey),
}

fn is_own(own: Option<&Name>, name: &Name) -> bool
    ensures { result ≡ spec.is_own (option_copied own.entry) name.now }
{
    match own {
        None => false,
        Some(own) => own.is(name),
    }
}

// The first of these names that is found.
fn first_found<'a>(
    alloc: Global,
    view: &'a View,
    own: Option<&Name>,
    names: &[Name],
) -> Result<Meaning<'a>, NoMemory>
    ensures { IfOk result (λ m. meanings.meaning m ≡ spec.first_found view.now (option_copied own.entry) names.now) }
{
    match names {
        [] => Ok(Meaning::Nothing),
        [name, rest @ ..] => {
            if is_own(own, name) {
                return Ok(Meaning::OwnType(name.copy(alloc)?));
            }
            match see(alloc, view, name)? {
                Seen::Known(info) => Ok(Meaning::Constant(name.copy(alloc)?, info)),
                Seen::Unknown => first_found(alloc, view, own, rest),
                Seen::Missing(key) => Ok(Meaning::Waits(key)),
            }
        }
    }
}

/// What a name stands for in a part, where no local has it: the first candidate that is found.
pub fn meaning_of<'a, S: Synth>(part: Part<'a, S>, name: &Name) -> Result<Meaning<'a>, NoMemory>
    ensures { IfOk result (λ m. meanings.meaning m ≡ spec.meaning_of (own.part S.meaning part.entry) name.now) }
{
    let names = part.scope.candidates(part.alloc, name, part.inside)?;
    first_found(part.alloc, part.view, part.own, names.as_slice())
}

/// A constant that is no entry was made when it was asked for; so it is asked for.
pub fn ask_if_realized(
    alloc: Global,
    state: &mut State,
    view: &View,
    name: &Name,
) -> Result<(), Ended>
    ensures value { (u : ℕ) → Runs (spec.ask_if_realized view.now name.now u (own.state state.old)) result u (own.state state.new) }
    ensures calm { Calm result }
    ensures metas { state.new.metas ≡ state.old.metas }
{
    match view.placed(name) {
        None => state.ask(alloc, name),
        Some(_) => Ok(()),
    }
}

/// The constant at these levels, with its type, which costs its nodes.
#[tactic(auto, using(crate::proofs::Runs::check_halts, crate::proofs::Runs::told))]
pub fn constant_at(
    alloc: Global,
    units: &mut u64,
    name: &Name,
    levels: Items<Level>,
    ty: &Expr,
) -> Result<Typed, Ended>
    ensures value { (s : parts.State) → Runs (spec.constant_at name.now levels ty.now units.old s) result units.new s }
    ensures calm { Calm result }
{
    let ty = at_levels(alloc, units, levels.as_slice(), ty)?;
    let name = name.copy(alloc)?;
    let term = Expr::constant(alloc, name, levels)?;
    Ok(Typed { term, ty })
}

// The type of an inductive command has a type only once it is known.
fn own_at<S: Synth>(
    part: Part<'_, S>,
    units: &mut u64,
    name: &Name,
    x: &Ident,
    levels: Items<Level>,
) -> Result<Typed, Ended>
    ensures value { (s : parts.State) → Runs (meanings.own_at part.entry.view.now name.now x.now levels units.old s) result units.new s }
    ensures calm { Calm result }
{
    match see(part.alloc, part.view, name)? {
        Seen::Known(info) => {
            let typed = constant_at(part.alloc, units, name, levels, &info.ty)?;
            Ok(typed)
        }
        Seen::Unknown => {
            drop(levels);
            let name = name.copy(part.alloc)?;
            Err(error(x.at, Diagnostic::Kernel(KernelError::UnknownConstant(name))))
        }
        Seen::Missing(key) => {
            drop(levels);
            Err(Ended::Need(key))
        }
    }
}

// A constant at the written levels, or at fresh ones.
#[tactic(auto, using(crate::proofs::Runs::halts))]
fn at_written_levels<S: Synth>(
    part: Part<'_, S>,
    units: &mut u64,
    state: &mut State,
    x: &Ident,
    levels: &[LevelTerm],
    name: &Name,
    info: &ConstInfo,
) -> Result<Typed, Ended>
    requires { part.floor ≤ length state.old.metas }
    ensures value { Runs (meanings.at_written_levels (own.part S.meaning part.entry) x.now levels.now name.now info.now units.old
        (own.state state.old)) result units.new (own.state state.new) }
    ensures calm { Calm result }
    ensures floor { part.entry.floor ≤ length state.new.metas }
    ensures below { take part.entry.floor state.new.metas ≡ take part.entry.floor state.old.metas }
{
    let levels = levels_at(part, state, x, name, info.levels.as_slice(), levels)?;
    let typed = constant_at(part.alloc, units, name, levels, &info.ty)?;
    Ok(typed)
}

// A known constant.
#[tactic(auto, using(crate::proofs::Runs::halts))]
fn of_constant<S: Synth>(
    part: Part<'_, S>,
    units: &mut u64,
    state: &mut State,
    x: &Ident,
    levels: &[LevelTerm],
    name: &Name,
    info: &ConstInfo,
) -> Result<Typed, Ended>
    requires { part.floor ≤ length state.old.metas }
    ensures value { Runs (meanings.of_constant (own.part S.meaning part.entry) x.now levels.now name.now info.now units.old (own.state state.old)) result
        units.new (own.state state.new) }
    ensures calm { Calm result }
    ensures floor { part.entry.floor ≤ length state.new.metas }
    ensures below { take part.entry.floor state.new.metas ≡ take part.entry.floor state.old.metas }
{
    ask_if_realized(part.alloc, state, part.view, name)?;
    let typed = at_written_levels(part, units, state, x, levels, name, info)?;
    Ok(typed)
}

// The type of the inductive command.
#[tactic(auto, using(crate::proofs::Runs::halts))]
fn of_own_type<S: Synth>(
    part: Part<'_, S>,
    units: &mut u64,
    state: &mut State,
    x: &Ident,
    levels: &[LevelTerm],
    name: &Name,
) -> Result<Typed, Ended>
    requires { part.floor ≤ length state.old.metas }
    ensures value { Runs (spec.of_meaning (own.part S.meaning part.entry) x.now levels.now (spec.own_type name.now) units.old (own.state state.old)) result
        units.new (own.state state.new) }
    ensures calm { Calm result }
    ensures floor { part.entry.floor ≤ length state.new.metas }
    ensures below { take part.entry.floor state.new.metas ≡ take part.entry.floor state.old.metas }
{
    let levels = own_levels_at(part, state, x, name, levels)?;
    let typed = own_at(part, units, name, x, levels)?;
    Ok(typed)
}

fn unknown_identifier(alloc: Global, at: usize, name: &Name) -> Result<Typed, Ended>
    ensures value { (u : ℕ) (s : parts.State) → Runs (meanings.unknown_at at name.now u s) result u s }
    ensures calm { Calm result }
{
    let name = name.copy(alloc)?;
    Err(error(
        at,
        Diagnostic::Elaboration(ElaborationError::UnknownIdentifier(name)),
    ))
}

// What has this meaning.
fn of_meaning<S: Synth>(
    part: Part<'_, S>,
    units: &mut u64,
    state: &mut State,
    x: &Ident,
    levels: &[LevelTerm],
    meaning: Meaning<'_>,
) -> Result<Typed, Ended>
    requires { part.floor ≤ length state.old.metas }
    ensures value { Runs (spec.of_meaning (own.part S.meaning part.entry) x.now levels.now (meanings.meaning meaning.entry) units.old
        (own.state state.old)) result units.new (own.state state.new) }
    ensures calm { Calm result }
    ensures floor { part.entry.floor ≤ length state.new.metas }
    ensures below { take part.entry.floor state.new.metas ≡ take part.entry.floor state.old.metas }
{
    match meaning {
        Meaning::Constant(name, info) => of_constant(part, units, state, x, levels, &name, info),
        Meaning::OwnType(name) => of_own_type(part, units, state, x, levels, &name),
        Meaning::Nothing => unknown_identifier(part.alloc, x.at, &x.name),
        Meaning::Waits(key) => Err(Ended::Need(key)),
    }
}

// The place of the innermost of these, of which the first has the place `k`, that has the name.
fn local_from(k: u32, names: &[Name], name: &Name) -> Result<Option<u32>, NoMemory>
    ensures { IfOk result (λ o. o ≡ scopes.local_from k names.now name.now) }
{
    match names {
        [] => Ok(None),
        [first, rest @ ..] => {
            let next = k.checked_add(1).ok_or(NoMemory)?;
            match local_from(next, rest, name)? {
                Some(found) => Ok(Some(found)),
                None => {
                    if first.is(name) {
                        Ok(Some(k))
                    } else {
                        Ok(None)
                    }
                }
            }
        }
    }
}

/// The place of the innermost local of this name.
pub fn local_named(names: &[Name], name: &Name) -> Result<Option<u32>, NoMemory>
    ensures { IfOk result (λ o. o ≡ scopes.local_named names.now name.now) }
{
    local_from(0, names, name)
}

/// The type of the local at this place, or `Prop` where there is none.
pub fn type_at(alloc: Global, types: &[Expr], place: u32) -> Result<Expr, NoMemory>
    ensures { IfOk result (λ t. t ≡ type_in types.now place) }
{
    match types.get(place as usize) {
        Some(ty) => ty.copy(alloc),
        None => Expr::sort(alloc, Level::zero(alloc)?),
    }
}

/// An identifier: the innermost local of its name, else the first constant among its candidates, at the written levels or at fresh ones.
pub fn identifier<S: Synth>(
    part: Part<'_, S>,
    locals: &Locals,
    units: &mut u64,
    state: &mut State,
    x: &Ident,
    levels: &[LevelTerm],
) -> Result<Typed, Ended>
    requires { part.floor ≤ length state.old.metas }
    ensures value { Runs (spec.identifier (own.part S.meaning part.entry) locals.now x.now levels.now units.old (own.state state.old)) result units.new
        (own.state state.new) }
    ensures calm { Calm result }
    ensures floor { part.entry.floor ≤ length state.new.metas }
    ensures below { take part.entry.floor state.new.metas ≡ take part.entry.floor state.old.metas }
{
    match local_named(locals.names.as_slice(), &x.name)? {
        Some(k) => {
            let ty = type_at(part.alloc, locals.types.as_slice(), k)?;
            let term = Expr::free(part.alloc, k)?;
            Ok(Typed { term, ty })
        }
        None => {
            let meaning = meaning_of(part, &x.name)?;
            of_meaning(part, units, state, x, levels, meaning)
        }
    }
}

// A constant at fresh levels.
#[tactic(auto, using(crate::proofs::Runs::halts))]
fn at_fresh_levels<S: Synth>(
    part: Part<'_, S>,
    units: &mut u64,
    state: &mut State,
    name: &Name,
    info: &ConstInfo,
) -> Result<Typed, Ended>
    requires { part.floor ≤ length state.old.metas }
    ensures value { Runs (meanings.at_fresh_levels name.now info.now units.old (own.state state.old)) result units.new (own.state state.new) }
    ensures calm { Calm result }
    ensures floor { part.entry.floor ≤ length state.new.metas }
    ensures below { take part.entry.floor state.new.metas ≡ take part.entry.floor state.old.metas }
{
    let levels = fresh_levels(part, state, info.levels.as_slice())?;
    let typed = constant_at(part.alloc, units, name, levels, &info.ty)?;
    Ok(typed)
}

/// The constant of this name, at fresh levels: what operators and `sorry` stand for.
pub fn constant_named<S: Synth>(
    part: Part<'_, S>,
    units: &mut u64,
    state: &mut State,
    at: usize,
    name: &Name,
) -> Result<Typed, Ended>
    requires { part.floor ≤ length state.old.metas }
    ensures value { Runs (spec.constant_named (own.part S.meaning part.entry) at name.now units.old (own.state state.old)) result units.new
        (own.state state.new) }
    ensures calm { Calm result }
    ensures floor { part.entry.floor ≤ length state.new.metas }
    ensures below { take part.entry.floor state.new.metas ≡ take part.entry.floor state.old.metas }
{
    match see(part.alloc, part.view, name)? {
        Seen::Known(info) => at_fresh_levels(part, units, state, name, info),
        Seen::Unknown => unknown_identifier(part.alloc, at, name),
        Seen::Missing(key) => Err(Ended::Need(key)),
    }
}
