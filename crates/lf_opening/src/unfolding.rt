//! The equation of a definition, for `unfold`.
ghost use Rattle.std.specs.Prelude.{◌≡◌, ◌≤◌, ℕ, IfOk, length, take};
ghost use Rattle.lf_core.specs.Suffix as suffix;
ghost use Rattle.lf_elaboration.specs.Identifiers as identifiers;
ghost use Rattle.lf_elaboration.specs.Rewrite as spec;
ghost use Rattle.lf_part.specs.Meanings as meanings;
ghost use Rattle.lf_part.specs.Runs.{Runs, Calm};
ghost use Rattle.lf_part.specs.Values as own;
ghost use Rattle.lf_opening.specs.Unfolds as unfolds;

use crate::rewriting::fails_as;
use lf_core::{ConstInfo, ConstKind, Name, NoMemory};
use lf_env::View;
use lf_msg::ProofItem;
use lf_part::{
    Ended, Locals, Meaning, Part, State, Synth, Typed, constant_at, fresh_levels, local_named,
    meaning_of,
};
use lf_steps::{Seen, see};
use lf_syntax::Ident;
use std::alloc::Global;

fn is_realized(view: &View, name: &Name) -> bool
    ensures { result ≡ identifiers.is_realized view.now name.now }
{
    match view.placed(name) {
        Some(_) => false,
        None => true,
    }
}

fn is_definition(kind: ConstKind) -> bool
    ensures { result ≡ suffix.is_definition kind }
{
    match kind {
        ConstKind::Def => true,
        ConstKind::Axiom
        | ConstKind::Theorem
        | ConstKind::Inductive
        | ConstKind::Constructor
        | ConstKind::Recursor => false,
    }
}

fn equation_of(alloc: Global, name: &Name) -> Result<Name, NoMemory>
    ensures { IfOk result (λ n. n ≡ spec.equation_of name.now) }
{
    name.child(alloc, "eq_1")
}

// A constant at fresh levels.
#[tactic(auto, using(lf_part::proofs::Runs::halts))]
fn at_fresh_levels<S: Synth>(
    part: Part<'_, S>,
    units: &mut u64,
    state: &mut State,
    name: &Name,
    info: &ConstInfo,
) -> Result<Typed, Ended>
    requires { part.floor ≤ length state.old.metas }
    ensures value { Runs (meanings.at_fresh_levels name.now info.now units.old (own.state state.old)) result units.new (own.state state.new) }
    ensures calm { Calm result }
    ensures floor { part.entry.floor ≤ length state.new.metas }
    ensures below { take part.entry.floor state.new.metas ≡ take part.entry.floor state.old.metas }
{
    let levels = fresh_levels(part, state, info.levels.as_slice())?;
    let typed = constant_at(part.alloc, units, name, levels, &info.ty)?;
    Ok(typed)
}

// The same for a unit.
#[tactic(auto, unfolding(crate::specs::Unfolds::paid_equation))]
fn paid_equation<S: Synth>(
    part: Part<'_, S>,
    units: &mut u64,
    state: &mut State,
    name: &Name,
    info: &ConstInfo,
) -> Result<Typed, Ended>
    requires { part.floor ≤ length state.old.metas }
    ensures value { Runs (unfolds.paid_equation name.now info.now units.old (own.state state.old)) result units.new (own.state state.new) }
    ensures calm { Calm result }
    ensures floor { part.entry.floor ≤ length state.new.metas }
    ensures below { take part.entry.floor state.new.metas ≡ take part.entry.floor state.old.metas }
{
    if *units < 1 {
        return Err(Ended::Out);
    }
    *units -= 1;
    at_fresh_levels(part, units, state, name, info)
}

#[tactic(auto, unfolding(crate::specs::Unfolds::asked))]
fn ask(alloc: Global, state: &mut State, name: &Name) -> Result<(), Ended>
    ensures value { (u : ℕ) → Runs (unfolds.asked name.now u (own.state state.old)) result u (own.state state.new) }
    ensures calm { Calm result }
    ensures metas { state.new.metas ≡ state.old.metas }
{
    state.ask(alloc, name)
}

// An equation that was made is asked for.
#[tactic(auto, using(lf_part::proofs::Runs::halts), unfolding(crate::specs::Unfolds::asked_equation))]
fn asked_equation<S: Synth>(
    part: Part<'_, S>,
    units: &mut u64,
    state: &mut State,
    name: &Name,
    info: &ConstInfo,
) -> Result<Typed, Ended>
    requires { part.floor ≤ length state.old.metas }
    ensures value { Runs (unfolds.asked_equation name.now info.now units.old (own.state state.old)) result units.new (own.state state.new) }
    ensures calm { Calm result }
    ensures floor { part.entry.floor ≤ length state.new.metas }
    ensures below { take part.entry.floor state.new.metas ≡ take part.entry.floor state.old.metas }
{
    ask(part.alloc, state, name)?;
    paid_equation(part, units, state, name, info)
}

// The equation, where it was made.
fn equation_if<S: Synth>(
    part: Part<'_, S>,
    units: &mut u64,
    state: &mut State,
    at: usize,
    is_made: bool,
    name: &Name,
    info: &ConstInfo,
) -> Result<Typed, Ended>
    requires { part.floor ≤ length state.old.metas }
    ensures value { Runs (unfolds.equation_if at is_made name.now info.now units.old (own.state state.old)) result units.new (own.state state.new) }
    ensures calm { Calm result }
    ensures floor { part.entry.floor ≤ length state.new.metas }
    ensures below { take part.entry.floor state.new.metas ≡ take part.entry.floor state.old.metas }
{
    if is_made {
        asked_equation(part, units, state, name, info)
    } else {
        Err(fails_as(at, ProofItem::Unfold))
    }
}

#[tactic(auto, using(crate::proofs::Unfolded::when_is))]
fn equation_when<S: Synth>(
    part: Part<'_, S>,
    units: &mut u64,
    state: &mut State,
    at: usize,
    name: &Name,
    info: &ConstInfo,
) -> Result<Typed, Ended>
    requires { part.floor ≤ length state.old.metas }
    ensures value { Runs (unfolds.equation_when (own.part S.meaning part.entry) at name.now info.now units.old (own.state state.old)) result units.new
        (own.state state.new) }
    ensures calm { Calm result }
    ensures floor { part.entry.floor ≤ length state.new.metas }
    ensures below { take part.entry.floor state.new.metas ≡ take part.entry.floor state.old.metas }
{
    let is_made = is_realized(part.view, name);
    equation_if(part, units, state, at, is_made, name, info)
}

// The constant of this name, where it was made.
#[tactic(auto, unfolding(crate::specs::Unfolds::made_equation))]
fn made_equation<S: Synth>(
    part: Part<'_, S>,
    units: &mut u64,
    state: &mut State,
    at: usize,
    name: &Name,
) -> Result<Typed, Ended>
    requires { part.floor ≤ length state.old.metas }
    ensures value { Runs (unfolds.made_equation (own.part S.meaning part.entry) at name.now units.old (own.state state.old)) result units.new
        (own.state state.new) }
    ensures calm { Calm result }
    ensures floor { part.entry.floor ≤ length state.new.metas }
    ensures below { take part.entry.floor state.new.metas ≡ take part.entry.floor state.old.metas }
{
    match see(part.alloc, part.view, name)? {
        Seen::Known(info) => equation_when(part, units, state, at, name, info),
        Seen::Unknown => Err(fails_as(at, ProofItem::Unfold)),
        Seen::Missing(key) => Err(Ended::Need(key)),
    }
}

// The equation of a constant of this kind, which has to be that of definitions.
fn equation_of_kind<S: Synth>(
    part: Part<'_, S>,
    units: &mut u64,
    state: &mut State,
    at: usize,
    name: &Name,
    kind: ConstKind,
) -> Result<Typed, Ended>
    requires { part.floor ≤ length state.old.metas }
    ensures value { Runs (unfolds.equation_of_kind (own.part S.meaning part.entry) at name.now kind units.old (own.state state.old)) result units.new
        (own.state state.new) }
    ensures calm { Calm result }
    ensures floor { part.entry.floor ≤ length state.new.metas }
    ensures below { take part.entry.floor state.new.metas ≡ take part.entry.floor state.old.metas }
{
    if !is_definition(kind) {
        return Err(fails_as(at, ProofItem::Unfold));
    }
    let equation = equation_of(part.alloc, name)?;
    made_equation(part, units, state, at, &equation)
}

// The equation of what has this meaning.
#[tactic(auto, using(crate::proofs::Unfolded::constant_is), unfolding(crate::specs::Unfolds::made_equation))]
fn equation_for<S: Synth>(
    part: Part<'_, S>,
    units: &mut u64,
    state: &mut State,
    at: usize,
    meaning: Meaning<'_>,
) -> Result<Typed, Ended>
    requires { part.floor ≤ length state.old.metas }
    ensures value { Runs (spec.equation_for (own.part S.meaning part.entry) at (meanings.meaning meaning.entry) units.old (own.state state.old)) result
        units.new (own.state state.new) }
    ensures calm { Calm result }
    ensures floor { part.entry.floor ≤ length state.new.metas }
    ensures below { take part.entry.floor state.new.metas ≡ take part.entry.floor state.old.metas }
{
    match meaning {
        Meaning::Constant(name, info) => {
            equation_of_kind(part, units, state, at, &name, info.kind)
        }
        Meaning::OwnType(_) | Meaning::Nothing => Err(fails_as(at, ProofItem::Unfold)),
        Meaning::Waits(key) => Err(Ended::Need(key)),
    }
}

/// The term of `unfold` at this place, in bytes: the first equation of the definition that is found for the name, at fresh levels. It is asked
/// for, and costs a unit and its type's nodes. `unfold` fails where a local has the name, and where no definition is found; Need where that or
/// the equation has to be made first.
pub fn unfolding_term<S: Synth>(
    part: Part<'_, S>,
    locals: &Locals,
    units: &mut u64,
    state: &mut State,
    at: usize,
    x: &Ident,
) -> Result<Typed, Ended>
    requires { part.floor ≤ length state.old.metas }
    ensures value { Runs (spec.unfolding_term (own.part S.meaning part.entry) locals.now at x.now units.old (own.state state.old)) result units.new
        (own.state state.new) }
    ensures calm { Calm result }
    ensures floor { part.entry.floor ≤ length state.new.metas }
    ensures below { take part.entry.floor state.new.metas ≡ take part.entry.floor state.old.metas }
{
    match local_named(locals.names.as_slice(), &x.name)? {
        Some(_) => Err(fails_as(at, ProofItem::Unfold)),
        None => {
            let meaning = meaning_of(part, &x.name)?;
            equation_for(part, units, state, at, meaning)
        }
    }
}
