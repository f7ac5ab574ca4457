//! The level names of declarations.
ghost use Rattle.std.specs.Prelude.{◌≡◌, ◌++◌, ◌∷◌, [], IfOk, OnOk, filter, option_copied};
ghost use Rattle.lf_rules.specs.Recursor.{is_among};
ghost use Rattle.lf_elaboration.specs.Scope.{names_of};
ghost use Rattle.lf_elaboration.specs.Variables.{any, each_once, names_level, repeated_level};

use crate::naming::is_any_level;
use lf_base::NoMemory;
use lf_elaboration::Reference;
use lf_name::Name;
use lf_syntax::Ident;
use std::alloc::Global;

fn names(alloc: Global, idents: &[Ident]) -> Result<Vec<Name>, NoMemory>
    ensures { IfOk result (λ all. all.items ≡ names_of idents.now) }
{
    let mut all = Vec::new(alloc);
    for ident in idents {
        all.push(ident.name.copy(alloc)?)?;
    }
    Ok(all)
}

fn is_among(name: &Name, names: &[Name]) -> bool
    ensures { result ≡ is_among name.now names.now }
{
    for other in names {
        if name.is(other) {
            return true;
        }
    }
    false
}

/// Adds a universe name, where the references refer to it and it isn't there.
fn add_level(
    alloc: Global,
    level: &Name,
    references: &[Reference],
    all: &mut Vec<Name>,
) -> Result<(), NoMemory>
    ensures { OnOk result (all.new.items ≡ all.old.items ++ each_once all.old.items (filter (λ u. any (names_level u) references.now) (level.now ∷ []))) }
{
    if is_any_level(references, level) && !is_among(level, all) {
        all.push(level.copy(alloc)?)?;
    }
    Ok(())
}

/// The written level names, and behind them the universe names to which the references refer, in order, each once and
/// none that is written. `NoMemory` is the one fault.
pub fn level_names(
    alloc: Global,
    written: &[Ident],
    universes: &[Name],
    references: &[Reference],
) -> Result<Vec<Name>, NoMemory>
    ensures { IfOk result (λ all. all.items
        ≡ names_of written.now ++ each_once (names_of written.now) (filter (λ u. any (names_level u) references.now) universes.now)) }
{
    let mut all = names(alloc, written)?;
    for level in universes {
        add_level(alloc, level, references, &mut all)?;
    }
    Ok(all)
}

/// Whether one of the identifiers has this name.
fn is_one_of(name: &Name, idents: &[Ident]) -> bool
    ensures { result ≡ is_among name.now (names_of idents.now) }
{
    for ident in idents {
        if name.is(&ident.name) {
            return true;
        }
    }
    false
}

/// The first of the level names that repeats an earlier one.
pub fn repeated_level(levels: &[Ident]) -> Option<&Ident>
    ensures { option_copied result ≡ repeated_level levels.now }
{
    for (i, level) in levels.iter().enumerate() {
        if is_one_of(&level.name, &levels[..i]) {
            return Some(level);
        }
    }
    None
}
