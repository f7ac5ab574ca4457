//! The names behind prefixes and opened names.
ghost use Rattle.std.specs.Prelude.{◌≡◌, ◌++◌, OnOk, IfOk, map, flat_map, reverse};
ghost use Rattle.lf_elaboration.specs.Scope.{names_of, prefixes};

use crate::chain::Chain;
use lf_base::NoMemory;
use lf_name::{Name, Word, copy_all};
use lf_syntax::{Ident, Shared};
use std::alloc::Global;

/// The name behind a prefix, which may be empty.
pub fn joined(alloc: Global, prefix: &[Word], name: &Name) -> Result<Name, NoMemory>
    ensures { IfOk result (λ n. n ≡ prefix.now ++ name.now) }
{
    let mut parts = copy_all(alloc, prefix)?;
    for part in name.parts() {
        parts.push(part.copy(alloc)?)?;
    }
    Name::new(alloc, parts)
}

/// Adds the name behind each prefix of `first`, the longest first, the empty one last.
pub fn add_prefixed(
    alloc: Global,
    first: &[Word],
    name: &Name,
    all: &mut Vec<Name>,
) -> Result<(), NoMemory>
    ensures { OnOk result (all.new.items ≡ all.old.items ++ map (λ p. p ++ name.now) (prefixes first.now)) }
{
    let mut count = first.len();
    'prefixes: loop {
        all.push(joined(alloc, &first[..count], name)?)?;
        if count == 0 {
            return Ok(());
        }
        count -= 1;
    }
}

/// Adds the name behind each of the identifiers, the latest first.
#[tactic(auto, using(crate::proofs::Lists::behind_take))]
fn add_behind(
    alloc: Global,
    idents: &[Ident],
    name: &Name,
    all: &mut Vec<Name>,
) -> Result<(), NoMemory>
    ensures { OnOk result (all.new.items ≡ all.old.items ++ map (λ o. o ++ name.now) (reverse (names_of idents.now))) }
{
    let mut count = idents.len();
    'idents: while count > 0 {
        count -= 1;
        all.push(joined(alloc, idents[count].name.parts(), name)?)?;
    }
    Ok(())
}

/// Adds the name behind each opened name, the latest first.
pub fn add_opened(
    alloc: Global,
    opened: &Chain<Shared<Ident>>,
    name: &Name,
    all: &mut Vec<Name>,
) -> Result<(), NoMemory>
    ensures { OnOk result (all.new.items ≡ all.old.items ++ map (λ o. o ++ name.now) (reverse (flat_map names_of opened.now))) }
{
    let mut rest = opened;
    'commands: while let Some((before, idents)) = rest.split() {
        add_behind(alloc, idents.as_slice(), name, all)?;
        rest = before;
    }
    Ok(())
}
