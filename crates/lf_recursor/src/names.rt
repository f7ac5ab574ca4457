//! Names and levels of recursors.
ghost use Rattle.std.specs.Prelude.{◌≡◌, ◌++◌, codes, decimal, IfOk, OnOk};
ghost use Rattle.lf_rules.specs.Recursor as spec;

use lf_core::{Level, Name, NoMemory, Word};
use sqlite_items::Items;
use std::alloc::Global;

// Puts the words behind `all`, the last with `_ih` behind it.
fn push_hypothesis_words(
    alloc: Global,
    all: &mut Items<Word>,
    words: &[Word],
) -> Result<(), NoMemory>
    ensures { OnOk result (all.new ≡ all.old ++ spec.hypothesis_name words.now) }
{
    match words {
        [] => Ok(()),
        [word] => {
            let text = word.as_str();
            let longer = format!(in alloc; "{text}_ih")?;
            all.push(Word::new(alloc, longer.as_str())?)?;
            Ok(())
        }
        [word, words @ ..] => {
            all.push(word.copy(alloc)?)?;
            push_hypothesis_words(alloc, all, words)
        }
    }
}

/// The name of the hypothesis of a field of this name.
#[tactic(auto, using(crate::proofs::Lists::hypothesis_has_parts))]
pub fn hypothesis_name(alloc: Global, field: &Name) -> Result<Name, NoMemory>
    ensures { IfOk result (λ n. n ≡ spec.hypothesis_name field.now) }
{
    let mut words = Items::new(alloc);
    push_hypothesis_words(alloc, &mut words, field.parts())?;
    Name::new(alloc, words)
}

// The name that is the last of the words.
fn last_word(alloc: Global, words: &[Word]) -> Result<Name, NoMemory>
    ensures { IfOk result (λ n. n ≡ spec.last_part words.now) }
{
    match words {
        [] => Err(NoMemory),
        [word] => Name::one(alloc, word.as_str()),
        [_word, words @ ..] => last_word(alloc, words),
    }
}

/// The name that is the last part of this one.
pub fn last_part(alloc: Global, name: &Name) -> Result<Name, NoMemory>
    ensures { IfOk result (λ n. n ≡ spec.last_part name.now) }
{
    last_word(alloc, name.parts())
}

fn is_among(name: &Name, names: &[Name]) -> bool
    ensures { result ≡ spec.is_among name.now names.now }
{
    match names {
        [] => false,
        [m, ms @ ..] => name.is(m) || is_among(name, ms),
    }
}

fn level_name(alloc: Global, k: u32) -> Result<Name, NoMemory>
    ensures { IfOk result (λ n. n ≡ spec.named (codes "u_" ++ decimal k)) }
{
    let text = format!(in alloc; "u_{k}")?;
    Name::one(alloc, text.as_str())
}

#[tactic(auto, using(crate::proofs::Lists::level_is, crate::proofs::Lists::level_after))]
fn numbered_level(alloc: Global, k: u32, tries: usize, taken: &[Name]) -> Result<Name, NoMemory>
    ensures { IfOk result (λ n. n ≡ spec.numbered_level k tries taken.now) }
{
    let name = level_name(alloc, k)?;
    if tries == 0 || !is_among(&name, taken) {
        return Ok(name);
    }
    let next = k.checked_add(1).ok_or(NoMemory)?;
    numbered_level(alloc, next, tries - 1, taken)
}

/// `u`, or else the first of `u_1`, `u_2` and so on that isn't taken.
pub fn motive_level_name(alloc: Global, taken: &[Name]) -> Result<Name, NoMemory>
    ensures { IfOk result (λ n. n ≡ spec.motive_level_name taken.now) }
{
    let name = Name::one(alloc, "u")?;
    if is_among(&name, taken) {
        return numbered_level(alloc, 1, taken.len(), taken);
    }
    Ok(name)
}

// Puts `n` parameters from `k` on behind `all`.
#[tactic(auto, using(crate::proofs::Lists::parameters_one))]
fn push_parameters(alloc: Global, all: &mut Items<Level>, k: u32, n: usize) -> Result<(), NoMemory>
    ensures { OnOk result (all.new ≡ all.old ++ spec.parameters_from k n) }
{
    if n == 0 {
        return Ok(());
    }
    all.push(Level::param(alloc, k)?)?;
    let next = k.checked_add(1).ok_or(NoMemory)?;
    push_parameters(alloc, all, next, n - 1)
}

/// `n` level parameters from `k` on.
pub fn parameters_from(alloc: Global, k: u32, n: usize) -> Result<Items<Level>, NoMemory>
    ensures { IfOk result (λ ls. ls ≡ spec.parameters_from k n) }
{
    let mut all = Items::new(alloc);
    push_parameters(alloc, &mut all, k, n)?;
    Ok(all)
}
