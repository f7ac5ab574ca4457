//! The binders of the second side.
ghost use Rattle.std.specs.Prelude.{◌≡◌, ◌++◌, ◌<◌, length, IfOk, OnOk};
ghost use Rattle.lf_elaboration.specs.Injectivity as spec;

use lf_core::{Binder, Name, NoMemory, Word};
use lf_recursor::Local;
use sqlite_items::Items;
use std::alloc::Global;

// Puts the words behind `all`, the last with a prime behind it.
fn push_primed(alloc: Global, all: &mut Items<Word>, words: &[Word]) -> Result<(), NoMemory>
    ensures { OnOk result (all.new ≡ all.old ++ spec.primed words.now) }
{
    match words {
        [] => Ok(()),
        [word] => {
            let text = word.as_str();
            let longer = format!(in alloc; "{text}'")?;
            all.push(Word::new(alloc, longer.as_str())?)?;
            Ok(())
        }
        [word, words @ ..] => {
            all.push(word.copy(alloc)?)?;
            push_primed(alloc, all, words)
        }
    }
}

// The name with a prime behind its last part.
#[tactic(auto, using(crate::proofs::Parts::primed_has_parts))]
fn primed(alloc: Global, name: &Name) -> Result<Name, NoMemory>
    ensures { IfOk result (λ n. n ≡ spec.primed name.now) }
{
    let mut words = Items::new(alloc);
    push_primed(alloc, &mut words, name.parts())?;
    Name::new(alloc, words)
}

// Puts the locals with primed names behind `all`.
fn push_primes(all: &mut Vec<Local>, locals: &[Local]) -> Result<(), NoMemory>
    ensures { OnOk result (all.new.items ≡ all.old.items ++ spec.with_primes locals.now) }
{
    let alloc = *all.allocator();
    match locals {
        [] => Ok(()),
        [x, xs @ ..] => {
            let name = primed(alloc, &x.binder.name)?;
            let kind = x.binder.kind;
            let ty = x.ty.copy(alloc)?;
            let binder = Binder { name, kind };
            all.push(Local { binder, ty })?;
            push_primes(all, xs)
        }
    }
}

/// The locals with a prime behind each name.
pub fn with_primes(alloc: Global, locals: &[Local]) -> Result<Vec<Local>, NoMemory>
    ensures { IfOk result (λ all. all.items ≡ spec.with_primes locals.now) }
{
    let mut all = Vec::new(alloc);
    push_primes(&mut all, locals)?;
    Ok(all)
}

/// Puts copies of these locals behind `all`.
pub fn push_copies(all: &mut Vec<Local>, locals: &[Local]) -> Result<(), NoMemory>
    ensures { OnOk result (all.new.items ≡ all.old.items ++ locals.now) }
{
    let alloc = *all.allocator();
    match locals {
        [] => Ok(()),
        [x, xs @ ..] => {
            all.push(x.copy(alloc)?)?;
            push_copies(all, xs)
        }
    }
}
