//! Lists of terms and of levels.
ghost use Rattle.std.specs.Prelude.{◌≡◌, ◌++◌, OnOk, drop, take};

use lf_core::{Expr, Level, NoMemory};
use sqlite_items::Items;
use std::alloc::Global;

/// Puts these terms, which are shared, behind `all`.
pub fn push_all(all: &mut Vec<Expr>, terms: &[Expr]) -> Result<(), NoMemory>
    ensures { OnOk result (all.new.items ≡ all.old.items ++ terms.now) }
{
    let alloc = *all.allocator();
    match terms {
        [] => Ok(()),
        [term, rest @ ..] => {
            all.push(term.copy(alloc)?)?;
            push_all(all, rest)
        }
    }
}

/// Puts these levels, which are shared, behind `all`.
pub fn push_levels(alloc: Global, all: &mut Items<Level>, levels: &[Level]) -> Result<(), NoMemory>
    ensures { OnOk result (all.new ≡ all.old ++ levels.now) }
{
    match levels {
        [] => Ok(()),
        [level, rest @ ..] => {
            all.push(level.copy(alloc)?)?;
            push_levels(alloc, all, rest)
        }
    }
}

/// The terms but for the first `n`.
pub fn behind(n: usize, terms: &[Expr]) -> &[Expr]
    ensures { result.now ≡ drop n terms.now }
{
    &terms[n.min(terms.len())..]
}

/// The first `n` terms.
pub fn first(n: usize, terms: &[Expr]) -> &[Expr]
    ensures { result.now ≡ take n terms.now }
{
    &terms[..n.min(terms.len())]
}
