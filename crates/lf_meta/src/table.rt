//! What the metavariables of one kind stand for, by their numbers.
ghost use Rattle.std.specs.Prelude.{◌≡◌, ◌<◌, ℕ, None, OnOk, length, nat_eq, if◌then◌else◌};
ghost use Rattle.lf_meta.specs.Kept.{stands_at};

use lf_core::NoMemory;
use sqlite_items::Items;

/// Rows up to this number, with nothing in the new ones.
#[tactic(auto, using(crate::proofs::Tables::nothing_more))]
pub fn reach<T: Drop>(rows: &mut Items<Option<T>>, number: usize) -> Result<(), NoMemory>
    ensures same { (k : ℕ) → stands_at rows.new k ≡ stands_at rows.old k }
    ensures reached { OnOk result (number < length rows.new) }
{
    'rows: while rows.len() <= number {
        rows.push(None)?;
    }
    Ok(())
}

/// This number stands for nothing.
#[tactic(auto, using(crate::proofs::Tables::written, crate::proofs::Tables::unwritten))]
pub fn clear<T: Drop>(rows: &mut Items<Option<T>>, number: usize)
    ensures { (k : ℕ) → stands_at rows.new k ≡ (if nat_eq number k then None else stands_at rows.old k) }
{
    if number < rows.len() {
        rows.set(number, None);
    }
}
