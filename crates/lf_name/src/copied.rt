//! Copies of lists.
ghost use Rattle.std.specs.Prelude.{◌≡◌, IfOk};

use lf_base::NoMemory;
use sqlite_items::Items;
use std::alloc::Global;

/// What can be copied into memory of its own.
pub trait Copied: Drop {
    /// An equal value.
    fn copied(&self, alloc: Global) -> Result<Self, NoMemory>
        ensures { IfOk result (λ c. c ≡ self.now) };
}

/// A list equal to `list`.
pub fn copy_all<T: Copied>(alloc: Global, list: &[T]) -> Result<Items<T>, NoMemory>
    ensures { IfOk result (λ all. all ≡ list.now) }
{
    let mut all = Items::new(alloc);
    for item in list {
        all.push(item.copied(alloc)?)?;
    }
    Ok(all)
}
