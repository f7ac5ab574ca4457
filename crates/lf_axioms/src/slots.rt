//! A name for each place that has one.
ghost use Rattle.std.specs.Prelude.{◌≡◌, OnOk, IfOk};
ghost use Rattle.lf_axioms.specs.Slots.{with_at, somes};

use lf_core::{Name, NoMemory};
use std::alloc::Global;

/// Puts a name at a place; the places before it stay empty where there was none.
#[tactic(auto, using(crate::proofs::Places::within, crate::proofs::Places::wider, crate::proofs::Places::at_end))]
pub fn put(slots: &mut Vec<Option<Name>>, place: usize, name: Name) -> Result<(), NoMemory>
    ensures { OnOk result (slots.new.items ≡ with_at slots.old.items place name) }
{
    'empty: for _place in slots.len()..place {
        slots.push(None)?;
    }
    if place < slots.len() {
        slots[place] = Some(name);
        return Ok(());
    }
    slots.push(Some(name))?;
    Ok(())
}

/// The names, in the order of their places.
pub fn names(alloc: Global, slots: Vec<Option<Name>>) -> Result<Vec<Name>, NoMemory>
    ensures { IfOk result (λ all. all.items ≡ somes slots.items) }
{
    let mut all = Vec::new(alloc);
    for slot in slots {
        if let Some(name) = slot {
            all.push(name)?;
        }
    }
    Ok(all)
}
