//! The axioms among the constants that were visited.
ghost use Rattle.std.specs.Prelude.{◌≡◌, IfOk, OnOk};
ghost use Rattle.std.specs.List.{IsDistinct};
ghost use Rattle.lf_env.specs.Names.{same_entry};
ghost use Rattle.lf_elaboration.specs.Axioms.{axioms_among};
ghost use Rattle.lf_axioms.specs.Walked.{visited};
ghost use Rattle.lf_axioms.specs.Slots.{axiom_place, with_axiom};

use crate::item::Visited;
use crate::slots::{names, put};
use lf_core::{ConstKind, Name, NoMemory};
use lf_env::{Lookup, View};
use std::alloc::Global;

/// The place of the axiom of this name among the entries; `None` where the name has no entry or is no axiom's.
fn place(view: &View, name: &Name) -> Option<usize>
    ensures { result ≡ axiom_place view.now name.now }
{
    match view.lookup(name) {
        Lookup::Found(info) => match info.kind {
            ConstKind::Axiom => match view.placed(name) {
                Some((_position, place)) => Some(place),
                None => None,
            },
            ConstKind::Def
            | ConstKind::Theorem
            | ConstKind::Inductive
            | ConstKind::Constructor
            | ConstKind::Recursor => None,
        },
        Lookup::Absent | Lookup::NeedBody(_) | Lookup::NeedReal => None,
    }
}

/// Puts the name of a constant at its place, where it is an axiom's.
fn put_axiom(
    alloc: Global,
    view: &View,
    name: &Name,
    slots: &mut Vec<Option<Name>>,
) -> Result<(), NoMemory>
    ensures { OnOk result (slots.new.items ≡ with_axiom slots.old.items name.now (axiom_place view.now name.now)) }
{
    match place(view, name) {
        Some(place) => put(slots, place, name.copy(alloc)?),
        None => Ok(()),
    }
}

/// The names of the axioms among these constants, in the order of the view's entries.
pub fn axioms_in_order(
    alloc: Global,
    view: &View,
    seen: &[Visited<'_>],
) -> Result<Vec<Name>, NoMemory>
    requires { IsDistinct same_entry view.now.entries }
    ensures { IfOk result (λ all. all.items ≡ axioms_among (visited seen.now) view.now.entries) }
{
    let mut slots = Vec::new(alloc);
    for constant in seen {
        put_axiom(alloc, view, constant.name(), &mut slots)?;
    }
    names(alloc, slots)
}
