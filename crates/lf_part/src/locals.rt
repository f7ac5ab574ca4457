//! The locals of a place.
ghost use Rattle.std.specs.Prelude.{◌≡◌, OnOk, OnErr};
ghost use Rattle.lf_elaboration.specs.Part.{with_local};
ghost use Rattle.lf_part.specs.Local.{front, without_last};

use lf_core::{Expr, Name, NoMemory};
use std::alloc::Global;
use std::marker::Model;

/// The locals of a place: their types, and a name for each. Contracts see the definition's `Locals`.
#[derive(Debug, Drop)]
pub struct Locals {
    pub types: Vec<Expr>,
    pub names: Vec<Name>,
}

impl Model for Locals {
    ghost use Rattle.std.specs.Coded.{codes};
    ghost use Rattle.lf_core.specs.Codes.{coded_term};
    ghost use Rattle.lf_elaboration.specs.Part as part;

    ghost Value = { part.Locals };

    ghost coded = { Prim.hlevel (codes, coded_term) };

    ghost view = { λ l. record { types = l.types.items; names = l.names.items } };
}

// The last item is taken away.
#[tactic(auto, using(crate::proofs::Fronts::front_push, crate::proofs::Fronts::front_none))]
fn shorten<T: Drop>(list: &mut Vec<T>)
    ensures { list.new.items ≡ front list.old.items }
{
    match list.pop() {
        None => {}
        Some(last) => drop(last),
    }
}

impl Locals {
    /// One more local of this name and type, at the end.
    pub fn open(&mut self, alloc: Global, name: &Name, ty: &Expr) -> Result<(), NoMemory>
        ensures ok { OnOk result (self.new ≡ with_local self.old name.now ty.now) }
        ensures err { OnErr result (self.new ≡ self.old) }
    {
        let ty = ty.copy(alloc)?;
        let name = name.copy(alloc)?;
        self.types.push(ty)?;
        if self.names.push(name).is_err() {
            let _last = self.types.pop();
            return Err(NoMemory);
        }
        Ok(())
    }

    /// The last local is taken away.
    pub fn close(&mut self)
        ensures { self.new ≡ without_last self.old }
    {
        shorten(&mut self.types);
        shorten(&mut self.names);
    }
}
