//! The metavariables that were made, by their numbers.
ghost use Rattle.std.specs.Prelude.{◌≡◌, ◌-◌, [], ◌∷◌, ◌++◌, OnOk, OnErr, length, take};

use lf_core::{Expr, NoMemory};
use sqlite_items::Items;
use std::alloc::Global;

/// For what a metavariable was made.
#[derive(Clone, Copy, Debug, Drop)]
pub struct Origin {
    /// The number of locals of its context.
    pub locals: u32,
    /// The place of the node that made it, in bytes.
    pub at: usize,
}

/// Their types, and for what they were made.
#[derive(Debug, Drop)]
pub struct Rows {
    pub types: Items<Expr>,
    pub origins: Items<Origin>,
}

impl Rows {
    /// None.
    pub fn new(alloc: Global) -> Rows
        ensures { (result.types ≡ []) × (result.origins ≡ []) }
    {
        Rows {
            types: Items::new(alloc),
            origins: Items::new(alloc),
        }
    }

    /// One more. After want of memory they are as before.
    pub fn push(&mut self, ty: Expr, origin: Origin) -> Result<(), NoMemory>
        ensures ok { OnOk result ((self.new.types ≡ self.old.types ++ ty ∷ []) × (self.new.origins ≡ self.old.origins ++ origin ∷ [])) }
        ensures err { OnErr result ((self.new.types ≡ self.old.types) × (self.new.origins ≡ self.old.origins)) }
    {
        self.types.push(ty)?;
        if self.origins.push(origin).is_err() {
            let _last = self.types.pop();
            return Err(NoMemory);
        }
        Ok(())
    }

    /// Without the last.
    pub fn pop(&mut self)
        ensures { (self.new.types ≡ take (length self.old.types - 1) self.old.types)
            × (self.new.origins ≡ take (length self.old.origins - 1) self.old.origins) }
    {
        let _ty = self.types.pop();
        let _origin = self.origins.pop();
    }
}
