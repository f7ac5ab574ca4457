//! How large a term may become where a motive is put in.
ghost use Rattle.std.specs.Prelude.{◌≡◌, ◌+◌, ◌↔◌, IsTrue, true};
ghost use Rattle.lf_cases.specs.Limited.{PutsTerm, Inner, Beside, excess};
ghost use Rattle.lf_cases.specs.declared.limit.PutFault.TheVariants as fault;

use lf_core::{Expr, NoMemory};
use std::alloc::Global;

/// How many nodes and how deep. Whether what is made is a part of what was asked for is `firm`: a part that passes a
/// limit then shows that the whole does; a part that may be reduced away shows nothing.
#[derive(Clone, Copy, Debug)]
pub struct Limit {
    pub firm: bool,
    pub room: u64,
    pub deep: u32,
}

/// The limit of what may be reduced away.
pub const LOOSE: Limit = Limit {
    firm: false,
    room: 16777216,
    deep: 4294967295,
};

/// Why nothing is put in.
#[derive(Clone, Copy, Debug)]
pub enum PutFault {
    /// The whole passes its limit.
    TooLarge,
    NoMemory,
}

impl From<NoMemory> for PutFault {
    ghost use Rattle.std.specs.Prelude.{◌≡◌};
    ghost use Rattle.lf_cases.specs.declared.limit.PutFault.TheVariants as fault;

    ghost from_gives = { λ _ e. e ≡ fault.NoMemory };

    fn from(_: NoMemory) -> PutFault {
        PutFault::NoMemory
    }
}

impl Limit {
    // What passes this limit.
    fn passed(self) -> PutFault
        ensures { (result ≡ fault.TooLarge) → self.firm ≡ true }
    {
        if self.firm {
            PutFault::TooLarge
        } else {
            PutFault::NoMemory
        }
    }

    // Whether so many nodes of this depth are within the limit.
    fn holds(self, nodes: u64, depth: u32) -> bool
        ensures { IsTrue result ↔ (excess self nodes depth ≡ 0) }
    {
        nodes <= self.room && depth <= self.deep
    }

    /// What is left for a part of a node beside parts with so many nodes.
    pub fn inner(self, used: u64) -> Result<Limit, PutFault>
        ensures { Inner self used result }
    {
        if self.room <= used || self.deep == 0 {
            return Err(self.passed());
        }
        Ok(Limit {
            firm: self.firm,
            room: self.room - used - 1,
            deep: self.deep - 1,
        })
    }

    /// What is left beside parts with so many nodes, at the same depth.
    pub fn beside(self, used: u64) -> Result<Limit, PutFault>
        ensures { Beside self used result }
    {
        if self.room < used {
            return Err(self.passed());
        }
        Ok(Limit {
            firm: self.firm,
            room: self.room - used,
            deep: self.deep,
        })
    }

    /// The term, where it is within the limit.
    pub fn whole(self, term: Expr) -> Result<Expr, PutFault>
        ensures { PutsTerm self term result }
    {
        if !self.holds(term.node_count(), term.depth()) {
            drop(term);
            return Err(self.passed());
        }
        Ok(term)
    }

    /// The term itself, where it is within the limit.
    pub fn term(self, alloc: Global, term: &Expr) -> Result<Expr, PutFault>
        ensures { PutsTerm self term.now result }
    {
        if !self.holds(term.node_count(), term.depth()) {
            return Err(self.passed());
        }
        Ok(term.copy(alloc)?)
    }
}
