//! How far a walk along assignments may go.
ghost use Rattle.lf_meta.specs.Limited.{Deeper, Further};

use crate::limit::PutFault;

/// So many assignments, one within the other, may be followed yet, and so many calls be nested.
#[derive(Clone, Copy, Debug)]
pub struct Reach {
    pub chain: u32,
    pub nesting: u32,
}

impl Reach {
    /// One call deeper. Nesting of calls takes memory.
    pub fn inner(self) -> Result<Reach, PutFault>
        ensures { Deeper self result }
    {
        if self.nesting == 0 {
            return Err(PutFault::NoMemory);
        }
        Ok(Reach {
            chain: self.chain,
            nesting: self.nesting - 1,
        })
    }

    /// One assignment and one call further.
    pub fn next(self) -> Result<Reach, PutFault>
        ensures { Further self result }
    {
        if self.chain == 0 {
            return Err(PutFault::NoMemory);
        }
        let inner = self.inner()?;
        Ok(Reach {
            chain: self.chain - 1,
            nesting: inner.nesting,
        })
    }
}
