ghost use Rattle.std.specs.Prelude.{◌≡◌, IfOk};

use crate::leaf::Ident;
use crate::shared::Shared;
use crate::term::Term;
use lf_base::NoMemory;
use std::alloc::Global;

/// What an alternative stands for.
#[derive(Debug, Drop)]
pub enum Pattern {
    /// A constructor and names for its fields.
    Constructor { name: Ident, fields: Shared<Ident> },
    /// The numeral `0`.
    Zero { at: usize },
    /// `name + 1`.
    Successor { name: Ident },
}

/// An alternative of a definition; `at` is the place of its `|`.
#[derive(Debug, Drop)]
pub struct Alternative {
    pub at: usize,
    pub pattern: Pattern,
    pub term: Term,
}

impl Pattern {
    /// An equal pattern; `NoMemory` is its one fault.
    pub fn copy(&self, alloc: Global) -> Result<Pattern, NoMemory>
        ensures { IfOk result (λ p. p ≡ self.now) }
    {
        match self {
            Pattern::Constructor { name, fields } => Ok(Pattern::Constructor {
                name: name.copy(alloc)?,
                fields: fields.copy(alloc)?,
            }),
            Pattern::Zero { at } => Ok(Pattern::Zero { at: *at }),
            Pattern::Successor { name } => Ok(Pattern::Successor {
                name: name.copy(alloc)?,
            }),
        }
    }
}

impl Alternative {
    /// An equal alternative; `NoMemory` is its one fault.
    pub fn copy(&self, alloc: Global) -> Result<Alternative, NoMemory>
        ensures { IfOk result (λ a. a ≡ self.now) }
    {
        Ok(Alternative {
            at: self.at,
            pattern: self.pattern.copy(alloc)?,
            term: self.term.copy(alloc)?,
        })
    }
}
