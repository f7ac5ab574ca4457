ghost use Rattle.std.specs.Prelude.{◌≡◌, IfOk};

use lf_base::NoMemory;
use lf_name::Name;
use std::alloc::Global;

/// An identifier as it is written.
#[derive(Debug, Drop)]
pub struct Ident {
    /// Where it begins, in bytes.
    pub at: usize,
    pub name: Name,
}

/// A numeral.
#[derive(Clone, Copy, Debug)]
pub struct Num {
    /// Where it begins, in bytes.
    pub at: usize,
    pub value: u128,
}

/// Why the tokens of a command are no command.
#[derive(Clone, Copy, Debug, PartialEq, Eq)]
pub enum SyntaxFault {
    /// A token that can't stand there.
    Token,
    /// The tokens begin a command and end before it does.
    End,
    /// A character that begins no token.
    Char,
    /// A comment that isn't closed.
    Comment,
    /// A numeral that runs into an identifier.
    Numeral,
    /// A numeral of more than 128 bits.
    Wide,
    /// More than 256 levels of nesting.
    Deep,
}

impl Ident {
    /// An equal identifier; `NoMemory` is its one fault.
    pub fn copy(&self, alloc: Global) -> Result<Ident, NoMemory>
        ensures { IfOk result (λ x. x ≡ self.now) }
    {
        Ok(Ident {
            at: self.at,
            name: self.name.copy(alloc)?,
        })
    }
}
