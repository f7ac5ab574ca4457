//! Words.
ghost use Rattle.std.specs.Prelude.{◌≡◌, ◌↔◌, IsTrue, IfOk};
ghost use Rattle.std.specs.Str.{bytes_eq};

use crate::copied::Copied;
use lf_base::NoMemory;
use std::alloc::Global;
use std::marker::Model;

/// A text that contracts see as its bytes.
#[derive(Debug, Drop)]
pub struct Word {
    text: String,
}

impl Model for Word {
    ghost use Rattle.std.specs.Prelude.{List, ℕ, string_bytes};

    ghost Value = { List ℕ };

    ghost view = { λ w. string_bytes w.text };
}

impl Word {
    /// The word with this text.
    pub fn new(alloc: Global, text: &str) -> Result<Word, NoMemory>
        ensures { IfOk result (λ w. w ≡ text.now) }
    {
        let mut own = String::new(alloc);
        own.push_str(text)?;
        Ok(Word { text: own })
    }

    /// The text.
    pub fn as_str(&self) -> &str
        ensures { result.now ≡ self.now }
    {
        self.text.as_str()
    }

    /// An equal word.
    pub fn copy(&self, alloc: Global) -> Result<Word, NoMemory>
        ensures { IfOk result (λ w. w ≡ self.now) }
    {
        Word::new(alloc, self.text.as_str())
    }

    /// Whether the two texts are the same bytes.
    pub fn is(&self, other: &Word) -> bool
        ensures exact { IsTrue result ↔ (self.now ≡ other.now) }
        ensures same { result ≡ bytes_eq self.now other.now }
    {
        self.text.as_str() == other.text.as_str()
    }
}

impl Copied for Word {
    fn copied(&self, alloc: Global) -> Result<Word, NoMemory> {
        self.copy(alloc)
    }
}
