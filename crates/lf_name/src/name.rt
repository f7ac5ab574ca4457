//! Dotted names.
ghost use Rattle.std.specs.Prelude.{◌≡◌, ◌↔◌, ◌<◌, ◌++◌, ◌∷◌, [], ℕ, List, IsTrue, IfOk, length};
ghost use Rattle.lf_name.specs.Same.{same_path};

use crate::copied::{Copied, copy_all};
use crate::word::Word;
use lf_base::NoMemory;
use sqlite_items::Items;
use std::alloc::Global;
use std::marker::Model;
use std::sync::Arc;

/// A name by its parts, of which there is at least one. Copies share their text.
#[derive(Debug, Drop)]
pub struct Name {
    parts: Arc<Items<Word>>,
}

impl Model for Name {
    ghost use Rattle.std.specs.Prelude.{List, ℕ, ◌<◌, length};
    ghost use Rattle.std.specs.Arc.{arc_value};

    ghost Value = { List (List ℕ) };

    ghost view = { λ n. arc_value n.parts };

    ghost invariant = { λ n. 0 < length (arc_value n.parts) };
}

/// Whether the two lists have the same words, place by place.
pub fn same_parts(a: &[Word], b: &[Word]) -> bool
    ensures exact { IsTrue result ↔ (a.now ≡ b.now) }
    ensures same { result ≡ same_path a.now b.now }
{
    match a {
        [] => match b {
            [] => true,
            [_y, _ys @ ..] => false,
        },
        [x, xs @ ..] => match b {
            [] => false,
            [y, ys @ ..] => x.is(y) && same_parts(xs, ys),
        },
    }
}

impl Name {
    /// The name with these parts.
    pub fn new(alloc: Global, parts: Items<Word>) -> Result<Name, NoMemory>
        requires { 0 < length parts }
        ensures { IfOk result (λ n. n ≡ parts) }
    {
        Ok(Name {
            parts: Arc::new(alloc, parts)?,
        })
    }

    /// The name of one part.
    pub fn one(alloc: Global, text: &str) -> Result<Name, NoMemory>
        ensures { IfOk result (λ n. n ≡ text.now ∷ []) }
    {
        let mut parts = Items::new(alloc);
        parts.push(Word::new(alloc, text)?)?;
        Name::new(alloc, parts)
    }

    /// This name with one more part at its end.
    pub fn child(&self, alloc: Global, last: &str) -> Result<Name, NoMemory>
        ensures { IfOk result (λ n. n ≡ self.now ++ last.now ∷ []) }
    {
        let mut parts = copy_all(alloc, self.parts())?;
        parts.push(Word::new(alloc, last)?)?;
        Name::new(alloc, parts)
    }

    /// The parts, from the left.
    pub fn parts(&self) -> &[Word]
        ensures parts { result.now ≡ self.now }
        ensures nonempty { 0 < length self.now }
    {
        self.parts.as_slice()
    }

    /// Whether the two names have the same parts.
    pub fn is(&self, other: &Name) -> bool
        ensures exact { IsTrue result ↔ (self.now ≡ other.now) }
        ensures same { result ≡ same_path self.now other.now }
    {
        same_parts(self.parts(), other.parts())
    }

    /// An equal name. It takes no memory, but a count of owners that is at its end is refused.
    pub fn copy(&self, _alloc: Global) -> Result<Name, NoMemory>
        ensures { IfOk result (λ n. n ≡ self.now) }
    {
        Ok(Name {
            parts: Arc::try_clone(&self.parts)?,
        })
    }

    /// Whether this name is `prefix` with exactly one more part.
    pub fn is_child_of(&self, prefix: &Name) -> bool
        ensures { IsTrue result ↔ ((last : List ℕ) × (self.now ≡ prefix.now ++ last ∷ [])) }
    {
        match self.parts() {
            [front @ .., _last] => same_parts(front, prefix.parts()),
            [] => false,
        }
    }
}

impl Copied for Name {
    fn copied(&self, alloc: Global) -> Result<Name, NoMemory> {
        self.copy(alloc)
    }
}
