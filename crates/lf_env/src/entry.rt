ghost use Rattle.std.specs.Prelude.{◌≡◌, ⊤, IfOk, fold};
ghost use Rattle.std.specs.List.{flat_map};
ghost use Rattle.std.specs.Hash as fed;
ghost use Rattle.lf_core.specs.Same.{same_path};
ghost use Rattle.lf_name.proofs.Names.{path_equivalence};
ghost use Rattle.lf_env.specs.Names.{entry_equivalence, path_fed, path_flipped, path_congruent};
ghost use Rattle.std.specs.Cmp.{partial_equiv_from_equiv, on_equiv};

use indexmap::Equivalent;
use lf_core::{ConstInfo, Name, NoMemory, Word};
use std::alloc::{AllocError, Global};
use std::hash::{Hash, Hasher};
use std::marker::Model;
use std::sync::Arc;

/// A constant with the position of its command, the constant shared. Two are equal where their names are, so that
/// a set of them is a table by name.
#[derive(Drop)]
pub struct SharedEntry {
    info: Arc<ConstInfo>,
    position: u32,
}

impl Model for SharedEntry {
    ghost use Rattle.std.specs.Arc.{arc_value};
    ghost use Rattle.lf_checker.specs.View.{Entry};

    ghost Value = { Entry };

    ghost use Rattle.std.specs.Coded.{codes};
    ghost use Rattle.lf_core.specs.Codes.{coded_term};

    ghost coded = { Prim.hlevel (codes, coded_term) };

    ghost view = { λ e. record { info = arc_value e.info; position = e.position } };
}

impl SharedEntry {
    /// The entry of this constant at this position.
    pub fn new(alloc: Global, info: ConstInfo, position: u32) -> Result<SharedEntry, NoMemory>
        ensures { IfOk result (λ e. e ≡ record { info = info; position = position }) }
    {
        Ok(SharedEntry {
            info: Arc::new(alloc, info)?,
            position,
        })
    }

    /// An equal entry. It takes no memory, but a count of owners that is at its end is refused.
    pub fn share(&self) -> Result<SharedEntry, NoMemory>
        ensures { IfOk result (λ e. e ≡ self.now) }
    {
        Ok(SharedEntry {
            info: Arc::try_clone(&self.info)?,
            position: self.position,
        })
    }

    /// The constant.
    pub fn info(&self) -> &ConstInfo
        ensures { result.now ≡ self.now.info }
    {
        &self.info
    }

    /// The position of its command.
    pub fn position(&self) -> u32
        ensures { result ≡ self.now.position }
    {
        self.position
    }
}

fn hash_words<H: Hasher>(words: &[Word], state: &mut H)
    ensures { state.new ≡ fold H.write state.old (flat_map fed.str words.now) }
{
    for word in words {
        word.as_str().hash(state);
    }
}

impl PartialEq for SharedEntry {
    ghost eq = { λ a b. same_path a.info.name b.info.name };

    ghost laws = { partial_equiv_from_equiv entry_equivalence };

    fn eq(&self, other: &SharedEntry) -> bool {
        self.info.name.is(&other.info.name)
    }
}

impl Eq for SharedEntry {
    ghost laws = { entry_equivalence };
}

impl Hash for SharedEntry {
    ghost hash_input = { λ e. flat_map fed.str e.info.name };

    ghost respects_eq = { λ a b. path_fed a.info.name b.info.name };

    fn hash<H: Hasher>(&self, state: &mut H) {
        hash_words(self.info.name.parts(), state);
    }
}

/// The parts of a name, by which an entry is looked up.
pub struct NameParts<'a> {
    words: &'a [Word],
}

impl<'a> NameParts<'a> {
    /// These parts.
    pub fn new(words: &'a [Word]) -> NameParts<'a>
        ensures { result.words.now ≡ words.now }
    {
        NameParts { words }
    }
}

impl Clone for NameParts<'_> {
    ghost is_clone = { λ x y. y ≡ x };

    ghost is_infallible = { λ _. ⊤ };

    fn clone(&self) -> Result<Self, AllocError> {
        Ok(*self)
    }
}

impl Copy for NameParts<'_> {}

impl PartialEq for NameParts<'_> {
    ghost eq = { λ a b. same_path a.words.now b.words.now };

    ghost laws = { partial_equiv_from_equiv (on_equiv (λ a. a.words.now) path_equivalence) };

    fn eq(&self, other: &Self) -> bool {
        lf_core::same_parts(self.words, other.words)
    }
}

impl Eq for NameParts<'_> {
    ghost laws = { on_equiv (λ a. a.words.now) path_equivalence };
}

impl Hash for NameParts<'_> {
    ghost hash_input = { λ a. flat_map fed.str a.words.now };

    ghost respects_eq = { λ a b. path_fed a.words.now b.words.now };

    fn hash<H: Hasher>(&self, state: &mut H) {
        hash_words(self.words, state);
    }
}

impl Equivalent<SharedEntry> for NameParts<'_> {
    ghost equivalent = { λ a e. same_path e.info.name a.words.now };

    ghost respects_hash = { λ a e h. path_fed a.words.now e.info.name (path_flipped a.words.now e.info.name h) };

    ghost respects_eq = { λ a x y. path_congruent a.words.now x.info.name y.info.name };

    fn equivalent(&self, entry: &SharedEntry) -> bool {
        lf_core::same_parts(entry.info().name.parts(), self.words)
    }
}
