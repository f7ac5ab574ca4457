//! Sets of names.
ghost use Rattle.std.specs.Prelude.{◌≡◌, ◌||◌, ⊤, false, IfOk, OnOk, fold};
ghost use Rattle.std.specs.Cmp.{partial_equiv_from_equiv, on_equiv};
ghost use Rattle.std.specs.Hash as fed;
ghost use Rattle.std.specs.List.{flat_map};
ghost use Rattle.lf_core.specs.Term.{Path};
ghost use Rattle.lf_core.specs.Same.{same_path};
ghost use Rattle.lf_rules.specs.Recursor.{is_among};
ghost use Rattle.lf_name.proofs.Names.{path_equivalence};
ghost use Rattle.lf_env.specs.Names.{path_fed};
ghost use Rattle.lf_join.specs.Sets.{has};

use indexmap::IndexSet;
use lf_core::{Name, NoMemory, Word};
use std::alloc::{AllocError, Global};
use std::hash::{Hash, Hasher};

/// A name as a key of a set.
pub struct ByName<'a> {
    name: &'a Name,
}

impl<'a> ByName<'a> {
    fn new(name: &'a Name) -> ByName<'a>
        ensures { result.name.now ≡ name.now }
    {
        ByName { name }
    }
}

impl Clone for ByName<'_> {
    ghost is_clone = { λ x y. y ≡ x };

    ghost is_infallible = { λ _. ⊤ };

    fn clone(&self) -> Result<Self, AllocError> {
        Ok(*self)
    }
}

impl Copy for ByName<'_> {}

impl PartialEq for ByName<'_> {
    ghost eq = { λ a b. same_path a.name.now b.name.now };

    ghost laws = { partial_equiv_from_equiv (on_equiv (λ a. a.name.now) path_equivalence) };

    fn eq(&self, other: &Self) -> bool {
        self.name.is(other.name)
    }
}

impl Eq for ByName<'_> {
    ghost laws = { on_equiv (λ a. a.name.now) path_equivalence };
}

fn hash_words<H: Hasher>(words: &[Word], state: &mut H)
    ensures { state.new ≡ fold H.write state.old (flat_map fed.str words.now) }
{
    for word in words {
        word.as_str().hash(state);
    }
}

impl Hash for ByName<'_> {
    ghost hash_input = { λ a. flat_map fed.str a.name.now };

    ghost respects_eq = { λ a b. path_fed a.name.now b.name.now };

    fn hash<H: Hasher>(&self, state: &mut H) {
        hash_words(self.name.parts(), state);
    }
}

/// Names without order, found by hash.
pub type Set<'a> = IndexSet<ByName<'a>>;

fn add<'a>(set: &mut Set<'a>, name: &'a Name) -> Result<(), NoMemory>
    ensures { OnOk result ((n : Path) → has set.new.keys n ≡ (has set.old.keys n || same_path n name.now)) }
{
    set.insert(ByName::new(name))?;
    Ok(())
}

/// Puts the names into the set.
pub fn add_all<'a>(set: &mut Set<'a>, names: &'a [Name]) -> Result<(), NoMemory>
    ensures { OnOk result ((n : Path) → has set.new.keys n ≡ (has set.old.keys n || is_among n names.now)) }
{
    for name in names {
        add(set, name)?;
    }
    Ok(())
}

/// The set of these names.
pub fn set_of(alloc: Global, names: &[Name]) -> Result<Set<'_>, NoMemory>
    ensures { IfOk result (λ s. (n : Path) → has s.keys n ≡ is_among n names.now) }
{
    let mut set = empty(alloc);
    add_all(&mut set, names)?;
    Ok(set)
}

/// The set of no names.
pub fn empty<'a>(alloc: Global) -> Set<'a>
    ensures { (n : Path) → has result.keys n ≡ false }
{
    IndexSet::new(alloc)
}

/// Whether the name is in the set.
pub fn contains(set: &Set<'_>, name: &Name) -> bool
    ensures { result ≡ has set.now.keys name.now }
{
    let key = ByName::new(name);
    set.contains(&key)
}
