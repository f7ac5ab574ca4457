//! Names that the steps speak of.
ghost use Rattle.std.specs.Prelude.{◌≡◌, ◌∷◌, [], IfOk};
ghost use Rattle.lf_core.specs.Same.{same_path};
ghost use Rattle.lf_elaboration.specs.Equations as equations;
ghost use Rattle.lf_elaboration.specs.Induction as induction;
ghost use Rattle.lf_elaboration.specs.Injection as injection;

use lf_core::{Name, NoMemory, Word};
use sqlite_items::Items;
use std::alloc::Global;

/// The name of the recursor of the inductive type of this name.
pub fn recursor_path(alloc: Global, name: &Name) -> Result<Name, NoMemory>
    ensures { IfOk result (λ n. n ≡ induction.recursor_path name.now) }
{
    name.child(alloc, "rec")
}

/// The name of the constant that says that the constructor of this name is injective.
pub fn injectivity_of(alloc: Global, name: &Name) -> Result<Name, NoMemory>
    ensures { IfOk result (λ n. n ≡ injection.injectivity_of name.now) }
{
    name.child(alloc, "inj")
}

/// The name of `Eq`.
pub fn eq_name(alloc: Global) -> Result<Name, NoMemory>
    ensures { IfOk result (λ n. n ≡ equations.eq_name) }
{
    Name::one(alloc, "Eq")
}

/// The name of the part `last` of `Eq`.
pub fn eq_part(alloc: Global, last: &str) -> Result<Name, NoMemory>
    ensures { IfOk result (λ n. n ≡ equations.eq_part last.now) }
{
    eq_name(alloc)?.child(alloc, last)
}

// Whether the only word is this one.
fn is_one(words: &[Word], last: &str) -> bool
    ensures { result ≡ same_path words.now (last.now ∷ []) }
{
    match words {
        [] => false,
        [word, rest @ ..] => word.as_str() == last && rest.is_empty(),
    }
}

/// Whether the name is `Eq`.
pub fn is_eq_name(name: &Name) -> bool
    ensures { result ≡ same_path name.now equations.eq_name }
{
    is_one(name.parts(), "Eq")
}
