//! Names of realized constants: a parent and a suffix.
ghost use Rattle.std.specs.Prelude.{◌≡◌, MatchOption, IfOk, Some};
ghost use Rattle.lf_checker.specs.View.{parent_of, last_of};
ghost use Rattle.lf_core.specs.Suffix.{suffix_of};
ghost use Rattle.lf_realizers.specs.Values.{IsNoChild};

use lf_core::{Name, NoMemory, Suffix, copy_all};
use std::alloc::Global;

/// The parts of a realized constant's name.
#[derive(Debug, Drop)]
pub struct Child {
    pub parent: Name,
    pub suffix: Suffix,
}

/// The name as a parent's with a suffix behind it; `None` where its last part is none, or is all of it.
#[tactic(auto, using(crate::proofs::Children::front_is, crate::proofs::Children::last_is))]
pub fn child_of(alloc: Global, name: &Name) -> Result<Option<Child>, NoMemory>
    ensures { IfOk result (λ r. MatchOption r (IsNoChild name.now)
        (λ c. (c.parent ≡ parent_of name.now) × (suffix_of (last_of name.now) ≡ Some c.suffix))) }
{
    match name.parts() {
        [] => Ok(None),
        [front @ .., last] => {
            if front.is_empty() {
                return Ok(None);
            }
            match Suffix::of(last.as_str()) {
                None => Ok(None),
                Some(suffix) => {
                    let parent = Name::new(alloc, copy_all(alloc, front)?)?;
                    Ok(Some(Child { parent, suffix }))
                }
            }
        }
    }
}
