//! What a declaration names.
ghost use Rattle.std.specs.Prelude.{◌≡◌, ◌++◌, OnOk};
ghost use Rattle.lf_elaboration.specs.Axioms.{visits, names_of_detail};
ghost use Rattle.lf_axioms.specs.Walked.{todo};

use crate::item::{Item, push};
use lf_core::{Detail, NoMemory};

/// Puts what the declaration names before all others: the constants of the rules, the type, or the constructors.
#[tactic(auto, using(crate::proofs::Items::joined))]
pub fn push_detail<'a>(stack: &mut Vec<Item<'a>>, detail: &'a Detail) -> Result<(), NoMemory>
    ensures { OnOk result (todo stack.new.items ≡ visits (names_of_detail detail.now) ++ todo stack.old.items) }
{
    match detail {
        Detail::Plain => Ok(()),
        Detail::Ind { ctors, .. } => push(stack, Item::Names(ctors.as_slice())),
        Detail::Ctor { ind, .. } => push(stack, Item::Visit(ind)),
        Detail::Rec { ind, rules, .. } => {
            push(stack, Item::Visit(ind))?;
            push(stack, Item::Terms(rules.as_slice()))
        }
    }
}
