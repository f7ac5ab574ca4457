//! Written proof items.
ghost use Rattle.std.specs.Prelude.{◌≡◌, IfOk, option_map};
ghost use Rattle.lf_elaboration.specs.Direct as direct;
ghost use Rattle.lf_elaboration.specs.Proof as spec;
ghost use Rattle.lf_syntax.specs.Tree.{items_of};

use lf_core::{Name, NoMemory};
use lf_syntax::{Ident, Item, ItemNode, Shared, Term, TermNode};
use std::alloc::Global;

/// The place of an item's first token, in bytes.
pub fn item_place(item: &Item) -> usize
    ensures { result ≡ spec.item_place item.now }
{
    match item.node() {
        ItemNode::Block { at, .. }
        | ItemNode::Exact { at, .. }
        | ItemNode::Intro { at, .. }
        | ItemNode::Apply { at, .. }
        | ItemNode::Rfl { at }
        | ItemNode::Assumption { at }
        | ItemNode::Rw { at, .. }
        | ItemNode::Unfold { at, .. }
        | ItemNode::Have { at, .. }
        | ItemNode::Induction { at, .. }
        | ItemNode::Cases { at, .. }
        | ItemNode::Injection { at, .. }
        | ItemNode::Sorry { at } => *at,
    }
}

/// The place of the first item, or 0 where there is none.
pub fn start_of(items: &[Item]) -> usize
    ensures { result ≡ spec.start_of items.now }
{
    match items {
        [] => 0,
        [item, ..] => item_place(item),
    }
}

/// The items of a `·` block.
pub fn as_block(item: &Item) -> Option<&[Item]>
    ensures { option_map (λ is. items_of is.now) result ≡ spec.as_block item.now }
{
    match item.node() {
        ItemNode::Block { items, .. } => Some(items.as_slice()),
        _ => None,
    }
}

/// The identifier `rfl`, written at this place.
pub fn rfl_term(alloc: Global, at: usize) -> Result<Term, NoMemory>
    ensures { IfOk result (λ t. t ≡ direct.rfl_term at) }
{
    Term::of(
        alloc,
        TermNode::Ident {
            at,
            explicit: false,
            name: Ident {
                at,
                name: Name::one(alloc, "rfl")?,
            },
            levels: Shared::of(alloc, Vec::new(alloc))?,
        },
    )
}
