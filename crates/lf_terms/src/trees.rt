//! Written terms: their places, identifiers, and lists of them.
ghost use Rattle.std.specs.Prelude.{◌≡◌, ◌++◌, IfOk, option_map};
ghost use Rattle.lf_elaboration.specs.Terms as spec;
ghost use Rattle.lf_syntax.specs.Tree as tree;
ghost use Rattle.lf_terms.specs.Values as values;

use lf_core::NoMemory;
use lf_syntax::{Ident, Item, LevelTerm, Shared, Term, TermNode};
use std::alloc::Global;

/// The place of a term's first token, in bytes.
pub fn place(term: &Term) -> usize
    ensures { result ≡ tree.place term.now }
{
    match term.node() {
        TermNode::Num(number) => number.at,
        TermNode::Ident { at, .. }
        | TermNode::Hole { at }
        | TermNode::Sorry { at }
        | TermNode::Prop { at }
        | TermNode::TypeU { at, .. }
        | TermNode::SortU { at, .. }
        | TermNode::Paren { at, .. }
        | TermNode::App { at, .. }
        | TermNode::Oper { at, .. }
        | TermNode::Not { at, .. }
        | TermNode::Fun { at, .. }
        | TermNode::Forall { at, .. }
        | TermNode::Let { at, .. }
        | TermNode::By { at, .. }
        | TermNode::Arrow { at, .. } => *at,
    }
}

/// An identifier, with the `@` and the levels that are written with it.
#[derive(Clone, Copy, Debug)]
pub struct Named<'a> {
    pub at_sign: bool,
    pub name: &'a Ident,
    pub levels: &'a [LevelTerm],
}

/// The term as an identifier.
pub fn as_named(term: &Term) -> Option<Named<'_>>
    ensures { option_map values.named result ≡ spec.as_named term.now }
{
    match term.node() {
        TermNode::Ident {
            explicit,
            name,
            levels,
            ..
        } => Some(Named {
            at_sign: *explicit,
            name,
            levels: levels.as_slice(),
        }),
        _ => None,
    }
}

/// Whether an `@` is written before it.
pub fn has_at_sign(named: Option<Named<'_>>) -> bool
    ensures { result ≡ spec.has_at_sign (option_map values.named named.entry) }
{
    match named {
        Some(found) => found.at_sign,
        None => false,
    }
}

/// The same terms in a list of their own.
pub fn copy_terms(alloc: Global, terms: &[Term]) -> Result<Vec<Term>, NoMemory>
    ensures { IfOk result (λ all. all.items ≡ terms.now) }
{
    let mut all = Vec::new(alloc);
    'terms: for term in terms {
        all.push(term.copy(alloc)?)?;
    }
    Ok(all)
}

/// The same items in a list of their own, whose copies share it.
pub fn shared_items(alloc: Global, items: &[Item]) -> Result<Shared<Item>, NoMemory>
    ensures { IfOk result (λ all. all ≡ items.now) }
{
    let mut all = Vec::new(alloc);
    'items: for item in items {
        all.push(item.copy(alloc)?)?;
    }
    Shared::of(alloc, all)
}
