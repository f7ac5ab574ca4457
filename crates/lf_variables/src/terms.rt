//! References of terms.
ghost use Rattle.std.specs.Prelude.{◌≡◌, ◌++◌, ◌∷◌, OnOk, flat_map};
ghost use Rattle.lf_syntax.specs.Tree.{terms_of, items_of, option_of};
ghost use Rattle.lf_syntax.specs.TermNode.{lbinder_tree, lbinder_trees, rule_trees};
ghost use Rattle.lf_elaboration.specs.References.{level_references, term_references, option_references, terms_references};
ghost use Rattle.lf_elaboration.specs.References.{lbinder_references, lbinders_references, item_references, items_references, rules_references};
ghost use Rattle.lf_elaboration.specs.declared.reference.Reference.TheVariants as reference;

use crate::levels::{levels_references, optional_level};
use lf_base::NoMemory;
use lf_elaboration::Reference;
use lf_syntax::{Binders, Ident, Item, ItemNode, LBinder, LevelTerm, Rule, Shared, Term, TermNode};
use std::alloc::Global;

/// Adds the references of an identifier that stands as a term.
fn ident_references(
    alloc: Global,
    name: &Ident,
    levels: &Shared<LevelTerm>,
    all: &mut Vec<Reference>,
) -> Result<(), NoMemory>
    ensures { OnOk result (all.new.items ≡ all.old.items ++ reference.Term name.now.name ∷ flat_map level_references levels.now) }
{
    all.push(Reference::Term(name.name.copy(alloc)?))?;
    levels_references(alloc, levels.as_slice(), all)
}

/// Adds the references of a term.
#[cycle(term)]
pub(crate) fn term_references(
    alloc: Global,
    term: &Term,
    all: &mut Vec<Reference>,
) -> Result<(), NoMemory>
    ensures { OnOk result (all.new.items ≡ all.old.items ++ term_references term.now) }
{
    match term.node() {
        TermNode::Num(_) | TermNode::Hole { .. } | TermNode::Sorry { .. } | TermNode::Prop { .. } =>
            Ok(()),
        TermNode::Ident { name, levels, .. } => ident_references(alloc, name, levels, all),
        TermNode::TypeU { level, .. } | TermNode::SortU { level, .. } => {
            optional_level(alloc, level, all)
        }
        TermNode::Paren { term, ty, .. } => {
            term_references(alloc, term, all)?;
            option_references(alloc, ty, all)
        }
        TermNode::App { head, args, .. } => {
            term_references(alloc, head, all)?;
            terms_references(alloc, args.as_slice(), all)
        }
        TermNode::Oper { left, right, .. } => {
            term_references(alloc, left, all)?;
            term_references(alloc, right, all)
        }
        TermNode::Not { term, .. } => term_references(alloc, term, all),
        TermNode::Fun { binders, body, .. } | TermNode::Forall { binders, body, .. } => {
            lbinders_references(alloc, binders.as_slice(), all)?;
            term_references(alloc, body, all)
        }
        TermNode::Let {
            ty,
            value,
            body,
            ..
        } => {
            option_references(alloc, ty, all)?;
            term_references(alloc, value, all)?;
            term_references(alloc, body, all)
        }
        TermNode::By { items, .. } => items_references(alloc, items.as_slice(), all),
        TermNode::Arrow { binder, body, .. } => {
            term_references(alloc, &binder.ty, all)?;
            term_references(alloc, body, all)
        }
    }
}

/// Adds the references of a term, where there is one.
#[cycle(term)]
pub(crate) fn option_references(
    alloc: Global,
    term: &Option<Term>,
    all: &mut Vec<Reference>,
) -> Result<(), NoMemory>
    ensures { OnOk result (all.new.items ≡ all.old.items ++ option_references (option_of term.now)) }
{
    match term {
        None => Ok(()),
        Some(term) => term_references(alloc, term, all),
    }
}

/// Adds the references of terms, in order.
#[cycle(term)]
fn terms_references(alloc: Global, terms: &[Term], all: &mut Vec<Reference>) -> Result<(), NoMemory>
    ensures { OnOk result (all.new.items ≡ all.old.items ++ terms_references (terms_of terms.now)) }
{
    for term in terms {
        term_references(alloc, term, all)?;
    }
    Ok(())
}

/// Adds the references of the binders of a `fun` or `∀`, in order.
#[cycle(term)]
fn lbinders_references(
    alloc: Global,
    binders: &[LBinder],
    all: &mut Vec<Reference>,
) -> Result<(), NoMemory>
    ensures { OnOk result (all.new.items ≡ all.old.items ++ lbinders_references (lbinder_trees binders.now)) }
{
    for binder in binders {
        lbinder_references(alloc, binder, all)?;
    }
    Ok(())
}

/// Adds the references of a binder of a `fun` or `∀`.
#[cycle(term)]
fn lbinder_references(
    alloc: Global,
    binder: &LBinder,
    all: &mut Vec<Reference>,
) -> Result<(), NoMemory>
    ensures { OnOk result (all.new.items ≡ all.old.items ++ lbinder_references (lbinder_tree binder.now)) }
{
    match binder {
        LBinder::Typed(group) => term_references(alloc, &group.ty, all),
        LBinder::Plain(_) | LBinder::Implicit { .. } => Ok(()),
    }
}

/// Adds the references of proof items, in order.
#[cycle(term)]
fn items_references(alloc: Global, items: &[Item], all: &mut Vec<Reference>) -> Result<(), NoMemory>
    ensures { OnOk result (all.new.items ≡ all.old.items ++ items_references (items_of items.now)) }
{
    for item in items {
        item_references(alloc, item, all)?;
    }
    Ok(())
}

/// Adds the references of a proof item.
#[cycle(term)]
fn item_references(alloc: Global, item: &Item, all: &mut Vec<Reference>) -> Result<(), NoMemory>
    ensures { OnOk result (all.new.items ≡ all.old.items ++ item_references item.now) }
{
    match item.node() {
        ItemNode::Block { items, .. } => items_references(alloc, items.as_slice(), all),
        ItemNode::Exact { term, .. } | ItemNode::Apply { term, .. } => {
            term_references(alloc, term, all)
        }
        ItemNode::Rw { rules, .. } => rules_references(alloc, rules.as_slice(), all),
        ItemNode::Have { ty, value, .. } => {
            term_references(alloc, ty, all)?;
            term_references(alloc, value, all)
        }
        ItemNode::Intro { .. }
        | ItemNode::Rfl { .. }
        | ItemNode::Assumption { .. }
        | ItemNode::Unfold { .. }
        | ItemNode::Induction { .. }
        | ItemNode::Cases { .. }
        | ItemNode::Injection { .. }
        | ItemNode::Sorry { .. } => Ok(()),
    }
}

/// Adds the references of the rules of a `rw`, in order.
#[cycle(term)]
fn rules_references(alloc: Global, rules: &[Rule], all: &mut Vec<Reference>) -> Result<(), NoMemory>
    ensures { OnOk result (all.new.items ≡ all.old.items ++ rules_references (rule_trees rules.now)) }
{
    for rule in rules {
        term_references(alloc, &rule.term, all)?;
    }
    Ok(())
}
