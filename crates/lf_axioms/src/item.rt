//! What the walk keeps: what is still to be done, and the constants that were visited.
ghost use Rattle.std.specs.Prelude.{◌≡◌, ◌++◌, ⊤, OnOk, fold};
ghost use Rattle.std.specs.Cmp.{partial_equiv_from_equiv, on_equiv};
ghost use Rattle.std.specs.Hash as fed;
ghost use Rattle.std.specs.List.{flat_map};
ghost use Rattle.lf_core.specs.Same.{same_path};
ghost use Rattle.lf_name.proofs.Names.{path_equivalence};
ghost use Rattle.lf_env.specs.Names.{path_fed};
ghost use Rattle.lf_elaboration.specs.Axioms.{visits, names_in};
ghost use Rattle.lf_axioms.specs.Walked.{tasks_of, todo};

use lf_core::{Expr, ExprNode, Name, NoMemory, Word};
use std::alloc::AllocError;
use std::hash::{Hash, Hasher};

/// What is still to be done: a constant to visit, the value of one to read, or constants to visit that stand in a term,
/// in a list, or in the terms of a list. Nothing is copied.
#[derive(Clone, Copy, Debug)]
pub enum Item<'a> {
    Visit(&'a Name),
    Read(&'a Name),
    Subterm(&'a Expr),
    Names(&'a [Name]),
    Terms(&'a [Expr]),
}

/// A constant that was visited. Two are equal where their names are, so that a set of them is a table by name.
pub struct Visited<'a> {
    name: &'a Name,
}

impl<'a> Visited<'a> {
    /// The constant of this name.
    pub fn new(name: &'a Name) -> Visited<'a>
        ensures { result.name.now ≡ name.now }
    {
        Visited { name }
    }

    /// Its name.
    pub fn name(self) -> &'a Name
        ensures { result.now ≡ self.entry.name.now }
    {
        self.name
    }
}

impl Clone for Visited<'_> {
    ghost is_clone = { λ x y. y ≡ x };

    ghost is_infallible = { λ _. ⊤ };

    fn clone(&self) -> Result<Self, AllocError> {
        Ok(*self)
    }
}

impl Copy for Visited<'_> {}

impl PartialEq for Visited<'_> {
    ghost eq = { λ a b. same_path a.name.now b.name.now };

    ghost laws = { partial_equiv_from_equiv (on_equiv (λ a. a.name.now) path_equivalence) };

    fn eq(&self, other: &Self) -> bool {
        self.name.is(other.name)
    }
}

impl Eq for Visited<'_> {
    ghost laws = { on_equiv (λ a. a.name.now) path_equivalence };
}

fn hash_words<H: Hasher>(words: &[Word], state: &mut H)
    ensures { state.new ≡ fold H.write state.old (flat_map fed.str words.now) }
{
    for word in words {
        word.as_str().hash(state);
    }
}

impl Hash for Visited<'_> {
    ghost hash_input = { λ a. flat_map fed.str a.name.now };

    ghost respects_eq = { λ a b. path_fed a.name.now b.name.now };

    fn hash<H: Hasher>(&self, state: &mut H) {
        hash_words(self.name.parts(), state);
    }
}

/// Puts an item before all others.
pub fn push<'a>(stack: &mut Vec<Item<'a>>, item: Item<'a>) -> Result<(), NoMemory>
    ensures { OnOk result (todo stack.new.items ≡ tasks_of item.entry ++ todo stack.old.items) }
{
    stack.push(item)?;
    Ok(())
}

/// Puts what stands in the term before all others, from the left.
#[tactic(auto, using(crate::proofs::Items::joined, crate::proofs::Items::joined_three))]
pub fn push_parts<'a>(stack: &mut Vec<Item<'a>>, term: &'a Expr) -> Result<(), NoMemory>
    ensures { OnOk result (todo stack.new.items ≡ visits (names_in term.now) ++ todo stack.old.items) }
{
    match term.node() {
        ExprNode::Const(name, _) => push(stack, Item::Visit(name)),
        ExprNode::App(f, a) => {
            push(stack, Item::Subterm(a))?;
            push(stack, Item::Subterm(f))
        }
        ExprNode::Lam(_, a, b) | ExprNode::Pi(_, a, b) => {
            push(stack, Item::Subterm(b))?;
            push(stack, Item::Subterm(a))
        }
        ExprNode::Let(_, a, v, b) => {
            push(stack, Item::Subterm(b))?;
            push(stack, Item::Subterm(v))?;
            push(stack, Item::Subterm(a))
        }
        ExprNode::Proj(structure, _, t) => {
            push(stack, Item::Subterm(t))?;
            push(stack, Item::Visit(structure))
        }
        ExprNode::Bound(_)
        | ExprNode::Free(_)
        | ExprNode::Meta(_)
        | ExprNode::Sort(_)
        | ExprNode::Lit(_) => Ok(()),
    }
}
