//! Literals of `Nat`, and the constants that they stand for.
ghost use Rattle.std.specs.Prelude.{◌≡◌, ◌∷◌, [], IfOk, codes};
ghost use Rattle.lf_core.specs.Term.{const};
ghost use Rattle.lf_core.specs.Same.{same, same_path, same_universes};
ghost use Rattle.lf_rules.specs.Environment as names;
ghost use Rattle.lf_rules.specs.Step as step;
ghost use Rattle.lf_checker.specs.Whnf as spec;

use lf_core::{Expr, ExprNode, Level, LitOut, Name, NoMemory, Word};
use sqlite_items::Items;
use std::alloc::Global;

// Whether the only word is this one.
fn is_one(words: &[Word], last: &str) -> bool
    ensures { result ≡ same_path words.now (last.now ∷ []) }
{
    match words {
        [] => false,
        [word, rest @ ..] => word.as_str() == last && rest.is_empty(),
    }
}

// Whether the name has these two parts.
fn is_in(name: &Name, space: &str, last: &str) -> bool
    ensures { result ≡ same_path name.now (space.now ∷ last.now ∷ []) }
{
    match name.parts() {
        [] => false,
        [first, rest @ ..] => first.as_str() == space && is_one(rest, last),
    }
}

fn no_levels(levels: &[Level]) -> bool
    ensures { result ≡ same_universes levels.now [] }
{
    match levels {
        [] => true,
        [_l, _ls @ ..] => false,
    }
}

// Whether the term is the constant of `Nat` of this name.
fn is_nat(term: &Expr, last: &str) -> bool
    ensures { result ≡ same term.now (const (codes "Nat" ∷ last.now ∷ []) []) }
{
    match term.node() {
        ExprNode::Const(name, levels) => is_in(name, "Nat", last) && no_levels(levels.as_slice()),
        _ => false,
    }
}

/// Whether the term is `Nat.zero`.
pub fn is_nat_zero(term: &Expr) -> bool
    ensures { result ≡ same term.now names.nat_zero }
{
    is_nat(term, "zero")
}

/// Whether the term is `Nat.succ`.
pub fn is_nat_succ(term: &Expr) -> bool
    ensures { result ≡ same term.now names.nat_succ }
{
    is_nat(term, "succ")
}

/// Whether the name is that of `Nat.succ`.
pub fn is_succ_name(name: &Name) -> bool
    ensures { result ≡ same (const name.now []) names.nat_succ }
{
    is_in(name, "Nat", "succ") && no_levels(&[])
}

/// The number that a literal or `Nat.zero` is.
pub fn as_number(term: &Expr) -> Option<u128>
    ensures { result ≡ spec.as_number term.now }
{
    match term.node() {
        ExprNode::Lit(number) => Some(*number),
        ExprNode::Const(_, _) if is_nat_zero(term) => Some(0),
        _ => None,
    }
}

fn two_words(alloc: Global, space: &str, last: &str) -> Result<Name, NoMemory>
    ensures { IfOk result (λ n. n ≡ space.now ∷ last.now ∷ []) }
{
    let mut parts = Items::new(alloc);
    parts.push(Word::new(alloc, space)?)?;
    parts.push(Word::new(alloc, last)?)?;
    Name::new(alloc, parts)
}

// The constant of this name without levels.
fn constant(alloc: Global, space: &str, last: &str) -> Result<Expr, NoMemory>
    ensures { IfOk result (λ t. t ≡ const (space.now ∷ last.now ∷ []) []) }
{
    let name = two_words(alloc, space, last)?;
    Expr::constant(alloc, name, Items::new(alloc))
}

/// The term that an operation on literals gives.
pub fn literal_term(alloc: Global, given: LitOut) -> Result<Expr, NoMemory>
    ensures { IfOk result (λ t. t ≡ step.literal_term given) }
{
    match given {
        LitOut::Nat(number) => Expr::lit(alloc, number),
        LitOut::Bool(true) => constant(alloc, "Bool", "true"),
        LitOut::Bool(false) => constant(alloc, "Bool", "false"),
    }
}

/// The constructor that a literal is; any other term is given back.
pub fn constructor_of(alloc: Global, term: &Expr) -> Result<Expr, NoMemory>
    ensures { IfOk result (λ t. t ≡ spec.literal_constructor term.now) }
{
    match term.node() {
        ExprNode::Lit(number) => {
            if *number == 0 {
                constant(alloc, "Nat", "zero")
            } else {
                let before = Expr::lit(alloc, *number - 1)?;
                Expr::app(alloc, constant(alloc, "Nat", "succ")?, before)
            }
        }
        _ => term.copy(alloc),
    }
}
