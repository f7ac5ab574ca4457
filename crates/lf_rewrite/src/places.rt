//! The subterms that a rule is tried on.
ghost use Rattle.std.specs.Prelude.{◌≡◌, ◌++◌, length, is_some, IfOk, OnOk};
ghost use Rattle.lf_core.specs.Spine as spine;
ghost use Rattle.lf_elaboration.specs.Forms as forms;
ghost use Rattle.lf_elaboration.specs.Motive as spec;
ghost use Rattle.lf_elaboration.specs.Unifier as unifier;
ghost use Rattle.lf_rewrite.specs.Places.{here, places};

use lf_core::{Expr, ExprNode, Name, NoMemory};
use std::alloc::Global;

// What is applied.
fn head(term: &Expr) -> &Expr
    ensures { result.now ≡ spine.head_of term.now }
{
    match term.node() {
        ExprNode::App(f, _) => head(f),
        _ => term,
    }
}

// The number of its arguments.
#[tactic(auto, using(crate::proofs::Spines::count_within, crate::proofs::Spines::count_more))]
fn count(term: &Expr) -> u32
    ensures { result ≡ length (spine.arguments_of term.now) }
{
    let _depth = term.depth();
    match term.node() {
        ExprNode::App(f, _) => count(f) + 1,
        _ => 0,
    }
}

fn is_constant(name: &Name, term: &Expr) -> bool
    ensures { result ≡ spec.names_constant name.now (forms.as_constant term.now) }
{
    match term.node() {
        ExprNode::Const(constant, _) => name.is(constant),
        _ => false,
    }
}

fn is_variable(number: u32, term: &Expr) -> bool
    ensures { result ≡ unifier.same_number number (forms.as_variable term.now) }
{
    match term.node() {
        ExprNode::Free(k) => number == *k,
        _ => false,
    }
}

fn is_literal(number: u128, term: &Expr) -> bool
    ensures { result ≡ unifier.same_number number (forms.as_literal term.now) }
{
    match term.node() {
        ExprNode::Lit(n) => number == *n,
        _ => false,
    }
}

fn is_bound(term: &Expr) -> bool
    ensures { result ≡ forms.is_bound term.now }
{
    match term.node() {
        ExprNode::Bound(_) => true,
        _ => false,
    }
}

fn is_metavariable(term: &Expr) -> bool
    ensures { result ≡ is_some (forms.as_metavariable term.now) }
{
    match term.node() {
        ExprNode::Meta(_) => true,
        _ => false,
    }
}

fn is_sort(term: &Expr) -> bool
    ensures { result ≡ is_some (forms.as_sort term.now) }
{
    match term.node() {
        ExprNode::Sort(_) => true,
        _ => false,
    }
}

fn is_application(term: &Expr) -> bool
    ensures { result ≡ is_some (forms.as_application term.now) }
{
    match term.node() {
        ExprNode::App(_, _) => true,
        _ => false,
    }
}

fn is_lambda(term: &Expr) -> bool
    ensures { result ≡ is_some (forms.as_lambda term.now) }
{
    match term.node() {
        ExprNode::Lam(_, _, _) => true,
        _ => false,
    }
}

fn is_pi(term: &Expr) -> bool
    ensures { result ≡ is_some (forms.as_pi term.now) }
{
    match term.node() {
        ExprNode::Pi(_, _, _) => true,
        _ => false,
    }
}

fn is_let(term: &Expr) -> bool
    ensures { result ≡ forms.is_let term.now }
{
    match term.node() {
        ExprNode::Let(_, _, _, _) => true,
        _ => false,
    }
}

fn is_projection(term: &Expr) -> bool
    ensures { result ≡ is_some (forms.as_projection term.now) }
{
    match term.node() {
        ExprNode::Proj(_, _, _) => true,
        _ => false,
    }
}

// Constants of one name, the same variable or literal, and else terms of one form.
fn same_head(a: &Expr, b: &Expr) -> bool
    ensures { result ≡ spec.same_head a.now b.now }
{
    match a.node() {
        ExprNode::Bound(_) => is_bound(b),
        ExprNode::Free(k) => is_variable(*k, b),
        ExprNode::Meta(_) => is_metavariable(b),
        ExprNode::Sort(_) => is_sort(b),
        ExprNode::Const(c, _) => is_constant(c, b),
        ExprNode::App(_, _) => is_application(b),
        ExprNode::Lam(_, _, _) => is_lambda(b),
        ExprNode::Pi(_, _, _) => is_pi(b),
        ExprNode::Let(_, _, _, _) => is_let(b),
        ExprNode::Lit(n) => is_literal(*n, b),
        ExprNode::Proj(_, _, _) => is_projection(b),
    }
}

/// The head and the number of arguments that are looked for.
#[derive(Clone, Copy)]
struct Sought<'a> {
    head: &'a Expr,
    count: u32,
}

// The term itself behind `all`, where it is like what is looked for. `fits` tells of its head, `own` counts its arguments.
fn push_here(
    alloc: Global,
    all: &mut Vec<Expr>,
    sought: Sought<'_>,
    term: &Expr,
    fits: bool,
    own: u32,
) -> Result<(), NoMemory>
    requires fits { fits ≡ spec.same_head (spine.head_of term.now) sought.head.now }
    requires own { own ≡ length (spine.arguments_of term.now) }
    ensures { OnOk result (all.new.items ≡ all.old.items ++ here sought.entry.head.now sought.entry.count term.now) }
{
    if term.loose_bound() == 0 && (fits && own == sought.count) {
        all.push(term.copy(alloc)?)?;
    }
    Ok(())
}

// The places in a term whose head and arguments are known.
#[cycle(places)]
#[tactic(auto, using(crate::proofs::Spines::count_more, crate::proofs::Listed::leaf, crate::proofs::Listed::of_projection, crate::proofs::Listed::of_application, crate::proofs::Listed::of_lambda, crate::proofs::Listed::of_pi, crate::proofs::Listed::of_let))]
fn push_spine(
    alloc: Global,
    all: &mut Vec<Expr>,
    sought: Sought<'_>,
    term: &Expr,
    fits: bool,
    own: u32,
) -> Result<(), NoMemory>
    requires fits { fits ≡ spec.same_head (spine.head_of term.now) sought.head.now }
    requires own { own ≡ length (spine.arguments_of term.now) }
    ensures { OnOk result (all.new.items ≡ all.old.items ++ places sought.entry.head.now sought.entry.count term.now) }
{
    push_here(alloc, all, sought, term, fits, own)?;
    match term.node() {
        ExprNode::App(f, a) => {
            push_spine(alloc, all, sought, f, fits, own - 1)?;
            push_places(alloc, all, sought, a)
        }
        ExprNode::Lam(_, a, b) | ExprNode::Pi(_, a, b) => {
            push_places(alloc, all, sought, a)?;
            push_places(alloc, all, sought, b)
        }
        ExprNode::Let(_, a, v, b) => {
            push_places(alloc, all, sought, a)?;
            push_places(alloc, all, sought, v)?;
            push_places(alloc, all, sought, b)
        }
        ExprNode::Proj(_, _, t) => push_places(alloc, all, sought, t),
        ExprNode::Bound(_)
        | ExprNode::Free(_)
        | ExprNode::Meta(_)
        | ExprNode::Sort(_)
        | ExprNode::Const(_, _)
        | ExprNode::Lit(_) => Ok(()),
    }
}

// The places in a term behind `all`.
#[cycle(places)]
fn push_places(
    alloc: Global,
    all: &mut Vec<Expr>,
    sought: Sought<'_>,
    term: &Expr,
) -> Result<(), NoMemory>
    ensures { OnOk result (all.new.items ≡ all.old.items ++ places sought.entry.head.now sought.entry.count term.now) }
{
    let fits = same_head(head(term), sought.head);
    push_spine(alloc, all, sought, term, fits, count(term))
}

/// The subterms of the goal on which a rule with this left side is tried, in order: those without loose variables that have
/// its head and as many arguments. A term comes before its parts, a function before its argument. They are shared.
/// docs/language.md, Proof items: `rw`.
pub fn places_for(alloc: Global, left: &Expr, goal: &Expr) -> Result<Vec<Expr>, NoMemory>
    ensures { IfOk result (λ all. all.items ≡ spec.places_for left.now goal.now) }
{
    let sought = Sought {
        head: head(left),
        count: count(left),
    };
    let mut all = Vec::new(alloc);
    push_places(alloc, &mut all, sought, goal)?;
    Ok(all)
}
