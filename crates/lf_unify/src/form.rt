//! What the forms of two terms ask for, found out before any nested call.
ghost use Rattle.std.specs.Prelude.{◌≡◌, Some, length, option_map};
ghost use Rattle.lf_core.specs.Term.{app, const, free};
ghost use Rattle.lf_rules.specs.Environment.{Context};
ghost use Rattle.lf_checker.specs.Run as checker;
ghost use Rattle.lf_elaboration.specs.Forms as forms;
ghost use Rattle.lf_elaboration.specs.Unifier as spec;
ghost use Rattle.lf_elaboration.specs.Unifier.{Unify};
ghost use Rattle.lf_steps.specs.Runs.{Runs, Calm};
ghost use Rattle.lf_unify.specs.Forms as own;
ghost use Rattle.lf_unify.specs.Pairs as pairs;
ghost use Rattle.lf_unify.specs.Tower as tower;

use lf_core::{Binder, Expr, ExprNode, Level, Name};
use lf_steps::{Halt, is_nat_succ, put};
use std::alloc::Global;

/// The binder, the domain and the body or codomain of a lambda or a pi.
#[derive(Clone, Copy)]
pub struct Binding<'a> {
    pub binder: &'a Binder,
    pub domain: &'a Expr,
    pub body: &'a Expr,
}

/// Two heads may be settled, or ask for their levels, or for the terms of their projections.
#[derive(Clone, Copy)]
pub enum Heads<'a> {
    Settled(bool),
    Levels(&'a [Level], &'a [Level]),
    Terms(&'a Expr, &'a Expr),
}

fn as_sort(term: &Expr) -> Option<&Level>
    ensures { option_map (λ l. l.now) result ≡ forms.as_sort term.now }
{
    match term.node() {
        ExprNode::Sort(level) => Some(level),
        _ => None,
    }
}

/// The levels of two sorts.
pub fn sorts<'a>(a: &'a Expr, b: &'a Expr) -> Option<(&'a Level, &'a Level)>
    ensures { option_map (λ p. (p.0.now, p.1.now)) result ≡ pairs.both (forms.as_sort a.now) (forms.as_sort b.now) }
{
    match as_sort(a) {
        Some(l) => match as_sort(b) {
            Some(m) => Some((l, m)),
            None => None,
        },
        None => None,
    }
}

fn as_pi(term: &Expr) -> Option<Binding<'_>>
    ensures { option_map own.binding result ≡ forms.as_pi term.now }
{
    match term.node() {
        ExprNode::Pi(binder, domain, body) => Some(Binding {
            binder,
            domain,
            body,
        }),
        _ => None,
    }
}

/// The parts of two pis.
pub fn pis<'a>(a: &'a Expr, b: &'a Expr) -> Option<(Binding<'a>, Binding<'a>)>
    ensures { option_map (λ p. (own.binding p.0, own.binding p.1)) result ≡ pairs.both (forms.as_pi a.now) (forms.as_pi b.now) }
{
    match as_pi(a) {
        Some(p) => match as_pi(b) {
            Some(q) => Some((p, q)),
            None => None,
        },
        None => None,
    }
}

/// The parts of a lambda.
pub fn as_lambda(term: &Expr) -> Option<Binding<'_>>
    ensures { option_map own.binding result ≡ forms.as_lambda term.now }
{
    match term.node() {
        ExprNode::Lam(binder, domain, body) => Some(Binding {
            binder,
            domain,
            body,
        }),
        _ => None,
    }
}

// The number before this one, where `function` is the successor and there is one.
#[tactic(auto, using(crate::proofs::Numbers::before_some, crate::proofs::Numbers::before_none, crate::proofs::Numbers::before_other))]
fn number_before(function: &Expr, number: u128) -> Option<u128>
    ensures { result ≡ pairs.number_before function.now number }
{
    if number == 0 {
        return None;
    }
    if is_nat_succ(function) {
        Some(number - 1)
    } else {
        None
    }
}

// The successor's argument, and the number before the literal.
fn before_literal<'a>(term: &'a Expr, number: u128) -> Option<(&'a Expr, u128)>
    ensures { option_map (λ p. (p.0.now, p.1)) result ≡ pairs.predecessors (forms.as_application term.now) (Some number) }
{
    match term.node() {
        ExprNode::App(function, argument) => match number_before(function, number) {
            Some(before) => Some((argument, before)),
            None => None,
        },
        _ => None,
    }
}

/// Of the successor of a term and a literal that isn't 0: the term, and the number before.
pub fn predecessors<'a>(a: &'a Expr, b: &Expr) -> Option<(&'a Expr, u128)>
    ensures { option_map (λ p. (p.0.now, p.1)) result ≡ pairs.predecessors (forms.as_application a.now) (forms.as_literal b.now) }
{
    match b.node() {
        ExprNode::Lit(number) => before_literal(a, *number),
        _ => None,
    }
}

// Two constants.
fn constants<'a>(m: &Name, ls: &'a [Level], n: &Name, ms: &'a [Level]) -> Heads<'a>
    ensures { (self : Unify) (C : Context)
        → spec.unify_heads self C (const m.now ls.now) (const n.now ms.now) ≡ own.by_heads self C result }
{
    if m.is(n) {
        Heads::Levels(ls, ms)
    } else {
        Heads::Settled(false)
    }
}

/// What two heads ask for.
#[tactic(auto, unfolding(crate::specs::Tower::unify_heads))]
pub fn heads_of<'a>(a: &'a Expr, b: &'a Expr) -> Heads<'a>
    ensures { (self : Unify) (C : Context) → tower.unify_heads self C a.now b.now ≡ own.by_heads self C result }
{
    match (a.node(), b.node()) {
        (ExprNode::Const(m, ls), ExprNode::Const(n, ms)) => {
            constants(m, ls.as_slice(), n, ms.as_slice())
        }
        (ExprNode::Free(j), ExprNode::Free(k)) => Heads::Settled(*j == *k),
        (ExprNode::Meta(j), ExprNode::Meta(k)) => Heads::Settled(*j == *k),
        (ExprNode::Proj(r, i, t), ExprNode::Proj(s, j, u)) => {
            if r.is(s) && *i == *j {
                Heads::Terms(t, u)
            } else {
                Heads::Settled(false)
            }
        }
        _ => Heads::Settled(false),
    }
}

/// The term applied to the next variable. It costs nothing.
pub fn expanded(alloc: Global, units: &mut u64, locals: &[Expr], term: &Expr) -> Result<Expr, Halt>
    ensures value { Runs (checker.put (app term.now (free (length locals.now))) units.old) result units.new }
    ensures calm { Calm result }
{
    match u32::try_from(locals.len()) {
        Ok(next) => {
            let variable = Expr::free(alloc, next)?;
            put(units, Expr::app(alloc, term.copy(alloc)?, variable)?)
        }
        Err(_) => Err(Halt::NoMemory),
    }
}
