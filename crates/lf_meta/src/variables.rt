//! Which variables stand in a value.
ghost use Rattle.std.specs.Prelude.{◌≡◌};
ghost use Rattle.lf_elaboration.specs.Metavariables as spec;

use lf_core::{Expr, ExprNode, Level, LevelNode};

/// Whether the metavariable of levels stands in the level.
#[tactic(auto, using(crate::proofs::Absent::level_absent))]
pub fn occurs_in_level(m: u32, level: &Level) -> bool
    ensures { result ≡ spec.occurs_in_level m level.now }
{
    if !level.has_metavariable() {
        return false;
    }
    match level.node() {
        LevelNode::Zero | LevelNode::Param(_) => false,
        LevelNode::Meta(k) => *k == m,
        LevelNode::Succ(l) => occurs_in_level(m, l),
        LevelNode::Max(k, l) | LevelNode::Imax(k, l) => {
            occurs_in_level(m, k) || occurs_in_level(m, l)
        }
    }
}

/// Whether the metavariable stands in the term.
#[tactic(auto, using(crate::proofs::Absent::absent))]
pub fn occurs(m: u32, term: &Expr) -> bool
    ensures { result ≡ spec.occurs m term.now }
{
    if !term.has_metavariable() {
        return false;
    }
    match term.node() {
        ExprNode::Bound(_)
        | ExprNode::Free(_)
        | ExprNode::Sort(_)
        | ExprNode::Const(_, _)
        | ExprNode::Lit(_) => false,
        ExprNode::Meta(k) => *k == m,
        ExprNode::App(f, a) => occurs(m, f) || occurs(m, a),
        ExprNode::Lam(_, a, b) | ExprNode::Pi(_, a, b) => occurs(m, a) || occurs(m, b),
        ExprNode::Let(_, a, v, b) => occurs(m, a) || (occurs(m, v) || occurs(m, b)),
        ExprNode::Proj(_, _, t) => occurs(m, t),
    }
}

// The same in two parts, in order.
#[cycle(outside)]
fn first(locals: u32, left: &Expr, right: &Expr) -> Option<u32>
    ensures { result ≡ spec.or_first (spec.outside locals left.now) (spec.outside locals right.now) }
{
    match outside(locals, left) {
        Some(k) => Some(k),
        None => outside(locals, right),
    }
}

/// The first free variable, from the left, that is none of the first `locals`.
#[cycle(outside)]
#[tactic(auto, using(crate::proofs::Absent::all_inside))]
pub fn outside(locals: u32, term: &Expr) -> Option<u32>
    ensures { result ≡ spec.outside locals term.now }
{
    if term.free_bound() <= locals {
        return None;
    }
    match term.node() {
        ExprNode::Bound(_)
        | ExprNode::Meta(_)
        | ExprNode::Sort(_)
        | ExprNode::Const(_, _)
        | ExprNode::Lit(_) => None,
        ExprNode::Free(k) => { if *k < locals { None } else { Some(*k) } }
        ExprNode::App(f, a) => first(locals, f, a),
        ExprNode::Lam(_, a, b) | ExprNode::Pi(_, a, b) => first(locals, a, b),
        ExprNode::Let(_, a, v, b) => match outside(locals, a) {
            Some(k) => Some(k),
            None => first(locals, v, b),
        },
        ExprNode::Proj(_, _, t) => outside(locals, t),
    }
}
