//! A term put in for the variable of a binder.
ghost use Rattle.std.specs.Prelude.{◌≡◌, ◌↔◌, ◌+◌, ◌^◌, ◌<◌, ◌≤◌, IsTrue, IfOk, MatchOption};
ghost use Rattle.lf_core.specs.Size as size;
ghost use Rattle.lf_core.specs.Substitution as spec;
ghost use Rattle.lf_subst.specs.Answer.{Substitutes};

use crate::fault::SubstFault;
use lf_core::{Expr, ExprNode, NoMemory};
use std::alloc::Global;

/// The deepest term that is made, and the deepest level that is compared.
pub const DEEPEST: u32 = 1024;

// `term` with `n` more binders round it, of whose binders `under` are its own. Where nothing is raised it is given back.
#[tactic(auto, using(crate::proofs::Unchanged::raise_unchanged, crate::proofs::Unchanged::raise_by_none))]
fn raise(alloc: Global, under: u32, n: u32, term: &Expr) -> Result<Expr, NoMemory>
    requires { under + size.depth term.now < 2 ^ 32 }
    ensures { IfOk result (λ t. t ≡ spec.raise under n term.now) }
{
    if n == 0 {
        return term.copy(alloc);
    }
    if term.loose_bound() <= under {
        return term.copy(alloc);
    }
    match term.node() {
        ExprNode::Bound(i) => {
            if *i < under {
                Expr::bound(alloc, *i)
            } else {
                Expr::bound(alloc, i.checked_add(n).ok_or(NoMemory)?)
            }
        }
        ExprNode::App(f, a) => {
            let f = raise(alloc, under, n, f)?;
            Expr::app(alloc, f, raise(alloc, under, n, a)?)
        }
        ExprNode::Lam(x, a, b) => {
            let x = x.copy(alloc)?;
            let a = raise(alloc, under, n, a)?;
            Expr::lam(alloc, x, a, raise(alloc, under + 1, n, b)?)
        }
        ExprNode::Pi(x, a, b) => {
            let x = x.copy(alloc)?;
            let a = raise(alloc, under, n, a)?;
            Expr::pi(alloc, x, a, raise(alloc, under + 1, n, b)?)
        }
        ExprNode::Let(x, a, v, b) => {
            let x = x.copy(alloc)?;
            let a = raise(alloc, under, n, a)?;
            let v = raise(alloc, under, n, v)?;
            Expr::let_in(alloc, x, a, v, raise(alloc, under + 1, n, b)?)
        }
        ExprNode::Proj(s, i, t) => {
            let s = s.copy(alloc)?;
            Expr::proj(alloc, s, *i, raise(alloc, under, n, t)?)
        }
        ExprNode::Free(_)
        | ExprNode::Meta(_)
        | ExprNode::Sort(_)
        | ExprNode::Const(_, _)
        | ExprNode::Lit(_) => term.copy(alloc),
    }
}

// The depth of what stands for the variable of this index under `under` binders.
#[tactic(auto, using(crate::proofs::Sizes::variable_depth_is))]
fn variable_depth(index: u32, under: u32, arg: &Expr) -> u32
    ensures { result ≡ size.depth (spec.instantiate_variable under arg.now index) }
{
    if index == under { arg.depth() } else { 1 }
}

// The number of nodes of what stands for the variable of this index under `under` binders.
#[tactic(auto, using(crate::proofs::Sizes::variable_count_is))]
fn variable_count(index: u32, under: u32, arg: &Expr) -> u64
    ensures { result ≡ size.node_count (spec.instantiate_variable under arg.now index) }
{
    if index == under { arg.node_count() } else { 1 }
}

// Whether the depths of `body` and `arg` alone show that the first with the second in it is at most `limit` deep.
#[tactic(auto, using(crate::proofs::Bounds::depth_at))]
fn is_shown_within(limit: u32, under: u32, arg: &Expr, body: &Expr) -> bool
    ensures { IsTrue result → size.depth (spec.instantiate_at under body.now arg.now) ≤ limit }
{
    match body.depth().checked_add(arg.depth()) {
        Some(most) => most.saturating_sub(1) <= limit,
        None => false,
    }
}

// Whether `body` with `arg` for the variable under `under` binders is at most `limit` deep.
#[tactic(auto, using(crate::proofs::Unchanged::instantiate_unchanged))]
fn is_within(limit: u32, under: u32, arg: &Expr, body: &Expr) -> bool
    requires { under + size.depth body.now < 2 ^ 32 }
    ensures { IsTrue result ↔ (size.depth (spec.instantiate_at under body.now arg.now) ≤ limit) }
{
    if body.loose_bound() <= under {
        return body.depth() <= limit;
    }
    if is_shown_within(limit, under, arg, body) {
        return true;
    }
    match body.node() {
        ExprNode::Bound(i) => variable_depth(*i, under, arg) <= limit,
        ExprNode::App(f, a) => {
            limit > 0 && is_within(limit - 1, under, arg, f) && is_within(limit - 1, under, arg, a)
        }
        ExprNode::Lam(_, a, b) | ExprNode::Pi(_, a, b) => {
            limit > 0
                && is_within(limit - 1, under, arg, a)
                && is_within(limit - 1, under + 1, arg, b)
        }
        ExprNode::Let(_, a, v, b) => {
            limit > 0
                && is_within(limit - 1, under, arg, a)
                && is_within(limit - 1, under, arg, v)
                && is_within(limit - 1, under + 1, arg, b)
        }
        ExprNode::Proj(_, _, t) => limit > 0 && is_within(limit - 1, under, arg, t),
        ExprNode::Free(_)
        | ExprNode::Meta(_)
        | ExprNode::Sort(_)
        | ExprNode::Const(_, _)
        | ExprNode::Lit(_) => body.depth() <= limit,
    }
}

// What is left of `left` after the nodes of `body` with `arg` for the variable, or `None` where they pass it.
#[tactic(auto, using(crate::proofs::Unchanged::instantiate_unchanged))]
fn spend(left: u64, under: u32, arg: &Expr, body: &Expr) -> Option<u64>
    requires { under + size.depth body.now < 2 ^ 32 }
    ensures { MatchOption result (left < size.node_count (spec.instantiate_at under body.now arg.now))
        (λ rest. rest + size.node_count (spec.instantiate_at under body.now arg.now) ≡ left) }
{
    if body.loose_bound() <= under {
        return left.checked_sub(body.node_count());
    }
    match body.node() {
        ExprNode::Bound(i) => left.checked_sub(variable_count(*i, under, arg)),
        ExprNode::App(f, a) => {
            let left = spend(left.checked_sub(1)?, under, arg, f)?;
            spend(left, under, arg, a)
        }
        ExprNode::Lam(_, a, b) | ExprNode::Pi(_, a, b) => {
            let left = spend(left.checked_sub(1)?, under, arg, a)?;
            spend(left, under + 1, arg, b)
        }
        ExprNode::Let(_, a, v, b) => {
            let left = spend(left.checked_sub(1)?, under, arg, a)?;
            let left = spend(left, under, arg, v)?;
            spend(left, under + 1, arg, b)
        }
        ExprNode::Proj(_, _, t) => spend(left.checked_sub(1)?, under, arg, t),
        ExprNode::Free(_)
        | ExprNode::Meta(_)
        | ExprNode::Sort(_)
        | ExprNode::Const(_, _)
        | ExprNode::Lit(_) => left.checked_sub(body.node_count()),
    }
}

// `body` with `arg` for the variable under `under` binders. A part in which nothing is loose there is given back.
#[tactic(auto, using(crate::proofs::Unchanged::instantiate_unchanged))]
pub fn put(alloc: Global, under: u32, arg: &Expr, body: &Expr) -> Result<Expr, NoMemory>
    requires body { under + size.depth body.now < 2 ^ 32 }
    requires arg { size.depth arg.now < 2 ^ 32 }
    ensures { IfOk result (λ t. t ≡ spec.instantiate_at under body.now arg.now) }
{
    if body.loose_bound() <= under {
        return body.copy(alloc);
    }
    match body.node() {
        ExprNode::Bound(i) => {
            if *i < under {
                Expr::bound(alloc, *i)
            } else if *i == under {
                raise(alloc, 0, under, arg)
            } else {
                Expr::bound(alloc, *i - 1)
            }
        }
        ExprNode::App(f, a) => {
            let f = put(alloc, under, arg, f)?;
            Expr::app(alloc, f, put(alloc, under, arg, a)?)
        }
        ExprNode::Lam(x, a, b) => {
            let x = x.copy(alloc)?;
            let a = put(alloc, under, arg, a)?;
            Expr::lam(alloc, x, a, put(alloc, under + 1, arg, b)?)
        }
        ExprNode::Pi(x, a, b) => {
            let x = x.copy(alloc)?;
            let a = put(alloc, under, arg, a)?;
            Expr::pi(alloc, x, a, put(alloc, under + 1, arg, b)?)
        }
        ExprNode::Let(x, a, v, b) => {
            let x = x.copy(alloc)?;
            let a = put(alloc, under, arg, a)?;
            let v = put(alloc, under, arg, v)?;
            Expr::let_in(alloc, x, a, v, put(alloc, under + 1, arg, b)?)
        }
        ExprNode::Proj(s, i, t) => {
            let s = s.copy(alloc)?;
            Expr::proj(alloc, s, *i, put(alloc, under, arg, t)?)
        }
        ExprNode::Free(_)
        | ExprNode::Meta(_)
        | ExprNode::Sort(_)
        | ExprNode::Const(_, _)
        | ExprNode::Lit(_) => body.copy(alloc),
    }
}

// Whether the nodes of the instance are within `left`. The two counts mostly show it, without a walk.
#[tactic(auto, using(crate::proofs::Bounds::instance_count))]
fn has_room(left: u64, body: &Expr, arg: &Expr) -> bool
    requires { size.depth body.now ≤ 1024 }
    ensures { IsTrue result ↔ (size.node_count (spec.instantiate body.now arg.now) ≤ left) }
{
    match body.node_count().checked_mul(arg.node_count()) {
        Some(most) if most <= left => true,
        _ => spend(left, 0, arg, body).is_some(),
    }
}

/// `body` with `arg` for its outermost loose bound variable, and its number of nodes. The loose variables
/// of `arg` are raised under the binders that it comes under, those of `body` beyond the variable lowered.
/// The result is measured first, so nothing is built where it is refused.
#[tactic(auto, using(crate::proofs::Deeper::instance_deeper))]
pub fn instantiate(
    alloc: Global,
    body: &Expr,
    arg: &Expr,
    left: u64,
) -> Result<(Expr, u64), SubstFault>
    ensures { Substitutes (spec.instantiate body.now arg.now) left result }
{
    if body.depth() > DEEPEST {
        return Err(SubstFault::TooDeep);
    }
    if !is_within(DEEPEST, 0, arg, body) {
        return Err(SubstFault::TooDeep);
    }
    if !has_room(left, body, arg) {
        return Err(SubstFault::Units);
    }
    let _depth = arg.depth();
    let term = put(alloc, 0, arg, body)?;
    let nodes = term.node_count();
    Ok((term, nodes))
}
