//! Levels put in for parameters.
ghost use Rattle.std.specs.Prelude.{◌≡◌, ◌↔◌, ◌+◌, ◌<◌, ◌≤◌, IsTrue, IfOk, IfSome, MatchOption, map};
ghost use Rattle.lf_core.specs.Size as size;
ghost use Rattle.lf_core.specs.Substitution as spec;
ghost use Rattle.lf_subst.specs.Answer.{Substitutes};

use crate::fault::SubstFault;
use crate::instance::DEEPEST;
use lf_core::{Expr, ExprNode, Level, LevelNode, NoMemory, levels_count, levels_longest};
use sqlite_items::Items;
use std::alloc::Global;

// Whether `level` at these arguments is at most `limit` deep.
#[tactic(auto, using(lf_core::proofs::Unchanged::level_unchanged))]
fn is_level_within(limit: u32, args: &[Level], level: &Level) -> bool
    ensures { IsTrue result ↔ (size.level_depth (spec.level_substitute args.now level.now) ≤ limit) }
{
    if !level.has_parameter() {
        return level.depth() <= limit;
    }
    match level.node() {
        LevelNode::Zero | LevelNode::Meta(_) => limit > 0,
        LevelNode::Param(k) => match args.get(*k as usize) {
            Some(arg) => arg.depth() <= limit,
            None => limit > 0,
        },
        LevelNode::Succ(l) => limit > 0 && is_level_within(limit - 1, args, l),
        LevelNode::Max(l, m) | LevelNode::Imax(l, m) => {
            limit > 0 && is_level_within(limit - 1, args, l) && is_level_within(limit - 1, args, m)
        }
    }
}

fn are_levels_within(limit: u32, args: &[Level], levels: &[Level]) -> bool
    ensures { IsTrue result ↔ (size.levels_depth (map (spec.level_substitute args.now) levels.now) ≤ limit) }
{
    match levels {
        [] => true,
        [l, ls @ ..] => is_level_within(limit, args, l) && are_levels_within(limit, args, ls),
    }
}

// Whether `term` at these levels is at most `limit` deep.
#[tactic(auto, using(crate::proofs::Unchanged::term_unchanged))]
fn is_within(limit: u32, args: &[Level], term: &Expr) -> bool
    ensures { IsTrue result ↔ (size.depth (spec.level_instantiate args.now term.now) ≤ limit) }
{
    if !term.has_parameter() {
        return term.depth() <= limit;
    }
    match term.node() {
        ExprNode::Bound(_) | ExprNode::Free(_) | ExprNode::Meta(_) | ExprNode::Lit(_) => limit > 0,
        ExprNode::Sort(l) => limit > 0 && is_level_within(limit - 1, args, l),
        ExprNode::Const(_, ls) => limit > 0 && are_levels_within(limit - 1, args, ls.as_slice()),
        ExprNode::App(f, a) => {
            limit > 0 && is_within(limit - 1, args, f) && is_within(limit - 1, args, a)
        }
        ExprNode::Lam(_, a, b) | ExprNode::Pi(_, a, b) => {
            limit > 0 && is_within(limit - 1, args, a) && is_within(limit - 1, args, b)
        }
        ExprNode::Proj(_, _, t) => limit > 0 && is_within(limit - 1, args, t),
        ExprNode::Let(_, a, v, b) => {
            limit > 0
                && is_within(limit - 1, args, a)
                && is_within(limit - 1, args, v)
                && is_within(limit - 1, args, b)
        }
    }
}

// What is left of `left` after the nodes of `level` at these arguments, or `None` where they pass it.
#[tactic(auto, using(lf_core::proofs::Unchanged::level_unchanged))]
fn spend_level(left: u64, args: &[Level], level: &Level) -> Option<u64>
    ensures { MatchOption result (left < size.level_node_count (spec.level_substitute args.now level.now))
        (λ rest. rest + size.level_node_count (spec.level_substitute args.now level.now) ≡ left) }
{
    if !level.has_parameter() {
        return left.checked_sub(level.node_count());
    }
    match level.node() {
        LevelNode::Zero | LevelNode::Meta(_) => left.checked_sub(1),
        LevelNode::Param(k) => match args.get(*k as usize) {
            Some(arg) => left.checked_sub(arg.node_count()),
            None => left.checked_sub(1),
        },
        LevelNode::Succ(l) => spend_level(left.checked_sub(1)?, args, l),
        LevelNode::Max(l, m) | LevelNode::Imax(l, m) => {
            let left = spend_level(left.checked_sub(1)?, args, l)?;
            spend_level(left, args, m)
        }
    }
}

fn spend_levels(left: u64, args: &[Level], levels: &[Level]) -> Option<u64>
    ensures { MatchOption result (left < size.levels_node_count (map (spec.level_substitute args.now) levels.now))
        (λ rest. rest + size.levels_node_count (map (spec.level_substitute args.now) levels.now) ≡ left) }
{
    match levels {
        [] => Some(left),
        [l, ls @ ..] => spend_levels(spend_level(left, args, l)?, args, ls),
    }
}

// What is left of `left` after the nodes of `term` at these levels, or `None` where they pass it.
#[tactic(auto, using(crate::proofs::Unchanged::term_unchanged))]
fn spend(left: u64, args: &[Level], term: &Expr) -> Option<u64>
    ensures { MatchOption result (left < size.node_count (spec.level_instantiate args.now term.now))
        (λ rest. rest + size.node_count (spec.level_instantiate args.now term.now) ≡ left) }
{
    if !term.has_parameter() {
        return left.checked_sub(term.node_count());
    }
    match term.node() {
        ExprNode::Bound(_) | ExprNode::Free(_) | ExprNode::Meta(_) | ExprNode::Lit(_) => {
            left.checked_sub(1)
        }
        ExprNode::Sort(l) => spend_level(left.checked_sub(1)?, args, l),
        ExprNode::Const(_, ls) => spend_levels(left.checked_sub(1)?, args, ls.as_slice()),
        ExprNode::App(f, a) => spend(spend(left.checked_sub(1)?, args, f)?, args, a),
        ExprNode::Lam(_, a, b) | ExprNode::Pi(_, a, b) => {
            spend(spend(left.checked_sub(1)?, args, a)?, args, b)
        }
        ExprNode::Proj(_, _, t) => spend(left.checked_sub(1)?, args, t),
        ExprNode::Let(_, a, v, b) => {
            let left = spend(left.checked_sub(1)?, args, a)?;
            spend(spend(left, args, v)?, args, b)
        }
    }
}

fn put_levels(alloc: Global, args: &[Level], levels: &[Level]) -> Result<Items<Level>, NoMemory>
    ensures { IfOk result (λ all. all ≡ map (spec.level_substitute args.now) levels.now) }
{
    let mut all = Items::new(alloc);
    for level in levels {
        all.push(level.substitute(alloc, args)?)?;
    }
    Ok(all)
}

// `term` at these levels. A part without parameters is given back.
#[tactic(auto, using(crate::proofs::Unchanged::term_unchanged))]
pub fn put(alloc: Global, args: &[Level], term: &Expr) -> Result<Expr, NoMemory>
    ensures { IfOk result (λ t. t ≡ spec.level_instantiate args.now term.now) }
{
    if !term.has_parameter() {
        return term.copy(alloc);
    }
    match term.node() {
        ExprNode::Sort(l) => Expr::sort(alloc, l.substitute(alloc, args)?),
        ExprNode::Const(c, ls) => {
            let c = c.copy(alloc)?;
            Expr::constant(alloc, c, put_levels(alloc, args, ls.as_slice())?)
        }
        ExprNode::App(f, a) => {
            let f = put(alloc, args, f)?;
            Expr::app(alloc, f, put(alloc, args, a)?)
        }
        ExprNode::Lam(x, a, b) => {
            let x = x.copy(alloc)?;
            let a = put(alloc, args, a)?;
            Expr::lam(alloc, x, a, put(alloc, args, b)?)
        }
        ExprNode::Pi(x, a, b) => {
            let x = x.copy(alloc)?;
            let a = put(alloc, args, a)?;
            Expr::pi(alloc, x, a, put(alloc, args, b)?)
        }
        ExprNode::Proj(s, i, t) => {
            let s = s.copy(alloc)?;
            Expr::proj(alloc, s, *i, put(alloc, args, t)?)
        }
        ExprNode::Let(x, a, v, b) => {
            let x = x.copy(alloc)?;
            let a = put(alloc, args, a)?;
            let v = put(alloc, args, v)?;
            Expr::let_in(alloc, x, a, v, put(alloc, args, b)?)
        }
        ExprNode::Bound(_) | ExprNode::Free(_) | ExprNode::Meta(_) | ExprNode::Lit(_) => {
            term.copy(alloc)
        }
    }
}

// A copy, for no arguments.
fn unchanged(alloc: Global, term: &Expr, left: u64) -> Result<(Expr, u64), SubstFault>
    requires { size.depth term.now ≤ 1024 }
    ensures { Substitutes term.now left result }
{
    let nodes = term.node_count();
    if nodes > left {
        return Err(SubstFault::Units);
    }
    let made = term.copy(alloc)?;
    Ok((made, nodes))
}

// Whether the term at these levels is at most as deep as allowed. The depths mostly show it, without a walk.
#[tactic(auto, using(crate::proofs::Level_bounds::term_deep))]
fn is_allowed(args: &[Level], term: &Expr) -> bool
    ensures { IsTrue result ↔ (size.depth (spec.level_instantiate args.now term.now) ≤ 1024) }
{
    match term.depth().checked_add(levels_longest(args).max(1)) {
        Some(most) if most <= DEEPEST + 1 => true,
        _ => is_within(DEEPEST, args, term),
    }
}

// What the term at these levels has at most.
#[tactic(auto, using(crate::proofs::Level_bounds::term_many))]
fn most_nodes(args: &[Level], term: &Expr) -> Option<u64>
    ensures { IfSome result (λ most. size.node_count (spec.level_instantiate args.now term.now) ≤ most) }
{
    term.node_count().checked_mul(levels_count(args)?.max(1))
}

// Whether the nodes of the term at these levels are within `left`. The counts mostly show it, without a walk.
fn has_room(left: u64, args: &[Level], term: &Expr) -> bool
    ensures { IsTrue result ↔ (size.node_count (spec.level_instantiate args.now term.now) ≤ left) }
{
    match most_nodes(args, term) {
        Some(most) if most <= left => true,
        _ => spend(left, args, term).is_some(),
    }
}

/// `term` with these levels for its level parameters, and its number of nodes. A parameter past the
/// arguments stays. The result is measured first, so nothing is built where it is refused.
#[tactic(auto, using(crate::proofs::Deeper::levels_deeper))]
pub fn level_inst(
    alloc: Global,
    term: &Expr,
    args: &[Level],
    left: u64,
) -> Result<(Expr, u64), SubstFault>
    ensures { Substitutes (spec.level_instantiate args.now term.now) left result }
{
    if term.depth() > DEEPEST {
        return Err(SubstFault::TooDeep);
    }
    if args.is_empty() {
        return unchanged(alloc, term, left);
    }
    if !is_allowed(args, term) {
        return Err(SubstFault::TooDeep);
    }
    if !has_room(left, args, term) {
        return Err(SubstFault::Units);
    }
    let made = put(alloc, args, term)?;
    let nodes = made.node_count();
    Ok((made, nodes))
}
