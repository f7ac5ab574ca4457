//! Terms with their assigned metavariables put in.
ghost use Rattle.std.specs.Prelude.{◌≡◌, ◌<◌, false, map, MatchOption};
ghost use Rattle.lf_core.specs.Term.{Term, app, sort, const};
ghost use Rattle.lf_core.specs.Substitution.{instantiate as instance_of};
ghost use Rattle.lf_elaboration.specs.Metavariables as spec;
ghost use Rattle.lf_meta.specs.Head.{head_is_assigned};
ghost use Rattle.lf_meta.specs.Limited.{Puts, PutsPair, PutsThree, PutsTerm, put_of, read, loose};

use crate::assigned::has_assigned_head;
use crate::limit::{LOOSE, Limit, PutFault};
use crate::metas::Metas;
use crate::put_level::{put_level, put_levels};
use crate::reach::Reach;
use lf_core::{Expr, ExprNode, Level, Name};
use lf_subst::instantiate;
use sqlite_items::Items;

/// A term, and how many of its leading lambdas an application of it still reduces.
#[derive(Debug, Drop)]
pub struct Reduced {
    pub term: Expr,
    pub lambdas: u32,
}

// A term that no application reduces.
fn as_it_is(term: Expr) -> Reduced
    ensures { (result.term ≡ term) × (result.lambdas ≡ 0) }
{
    Reduced { term, lambdas: 0 }
}

// The number of leading lambdas.
#[tactic(auto, using(crate::proofs::Heads::leading_within))]
fn leading_lambdas(term: &Expr) -> u32
    ensures { result ≡ spec.leading_lambdas term.now }
{
    let _depth = term.depth();
    match term.node() {
        ExprNode::Lam(_, _, b) => leading_lambdas(b) + 1,
        ExprNode::Bound(_)
        | ExprNode::Free(_)
        | ExprNode::Meta(_)
        | ExprNode::Sort(_)
        | ExprNode::Const(_, _)
        | ExprNode::App(_, _)
        | ExprNode::Pi(_, _, _)
        | ExprNode::Let(_, _, _, _)
        | ExprNode::Lit(_)
        | ExprNode::Proj(_, _, _) => 0,
    }
}

// The body of a lambda.
fn lambda_body(term: &Expr) -> Option<&Expr>
    ensures { MatchOption result ((a : Term) → spec.reduced term.now a ≡ app term.now a)
        (λ b. (a : Term) → spec.reduced term.now a ≡ instance_of b.now a) }
{
    match term.node() {
        ExprNode::Lam(_, _, b) => Some(b),
        ExprNode::Bound(_)
        | ExprNode::Free(_)
        | ExprNode::Meta(_)
        | ExprNode::Sort(_)
        | ExprNode::Const(_, _)
        | ExprNode::App(_, _)
        | ExprNode::Pi(_, _, _)
        | ExprNode::Let(_, _, _, _)
        | ExprNode::Lit(_)
        | ExprNode::Proj(_, _, _) => None,
    }
}

// The term that a metavariable stands for.
#[cycle(put)]
#[tactic(auto, using(crate::proofs::Heads::term_unassigned, crate::proofs::Heads::term_assigned))]
fn put_assigned(metas: &Metas, reach: Reach, limit: Limit, number: u32) -> Result<Reduced, PutFault>
    ensures { Puts limit (spec.term_at metas.now reach.chain number) result }
{
    match metas.value(number) {
        None => {
            let term = Expr::meta(metas.alloc(), number)?;
            Ok(as_it_is(limit.whole(term)?))
        }
        Some(value) => {
            let term = put(metas, reach.next()?, limit, value)?;
            let lambdas = leading_lambdas(&term);
            Ok(Reduced { term, lambdas })
        }
    }
}

// A body with the argument for its variable. Where the variable isn't used, the argument isn't looked at: it may name,
// in vain, the very metavariable whose value this is.
#[cycle(put)]
#[tactic(auto, using(lf_subst::proofs::Unchanged::instantiate_unchanged))]
fn put_for_variable(
    metas: &Metas,
    reach: Reach,
    body: &Expr,
    argument: &Expr,
) -> Result<Expr, PutFault>
    ensures { PutsTerm loose (instance_of body.now (put_of metas.now reach.chain argument.now).term) result }
{
    if body.loose_bound() == 0 {
        return LOOSE.term(metas.alloc(), body);
    }
    let argument = put(metas, reach.inner()?, LOOSE, argument)?;
    match instantiate(metas.alloc(), body, &argument, LOOSE.room) {
        Ok((whole, _)) => LOOSE.whole(whole),
        Err(_) => Err(PutFault::NoMemory),
    }
}

// The application of a value with leading lambdas.
#[cycle(put)]
fn reduce(
    metas: &Metas,
    reach: Reach,
    function: Reduced,
    argument: &Expr,
) -> Result<Reduced, PutFault>
    requires { 0 < function.lambdas }
    ensures { Puts loose (spec.put_before (read function) (put_of metas.now reach.chain argument.now).term) result }
{
    let lambdas = function.lambdas - 1;
    let term = match lambda_body(&function.term) {
        Some(body) => put_for_variable(metas, reach, body, argument)?,
        None => {
            let argument = put(metas, reach.inner()?, LOOSE, argument)?;
            let head = function.term.copy(metas.alloc())?;
            LOOSE.whole(Expr::app(metas.alloc(), head, argument)?)?
        }
    };
    Ok(Reduced { term, lambdas })
}

// The application of a term that isn't reduced.
#[cycle(put)]
fn put_argument(
    metas: &Metas,
    reach: Reach,
    limit: Limit,
    function: Expr,
    argument: &Expr,
) -> Result<Reduced, PutFault>
    ensures { Puts limit (spec.as_it_is (app function (put_of metas.now reach.chain argument.now).term)) result }
{
    let rest = limit.inner(function.node_count())?;
    let argument = put(metas, reach.inner()?, rest, argument)?;
    let term = Expr::app(metas.alloc(), function, argument)?;
    Ok(as_it_is(limit.whole(term)?))
}

// A term whose head is an assigned metavariable, applied or not: nothing of it need be a part of what is made.
#[cycle(put)]
fn put_loose(metas: &Metas, reach: Reach, term: &Expr) -> Result<Reduced, PutFault>
    ensures { Puts loose (put_of metas.now reach.chain term.now) result }
{
    match term.node() {
        ExprNode::App(f, a) => {
            let reach = reach.inner()?;
            let function = put_loose(metas, reach, f)?;
            if function.lambdas == 0 {
                put_argument(metas, reach, LOOSE, function.term, a)
            } else {
                reduce(metas, reach, function, a)
            }
        }
        ExprNode::Meta(k) => put_assigned(metas, reach, LOOSE, *k),
        ExprNode::Bound(_)
        | ExprNode::Free(_)
        | ExprNode::Sort(_)
        | ExprNode::Const(_, _)
        | ExprNode::Lam(_, _, _)
        | ExprNode::Pi(_, _, _)
        | ExprNode::Let(_, _, _, _)
        | ExprNode::Lit(_)
        | ExprNode::Proj(_, _, _) => Ok(as_it_is(put(metas, reach.inner()?, LOOSE, term)?)),
    }
}

// A term whose head isn't one: its parts are parts of what is made.
#[cycle(put)]
#[tactic(auto, using(crate::proofs::Heads::unreduced))]
fn put_spine(metas: &Metas, reach: Reach, limit: Limit, term: &Expr) -> Result<Expr, PutFault>
    requires { head_is_assigned metas.now term.now ≡ false }
    ensures { PutsTerm limit (put_of metas.now reach.chain term.now).term result }
{
    match term.node() {
        ExprNode::App(f, a) => {
            let reach = reach.inner()?;
            let function = put_spine(metas, reach, limit.inner(0)?, f)?;
            let whole = put_argument(metas, reach, limit, function, a)?;
            Ok(whole.term)
        }
        ExprNode::Bound(_)
        | ExprNode::Free(_)
        | ExprNode::Meta(_)
        | ExprNode::Sort(_)
        | ExprNode::Const(_, _)
        | ExprNode::Lam(_, _, _)
        | ExprNode::Pi(_, _, _)
        | ExprNode::Let(_, _, _, _)
        | ExprNode::Lit(_)
        | ExprNode::Proj(_, _, _) => put(metas, reach.inner()?, limit, term),
    }
}

// An application.
#[cycle(put)]
fn put_application(metas: &Metas, reach: Reach, limit: Limit, term: &Expr) -> Result<Expr, PutFault>
    ensures { PutsTerm limit (put_of metas.now reach.chain term.now).term result }
{
    if !has_assigned_head(metas, term) {
        return put_spine(metas, reach, limit, term);
    }
    match put_loose(metas, reach, term) {
        Ok(whole) => limit.whole(whole.term),
        Err(_) => Err(PutFault::NoMemory),
    }
}

// The two parts of a node.
#[cycle(put)]
fn put_pair(
    metas: &Metas,
    reach: Reach,
    limit: Limit,
    left: &Expr,
    right: &Expr,
) -> Result<(Expr, Expr), PutFault>
    ensures { PutsPair limit (put_of metas.now reach.chain left.now).term (put_of metas.now reach.chain right.now).term result }
{
    let left = put(metas, reach, limit.inner(0)?, left)?;
    let right = put(metas, reach, limit.inner(left.node_count())?, right)?;
    Ok((left, right))
}

// A sort or a constant.
fn put_sort(metas: &Metas, reach: Reach, limit: Limit, level: &Level) -> Result<Expr, PutFault>
    ensures { PutsTerm limit (sort (spec.level_with (spec.level_at metas.now reach.chain) level.now)) result }
{
    let level = put_level(metas, reach, limit.inner(0)?, level)?;
    Ok(Expr::sort(metas.alloc(), level)?)
}

fn put_constant(
    metas: &Metas,
    reach: Reach,
    limit: Limit,
    name: &Name,
    levels: &[Level],
) -> Result<Expr, PutFault>
    ensures { PutsTerm limit (const name.now (map (spec.level_with (spec.level_at metas.now reach.chain)) levels.now)) result }
{
    let mut all = Items::new(metas.alloc());
    put_levels(metas, reach, limit.inner(0)?, levels, &mut all)?;
    let name = name.copy(metas.alloc())?;
    Ok(Expr::constant(metas.alloc(), name, all)?)
}

// A `let`.
#[cycle(put)]
fn put_let(
    metas: &Metas,
    reach: Reach,
    limit: Limit,
    ty: &Expr,
    value: &Expr,
    body: &Expr,
) -> Result<(Expr, Expr, Expr), PutFault>
    ensures { PutsThree limit (put_of metas.now reach.chain ty.now).term (put_of metas.now reach.chain value.now).term
        (put_of metas.now reach.chain body.now).term result }
{
    let ty = put(metas, reach, limit.inner(0)?, ty)?;
    let rest = limit.beside(ty.node_count())?;
    let (value, body) = put_pair(metas, reach, rest, value, body)?;
    Ok((ty, value, body))
}

/// A term with its assigned metavariables put in. One without metavariables is handed back.
#[cycle(put)]
#[tactic(auto, using(crate::proofs::Heads::without))]
pub fn put(metas: &Metas, reach: Reach, limit: Limit, term: &Expr) -> Result<Expr, PutFault>
    ensures { PutsTerm limit (put_of metas.now reach.chain term.now).term result }
{
    let alloc = metas.alloc();
    if !term.has_metavariable() && !term.has_level_metavariable() {
        return limit.term(alloc, term);
    }
    match term.node() {
        ExprNode::Bound(_) | ExprNode::Free(_) | ExprNode::Lit(_) => limit.term(alloc, term),
        ExprNode::Meta(k) => {
            let assigned = put_assigned(metas, reach, limit, *k)?;
            Ok(assigned.term)
        }
        ExprNode::Sort(l) => put_sort(metas, reach, limit, l),
        ExprNode::Const(c, ls) => put_constant(metas, reach, limit, c, ls.as_slice()),
        ExprNode::App(_, _) => put_application(metas, reach, limit, term),
        ExprNode::Lam(x, a, b) => {
            let x = x.copy(alloc)?;
            let (a, b) = put_pair(metas, reach.inner()?, limit, a, b)?;
            Ok(Expr::lam(alloc, x, a, b)?)
        }
        ExprNode::Pi(x, a, b) => {
            let x = x.copy(alloc)?;
            let (a, b) = put_pair(metas, reach.inner()?, limit, a, b)?;
            Ok(Expr::pi(alloc, x, a, b)?)
        }
        ExprNode::Let(x, a, v, b) => {
            let x = x.copy(alloc)?;
            let (a, v, b) = put_let(metas, reach.inner()?, limit, a, v, b)?;
            Ok(Expr::let_in(alloc, x, a, v, b)?)
        }
        ExprNode::Proj(s, i, t) => {
            let s = s.copy(alloc)?;
            let t = put(metas, reach.inner()?, limit.inner(0)?, t)?;
            Ok(Expr::proj(alloc, s, *i, t)?)
        }
    }
}
