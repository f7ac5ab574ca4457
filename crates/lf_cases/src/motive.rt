//! A motive put in for its metavariable, and reduced where it is applied.
ghost use Rattle.std.specs.Prelude.{◌≡◌, ◌<◌, false, IfOk, MatchOption};
ghost use Rattle.lf_core.specs.Term.{Term, app};
ghost use Rattle.lf_core.specs.Substitution.{instantiate as instance_of};
ghost use Rattle.lf_checker.specs.Run as run;
ghost use Rattle.lf_elaboration.specs.Induction as induction;
ghost use Rattle.lf_elaboration.specs.Metavariables as spec;
ghost use Rattle.lf_cases.specs.Limited.{Puts, PutsPair, PutsThree, PutsTerm, put_of, read, loose, head_is_motive};
ghost use Rattle.lf_steps.specs.Runs.{Runs, Calm};

use crate::limit::{LOOSE, Limit, PutFault};
use lf_core::{Expr, ExprNode, NoMemory};
use lf_steps::{Halt, out, paid};
use lf_subst::{DEEPEST, instantiate};
use std::alloc::Global;

/// The number of the metavariable that stands for a motive. No part has as many.
pub const MOTIVE: u32 = 4294967295;

/// A term, and how many of its leading lambdas an application of it still reduces.
#[derive(Debug, Drop)]
pub struct Reduced {
    pub term: Expr,
    pub lambdas: u32,
}

// The number of leading lambdas.
#[tactic(auto, using(crate::proofs::Putting::leading_within))]
fn leading_lambdas(term: &Expr) -> u32
    ensures { result ≡ spec.leading_lambdas term.now }
{
    let _depth = term.depth();
    match term.node() {
        ExprNode::Lam(_, _, b) => leading_lambdas(b) + 1,
        ExprNode::Bound(_)
        | ExprNode::Free(_)
        | ExprNode::Meta(_)
        | ExprNode::Sort(_)
        | ExprNode::Const(_, _)
        | ExprNode::App(_, _)
        | ExprNode::Pi(_, _, _)
        | ExprNode::Let(_, _, _, _)
        | ExprNode::Lit(_)
        | ExprNode::Proj(_, _, _) => 0,
    }
}

// The body of a lambda.
fn lambda_body(term: &Expr) -> Option<&Expr>
    ensures { MatchOption result ((a : Term) → spec.reduced term.now a ≡ app term.now a)
        (λ b. (a : Term) → spec.reduced term.now a ≡ instance_of b.now a) }
{
    match term.node() {
        ExprNode::Lam(_, _, b) => Some(b),
        ExprNode::Bound(_)
        | ExprNode::Free(_)
        | ExprNode::Meta(_)
        | ExprNode::Sort(_)
        | ExprNode::Const(_, _)
        | ExprNode::App(_, _)
        | ExprNode::Pi(_, _, _)
        | ExprNode::Let(_, _, _, _)
        | ExprNode::Lit(_)
        | ExprNode::Proj(_, _, _) => None,
    }
}

// Whether the head of the term is the motive.
fn has_motive_head(term: &Expr) -> bool
    ensures { result ≡ head_is_motive term.now }
{
    match term.node() {
        ExprNode::Bound(_)
        | ExprNode::Free(_)
        | ExprNode::Sort(_)
        | ExprNode::Const(_, _)
        | ExprNode::Lam(_, _, _)
        | ExprNode::Pi(_, _, _)
        | ExprNode::Let(_, _, _, _)
        | ExprNode::Lit(_)
        | ExprNode::Proj(_, _, _) => false,
        ExprNode::Meta(k) => *k == MOTIVE,
        ExprNode::App(f, _) => has_motive_head(f),
    }
}

// The application, reduced where the function is a lambda.
fn applied(alloc: Global, function: &Expr, argument: Expr) -> Result<Expr, PutFault>
    ensures { PutsTerm loose (spec.reduced function.now argument) result }
{
    match lambda_body(function) {
        Some(body) => match instantiate(alloc, body, &argument, LOOSE.room) {
            Ok((whole, _)) => LOOSE.whole(whole),
            Err(_) => Err(PutFault::NoMemory),
        },
        None => LOOSE.whole(Expr::app(alloc, function.copy(alloc)?, argument)?),
    }
}

// The application of a term, of which it reduces as many lambdas.
fn put_before(alloc: Global, function: Reduced, argument: Expr) -> Result<Reduced, PutFault>
    ensures { Puts loose (spec.put_before (read function) argument) result }
{
    let Reduced {
        term: function,
        lambdas,
    } = function;
    if lambdas == 0 {
        let term = LOOSE.whole(Expr::app(alloc, function, argument)?)?;
        return Ok(Reduced { term, lambdas: 0 });
    }
    let term = applied(alloc, &function, argument);
    drop(function);
    Ok(Reduced {
        term: term?,
        lambdas: lambdas - 1,
    })
}

// What the metavariable of this number stands for.
#[tactic(auto, using(crate::proofs::Putting::is_other))]
fn put_meta(alloc: Global, motive: &Expr, number: u32) -> Result<Reduced, PutFault>
    ensures { Puts loose (induction.motive_for motive.now number) result }
{
    if number == MOTIVE {
        let lambdas = leading_lambdas(motive);
        let term = LOOSE.term(alloc, motive)?;
        return Ok(Reduced { term, lambdas });
    }
    let term = LOOSE.whole(Expr::meta(alloc, number)?)?;
    Ok(Reduced { term, lambdas: 0 })
}

// The application of a term whose head is the motive: nothing of it need be a part of what is made.
#[cycle(put)]
fn put_applied(
    alloc: Global,
    motive: &Expr,
    function: &Expr,
    argument: &Expr,
) -> Result<Reduced, PutFault>
    ensures { Puts loose (put_of motive.now (app function.now argument.now)) result }
{
    let function = put_loose(alloc, motive, function)?;
    let argument = put(alloc, motive, LOOSE, argument)?;
    put_before(alloc, function, argument)
}

// A term whose head is the motive, applied or not.
#[cycle(put)]
fn put_loose(alloc: Global, motive: &Expr, term: &Expr) -> Result<Reduced, PutFault>
    ensures { Puts loose (put_of motive.now term.now) result }
{
    match term.node() {
        ExprNode::App(f, a) => put_applied(alloc, motive, f, a),
        ExprNode::Meta(k) => put_meta(alloc, motive, *k),
        ExprNode::Bound(_)
        | ExprNode::Free(_)
        | ExprNode::Sort(_)
        | ExprNode::Const(_, _)
        | ExprNode::Lam(_, _, _)
        | ExprNode::Pi(_, _, _)
        | ExprNode::Let(_, _, _, _)
        | ExprNode::Lit(_)
        | ExprNode::Proj(_, _, _) => {
            let term = put(alloc, motive, LOOSE, term)?;
            Ok(Reduced { term, lambdas: 0 })
        }
    }
}

// The application of a term whose head isn't the motive: its parts are parts of what is made.
#[cycle(put)]
#[tactic(auto, using(crate::proofs::Putting::unreduced))]
fn put_spine(
    alloc: Global,
    motive: &Expr,
    limit: Limit,
    function: &Expr,
    argument: &Expr,
) -> Result<Expr, PutFault>
    requires { head_is_motive function.now ≡ false }
    ensures { PutsTerm limit (put_of motive.now (app function.now argument.now)).term result }
{
    let function = put_function(alloc, motive, limit.inner(0)?, function)?;
    let rest = limit.inner(function.node_count())?;
    let argument = put(alloc, motive, rest, argument)?;
    Ok(Expr::app(alloc, function, argument)?)
}

// What is applied, whose head isn't the motive.
#[cycle(put)]
fn put_function(alloc: Global, motive: &Expr, limit: Limit, term: &Expr) -> Result<Expr, PutFault>
    requires { head_is_motive term.now ≡ false }
    ensures { PutsTerm limit (put_of motive.now term.now).term result }
{
    match term.node() {
        ExprNode::App(f, a) => put_spine(alloc, motive, limit, f, a),
        ExprNode::Bound(_)
        | ExprNode::Free(_)
        | ExprNode::Meta(_)
        | ExprNode::Sort(_)
        | ExprNode::Const(_, _)
        | ExprNode::Lam(_, _, _)
        | ExprNode::Pi(_, _, _)
        | ExprNode::Let(_, _, _, _)
        | ExprNode::Lit(_)
        | ExprNode::Proj(_, _, _) => put(alloc, motive, limit, term),
    }
}

// An application.
#[cycle(put)]
fn put_application(
    alloc: Global,
    motive: &Expr,
    limit: Limit,
    function: &Expr,
    argument: &Expr,
) -> Result<Expr, PutFault>
    ensures { PutsTerm limit (put_of motive.now (app function.now argument.now)).term result }
{
    if !has_motive_head(function) {
        return put_spine(alloc, motive, limit, function, argument);
    }
    match put_applied(alloc, motive, function, argument) {
        Ok(whole) => limit.whole(whole.term),
        Err(_) => Err(PutFault::NoMemory),
    }
}

// The two parts of a node.
#[cycle(put)]
fn put_pair(
    alloc: Global,
    motive: &Expr,
    limit: Limit,
    left: &Expr,
    right: &Expr,
) -> Result<(Expr, Expr), PutFault>
    ensures { PutsPair limit (put_of motive.now left.now).term (put_of motive.now right.now).term result }
{
    let left = put(alloc, motive, limit.inner(0)?, left)?;
    let right = put(alloc, motive, limit.inner(left.node_count())?, right)?;
    Ok((left, right))
}

// A `let`.
#[cycle(put)]
fn put_let(
    alloc: Global,
    motive: &Expr,
    limit: Limit,
    ty: &Expr,
    value: &Expr,
    body: &Expr,
) -> Result<(Expr, Expr, Expr), PutFault>
    ensures { PutsThree limit (put_of motive.now ty.now).term (put_of motive.now value.now).term (put_of motive.now body.now).term result }
{
    let ty = put(alloc, motive, limit.inner(0)?, ty)?;
    let rest = limit.beside(ty.node_count())?;
    let (value, body) = put_pair(alloc, motive, rest, value, body)?;
    Ok((ty, value, body))
}

// A term with the motive put in. One without metavariables is handed back.
#[cycle(put)]
#[tactic(auto, using(crate::proofs::Putting::without, crate::proofs::Putting::is_other))]
fn put(alloc: Global, motive: &Expr, limit: Limit, term: &Expr) -> Result<Expr, PutFault>
    ensures { PutsTerm limit (put_of motive.now term.now).term result }
{
    if !term.has_metavariable() {
        return limit.term(alloc, term);
    }
    match term.node() {
        ExprNode::Bound(_)
        | ExprNode::Free(_)
        | ExprNode::Sort(_)
        | ExprNode::Const(_, _)
        | ExprNode::Lit(_) => limit.term(alloc, term),
        ExprNode::Meta(k) => {
            if *k == MOTIVE {
                limit.term(alloc, motive)
            } else {
                limit.term(alloc, term)
            }
        }
        ExprNode::App(f, a) => put_application(alloc, motive, limit, f, a),
        ExprNode::Lam(x, a, b) => {
            let x = x.copy(alloc)?;
            let (a, b) = put_pair(alloc, motive, limit, a, b)?;
            Ok(Expr::lam(alloc, x, a, b)?)
        }
        ExprNode::Pi(x, a, b) => {
            let x = x.copy(alloc)?;
            let (a, b) = put_pair(alloc, motive, limit, a, b)?;
            Ok(Expr::pi(alloc, x, a, b)?)
        }
        ExprNode::Let(x, a, v, b) => {
            let x = x.copy(alloc)?;
            let (a, v, b) = put_let(alloc, motive, limit, a, v, b)?;
            Ok(Expr::let_in(alloc, x, a, v, b)?)
        }
        ExprNode::Proj(s, i, t) => {
            let s = s.copy(alloc)?;
            let t = put(alloc, motive, limit.inner(0)?, t)?;
            Ok(Expr::proj(alloc, s, *i, t)?)
        }
    }
}

/// The term with the motive for its metavariable, reduced where it is applied. NoMemory also where more than 16,777,216
/// nodes are made.
pub fn with_motive(alloc: Global, motive: &Expr, term: &Expr) -> Result<Expr, NoMemory>
    ensures { IfOk result (λ t. t ≡ induction.with_motive motive.now term.now) }
{
    match put(alloc, motive, LOOSE, term) {
        Ok(whole) => Ok(whole),
        Err(_) => Err(NoMemory),
    }
}

/// The same, which costs its nodes. Out where units or depth don't suffice, and NoMemory; no other halt. It isn't built
/// where a part shows that it is too large.
#[tactic(auto, using(crate::proofs::Putting::made_out))]
pub fn made_with_motive(
    alloc: Global,
    units: &mut u64,
    motive: &Expr,
    term: &Expr,
) -> Result<Expr, Halt>
    ensures value { Runs (run.made (induction.with_motive motive.now term.now) units.old) result units.new }
    ensures calm { Calm result }
{
    let limit = Limit {
        firm: true,
        room: *units,
        deep: DEEPEST,
    };
    match put(alloc, motive, limit, term) {
        Ok(whole) => paid(units, whole),
        Err(PutFault::TooLarge) => Err(out(units)),
        Err(PutFault::NoMemory) => Err(Halt::NoMemory),
    }
}
