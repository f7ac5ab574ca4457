//! A minor premise at its arguments, which are put for its leading lambdas.
ghost use Rattle.std.specs.Prelude.{◌≡◌, IfOk};
ghost use Rattle.lf_elaboration.specs.CaseEquation as spec;
ghost use Rattle.lf_elaboration.specs.Metavariables as metavariables;
ghost use Rattle.lf_case_equation.specs.Values.{put};

use lf_core::{Expr, ExprNode, NoMemory};
use lf_subst::instantiate;
use lf_telescope::leading_lambdas;
use std::alloc::Global;

/// The most nodes of what is made on the way. A part of it may be dropped again, so that the units show nothing.
const ROOM: u64 = 16777216;

/// A term, and how many of its leading lambdas an application of it still reduces.
#[derive(Debug, Drop)]
pub struct Put {
    pub term: Expr,
    pub lambdas: u32,
}

// The application, reduced where the function is a lambda.
fn reduced(alloc: Global, function: &Expr, argument: &Expr) -> Result<Expr, NoMemory>
    ensures { IfOk result (λ t. t ≡ metavariables.reduced function.now argument.now) }
{
    match function.node() {
        ExprNode::Lam(_, _, body) => match instantiate(alloc, body, argument, ROOM) {
            Ok((term, _nodes)) => Ok(term),
            Err(_) => Err(NoMemory),
        },
        ExprNode::Bound(_)
        | ExprNode::Free(_)
        | ExprNode::Meta(_)
        | ExprNode::Sort(_)
        | ExprNode::Const(_, _)
        | ExprNode::App(_, _)
        | ExprNode::Pi(_, _, _)
        | ExprNode::Let(_, _, _, _)
        | ExprNode::Lit(_)
        | ExprNode::Proj(_, _, _) => {
            Expr::app(alloc, function.copy(alloc)?, argument.copy(alloc)?)
        }
    }
}

// The application of a term, of which it reduces as many lambdas.
fn put_before(alloc: Global, function: Put, argument: &Expr) -> Result<Put, NoMemory>
    ensures { IfOk result (λ p. put p ≡ metavariables.put_before (put function) argument.now) }
{
    let Put {
        term: function,
        lambdas,
    } = function;
    if lambdas == 0 {
        let term = Expr::app(alloc, function, argument.copy(alloc)?)?;
        return Ok(Put { term, lambdas: 0 });
    }
    let term = reduced(alloc, &function, argument);
    drop(function);
    Ok(Put {
        term: term?,
        lambdas: lambdas - 1,
    })
}

// The application to all of these.
fn put_onto(alloc: Global, function: Put, arguments: &[Expr]) -> Result<Expr, NoMemory>
    ensures { IfOk result (λ t. t ≡ spec.put_all (put function) arguments.now) }
{
    match arguments {
        [] => Ok(function.term),
        [x, xs @ ..] => {
            let next = put_before(alloc, function, x)?;
            put_onto(alloc, next, xs)
        }
    }
}

/// The term at these arguments, which are put for its leading lambdas. NoMemory also where more than 16,777,216 nodes, or
/// a term deeper than any allowed one, would be made on the way.
pub fn put_all(alloc: Global, term: &Expr, arguments: &[Expr]) -> Result<Expr, NoMemory>
    ensures { IfOk result (λ t. t
        ≡ spec.put_all (record { term = term.now; lambdas = metavariables.leading_lambdas term.now }) arguments.now) }
{
    let lambdas = leading_lambdas(term).ok_or(NoMemory)?;
    let term = term.copy(alloc)?;
    put_onto(alloc, Put { term, lambdas }, arguments)
}
