//! Applications as a head and its arguments.
ghost use Rattle.std.specs.Prelude.{◌≡◌, IfOk};
ghost use Rattle.lf_core.specs.Spine as spine;

use lf_core::{Expr, ExprNode, NoMemory};
use std::alloc::Global;

/// What is applied.
pub fn head(term: &Expr) -> &Expr
    ensures { result.now ≡ spine.head_of term.now }
{
    match term.node() {
        ExprNode::App(f, _) => head(f),
        _ => term,
    }
}

/// What it is applied to, from the left. The terms are shared.
#[tactic(auto, using(crate::proofs::Spines::before_append))]
pub fn arguments(alloc: Global, term: &Expr) -> Result<Vec<Expr>, NoMemory>
    ensures { IfOk result (λ all. all.items ≡ spine.arguments_of term.now) }
{
    match term.node() {
        ExprNode::App(f, a) => {
            let mut all = arguments(alloc, f)?;
            all.push(a.copy(alloc)?)?;
            Ok(all)
        }
        _ => Ok(Vec::new(alloc)),
    }
}

/// `f` applied to these arguments.
pub fn apply(alloc: Global, f: Expr, arguments: &[Expr]) -> Result<Expr, NoMemory>
    ensures { IfOk result (λ t. t ≡ spine.apply f arguments.now) }
{
    match arguments {
        [] => Ok(f),
        [x, xs @ ..] => {
            let x = x.copy(alloc)?;
            apply(alloc, Expr::app(alloc, f, x)?, xs)
        }
    }
}
