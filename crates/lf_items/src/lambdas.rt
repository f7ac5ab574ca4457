//! Binders over the binders of a type.
ghost use Rattle.std.specs.Prelude.{◌≡◌, IfOk};
ghost use Rattle.lf_elaboration.specs.Induction as spec;

use lf_core::{Expr, ExprNode, NoMemory};
use std::alloc::Global;

/// The lambdas over all pis that the type begins with, with this body.
pub fn lambdas_like(alloc: Global, ty: &Expr, body: Expr) -> Result<Expr, NoMemory>
    ensures { IfOk result (λ t. t ≡ spec.lambdas_like ty.now body) }
{
    match ty.node() {
        ExprNode::Pi(binder, domain, codomain) => {
            let inner = lambdas_like(alloc, codomain, body)?;
            Expr::lam(alloc, binder.copy(alloc)?, domain.copy(alloc)?, inner)
        }
        _ => Ok(body),
    }
}

/// The lambdas over the first `n` of the pis that the type begins with, with this body; over all where there are fewer.
#[tactic(auto, using(crate::proofs::Binders::first_none, crate::proofs::Binders::first_some))]
pub fn first_lambdas(alloc: Global, n: u32, ty: &Expr, body: Expr) -> Result<Expr, NoMemory>
    ensures { IfOk result (λ t. t ≡ spec.first_lambdas n ty.now body) }
{
    if n == 0 {
        return Ok(body);
    }
    match ty.node() {
        ExprNode::Pi(binder, domain, codomain) => {
            let inner = first_lambdas(alloc, n - 1, codomain, body)?;
            Expr::lam(alloc, binder.copy(alloc)?, domain.copy(alloc)?, inner)
        }
        _ => Ok(body),
    }
}
