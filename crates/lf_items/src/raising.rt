//! A term with one more binder round it.
ghost use Rattle.std.specs.Prelude.{◌≡◌, ◌+◌, ◌^◌, ◌<◌, IfOk};
ghost use Rattle.lf_core.specs.Size as size;
ghost use Rattle.lf_core.specs.Substitution as spec;

use lf_core::{Expr, ExprNode, NoMemory};
use std::alloc::Global;

// The term under `under` binders of its own, with one more binder round those. A part in which nothing is loose is shared.
#[tactic(auto, using(lf_subst::proofs::Unchanged::raise_unchanged))]
fn raise(alloc: Global, under: u32, term: &Expr) -> Result<Expr, NoMemory>
    requires { under + size.depth term.now < 2 ^ 32 }
    ensures { IfOk result (λ t. t ≡ spec.raise under 1 term.now) }
{
    if term.loose_bound() <= under {
        return term.copy(alloc);
    }
    match term.node() {
        ExprNode::Bound(i) => {
            if *i < under {
                Expr::bound(alloc, *i)
            } else {
                Expr::bound(alloc, i.checked_add(1).ok_or(NoMemory)?)
            }
        }
        ExprNode::App(f, a) => {
            let f = raise(alloc, under, f)?;
            Expr::app(alloc, f, raise(alloc, under, a)?)
        }
        ExprNode::Lam(x, a, b) => {
            let x = x.copy(alloc)?;
            let a = raise(alloc, under, a)?;
            Expr::lam(alloc, x, a, raise(alloc, under + 1, b)?)
        }
        ExprNode::Pi(x, a, b) => {
            let x = x.copy(alloc)?;
            let a = raise(alloc, under, a)?;
            Expr::pi(alloc, x, a, raise(alloc, under + 1, b)?)
        }
        ExprNode::Let(x, a, v, b) => {
            let x = x.copy(alloc)?;
            let a = raise(alloc, under, a)?;
            let v = raise(alloc, under, v)?;
            Expr::let_in(alloc, x, a, v, raise(alloc, under + 1, b)?)
        }
        ExprNode::Proj(s, i, t) => {
            let s = s.copy(alloc)?;
            Expr::proj(alloc, s, *i, raise(alloc, under, t)?)
        }
        ExprNode::Free(_)
        | ExprNode::Meta(_)
        | ExprNode::Sort(_)
        | ExprNode::Const(_, _)
        | ExprNode::Lit(_) => term.copy(alloc),
    }
}

/// The term with one more binder round it: its loose variables are raised by one. NoMemory also where a variable's number
/// would pass a u32.
pub fn raised(alloc: Global, term: &Expr) -> Result<Expr, NoMemory>
    ensures { IfOk result (λ t. t ≡ spec.raise 0 1 term.now) }
{
    let _depth = term.depth();
    raise(alloc, 0, term)
}
