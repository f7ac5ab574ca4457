//! A free variable made the variable of a binder.
ghost use Rattle.std.specs.Prelude.{◌≡◌, ◌+◌, ◌^◌, ◌<◌, ◌≤◌, IfOk};
ghost use Rattle.lf_core.specs.Size as size;
ghost use Rattle.lf_core.specs.Substitution as spec;
ghost use Rattle.lf_subst.specs.Answer.{Substitutes};

use crate::fault::SubstFault;
use crate::instance::DEEPEST;
use lf_core::{Expr, ExprNode, NoMemory};
use std::alloc::Global;

// `term` under `under` binders, with the variable of the next binder outside them for `Free(k)`.
#[tactic(auto, using(crate::proofs::Unchanged::abstract_unchanged))]
pub fn close(alloc: Global, under: u32, k: u32, term: &Expr) -> Result<Expr, NoMemory>
    requires { under + size.depth term.now < 2 ^ 32 }
    ensures { IfOk result (λ t. t ≡ spec.abstract_at under term.now k) }
{
    if term.free_bound() <= k && term.loose_bound() <= under {
        return term.copy(alloc);
    }
    match term.node() {
        ExprNode::Bound(i) => {
            if *i < under {
                Expr::bound(alloc, *i)
            } else {
                Expr::bound(alloc, i.checked_add(1).ok_or(NoMemory)?)
            }
        }
        ExprNode::Free(j) => {
            if *j == k {
                Expr::bound(alloc, under)
            } else {
                Expr::free(alloc, *j)
            }
        }
        ExprNode::App(f, a) => {
            let f = close(alloc, under, k, f)?;
            Expr::app(alloc, f, close(alloc, under, k, a)?)
        }
        ExprNode::Lam(x, a, b) => {
            let x = x.copy(alloc)?;
            let a = close(alloc, under, k, a)?;
            Expr::lam(alloc, x, a, close(alloc, under + 1, k, b)?)
        }
        ExprNode::Pi(x, a, b) => {
            let x = x.copy(alloc)?;
            let a = close(alloc, under, k, a)?;
            Expr::pi(alloc, x, a, close(alloc, under + 1, k, b)?)
        }
        ExprNode::Proj(s, i, t) => {
            let s = s.copy(alloc)?;
            Expr::proj(alloc, s, *i, close(alloc, under, k, t)?)
        }
        ExprNode::Let(x, a, v, b) => {
            let x = x.copy(alloc)?;
            let a = close(alloc, under, k, a)?;
            let v = close(alloc, under, k, v)?;
            Expr::let_in(alloc, x, a, v, close(alloc, under + 1, k, b)?)
        }
        ExprNode::Meta(_) | ExprNode::Sort(_) | ExprNode::Const(_, _) | ExprNode::Lit(_) => {
            term.copy(alloc)
        }
    }
}

/// The body of a binder whose variable stands where `term` has `Free(k)`, and its number of nodes, which
/// is that of `term`, as is its depth. Loose variables of `term` are raised by one.
#[tactic(auto, using(crate::proofs::Sizes::abstract_count_is, crate::proofs::Sizes::abstract_depth_is))]
pub fn abstract_free(
    alloc: Global,
    term: &Expr,
    k: u32,
    left: u64,
) -> Result<(Expr, u64), SubstFault>
    ensures { Substitutes (spec.abstract term.now k) left result }
{
    if term.depth() > DEEPEST {
        return Err(SubstFault::TooDeep);
    }
    let nodes = term.node_count();
    if nodes > left {
        return Err(SubstFault::Units);
    }
    let closed = close(alloc, 0, k, term)?;
    Ok((closed, nodes))
}
