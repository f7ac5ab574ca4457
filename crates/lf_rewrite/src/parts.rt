//! The motive of a rewriting.
ghost use Rattle.std.specs.Prelude.{◌≡◌, ◌+◌, ◌^◌, ◌<◌, IfOk, if◌then◌else◌, nat_lt, suc};
ghost use Rattle.lf_core.specs.Term.{bound};
ghost use Rattle.lf_core.specs.Size as size;
ghost use Rattle.lf_elaboration.specs.Motive as spec;
ghost use Rattle.lf_rewrite.specs.Rebuilt.{rebuilt, stands_below};

use lf_core::{Expr, ExprNode, NoMemory};
use std::alloc::Global;

/// A term in which each subterm that is the part was replaced, and whether there was one.
#[derive(Drop)]
struct Replaced {
    term: Expr,
    found: bool,
}

// A variable that isn't the part; one that is loose makes room for the new binder.
fn variable(alloc: Global, under: u32, i: u32) -> Result<Expr, NoMemory>
    ensures { IfOk result (λ t. t ≡ (if nat_lt i under then bound i else bound (suc i))) }
{
    if i < under {
        Expr::bound(alloc, i)
    } else {
        Expr::bound(alloc, i.checked_add(1).ok_or(NoMemory)?)
    }
}

// The parts of the term are replaced; where nothing in it changed, it is the term itself.
#[tactic(auto, using(crate::proofs::Standing::lacking_stays))]
fn shared(
    alloc: Global,
    under: u32,
    part: &Expr,
    term: &Expr,
    made: Replaced,
) -> Result<Replaced, NoMemory>
    requires term { made.term ≡ spec.replaced under part.now term.now }
    requires found { made.found ≡ spec.stands_in part.now term.now }
    ensures term { IfOk result (λ r. r.term ≡ spec.replaced under part.now term.now) }
    ensures found { IfOk result (λ r. r.found ≡ spec.stands_in part.now term.now) }
{
    if made.found || under < term.loose_bound() {
        return Ok(made);
    }
    drop(made);
    let term = term.copy(alloc)?;
    Ok(Replaced { term, found: false })
}

// The term with its parts replaced; it isn't the part itself.
#[cycle(replace)]
fn rebuild(alloc: Global, under: u32, part: &Expr, term: &Expr) -> Result<Replaced, NoMemory>
    requires { under + size.depth term.now < 2 ^ 32 }
    ensures term { IfOk result (λ r. r.term ≡ rebuilt under part.now term.now) }
    ensures found { IfOk result (λ r. r.found ≡ stands_below part.now term.now) }
{
    match term.node() {
        ExprNode::Bound(i) => Ok(Replaced {
            term: variable(alloc, under, *i)?,
            found: false,
        }),
        ExprNode::App(f, a) => {
            let f = replace(alloc, under, part, f)?;
            let a = replace(alloc, under, part, a)?;
            Ok(Replaced {
                term: Expr::app(alloc, f.term, a.term)?,
                found: f.found || a.found,
            })
        }
        ExprNode::Lam(x, a, b) => {
            let a = replace(alloc, under, part, a)?;
            let b = replace(alloc, under + 1, part, b)?;
            Ok(Replaced {
                term: Expr::lam(alloc, x.copy(alloc)?, a.term, b.term)?,
                found: a.found || b.found,
            })
        }
        ExprNode::Pi(x, a, b) => {
            let a = replace(alloc, under, part, a)?;
            let b = replace(alloc, under + 1, part, b)?;
            Ok(Replaced {
                term: Expr::pi(alloc, x.copy(alloc)?, a.term, b.term)?,
                found: a.found || b.found,
            })
        }
        ExprNode::Let(x, a, v, b) => {
            let a = replace(alloc, under, part, a)?;
            let v = replace(alloc, under, part, v)?;
            let b = replace(alloc, under + 1, part, b)?;
            Ok(Replaced {
                term: Expr::let_in(alloc, x.copy(alloc)?, a.term, v.term, b.term)?,
                found: a.found || (v.found || b.found),
            })
        }
        ExprNode::Proj(s, i, t) => {
            let t = replace(alloc, under, part, t)?;
            Ok(Replaced {
                term: Expr::proj(alloc, s.copy(alloc)?, *i, t.term)?,
                found: t.found,
            })
        }
        ExprNode::Free(_)
        | ExprNode::Meta(_)
        | ExprNode::Sort(_)
        | ExprNode::Const(_, _)
        | ExprNode::Lit(_) => Ok(Replaced {
            term: term.copy(alloc)?,
            found: false,
        }),
    }
}

// The term under binders, with the variable of the next binder outside them for each subterm that is the part.
#[cycle(replace)]
#[tactic(auto, using(crate::proofs::Standing::lacking_stays, crate::proofs::Standing::smaller_lacks, crate::proofs::Standing::itself_replaced, crate::proofs::Standing::itself_stands, crate::proofs::Standing::another_rebuilt, crate::proofs::Standing::another_stands))]
fn replace(alloc: Global, under: u32, part: &Expr, term: &Expr) -> Result<Replaced, NoMemory>
    requires { under + size.depth term.now < 2 ^ 32 }
    ensures term { IfOk result (λ r. r.term ≡ spec.replaced under part.now term.now) }
    ensures found { IfOk result (λ r. r.found ≡ spec.stands_in part.now term.now) }
{
    if term.is(part) {
        let term = Expr::bound(alloc, under)?;
        return Ok(Replaced { term, found: true });
    }
    if term.node_count() < part.node_count() && term.loose_bound() <= under {
        let term = term.copy(alloc)?;
        return Ok(Replaced { term, found: false });
    }
    let made = rebuild(alloc, under, part, term)?;
    shared(alloc, under, part, term, made)
}

/// The goal with a loose variable for each subterm that is the same tree as the part; None exactly where no subterm
/// is. `NoMemory` also where a loose variable's number would pass a u32. Parts in which nothing changes are shared.
/// docs/language.md, Proof items: `rw`.
pub fn motive(alloc: Global, goal: &Expr, part: &Expr) -> Result<Option<Expr>, NoMemory>
    ensures { IfOk result (λ m. m ≡ spec.motive goal.now part.now) }
{
    let _depth = goal.depth();
    let made = replace(alloc, 0, part, goal)?;
    if made.found {
        Ok(Some(made.term))
    } else {
        Ok(None)
    }
}
