//! Telescopes: typed binders in a row, of which the first stands for the free variable k, the next for k + 1.
ghost use Rattle.std.specs.Prelude.{◌≡◌, ◌↔◌, ◌<◌, ◌^◌, ◌++◌, length, IfOk, OnOk, IfSome, IsSome};
ghost use Rattle.lf_rules.specs.Telescope as spec;
ghost use Rattle.lf_recursor.specs.Values.{opened_of};

use lf_core::{Binder, BinderKind, Expr, ExprNode, NoMemory};
use lf_subst::{close_body, open_body};
use std::alloc::Global;
use std::marker::Model;

/// A binder and its type, which speaks of the variables before its own. Contracts see the `Local` of `lf_rules`.
#[derive(Debug, Drop)]
pub struct Local {
    pub binder: Binder,
    pub ty: Expr,
}

/// What stands under pis, with their variables free.
#[derive(Debug, Drop)]
pub struct Opened {
    pub locals: Vec<Local>,
    pub rest: Expr,
}

impl Model for Local {
    ghost use Rattle.lf_rules.specs.Telescope.{Local as LocalValue};
    ghost use Rattle.lf_recursor.specs.Codes.{coded_local};

    ghost Value = { LocalValue };

    ghost coded = { coded_local };

    ghost view = { λ x. record { binder = x.binder; ty = x.ty } };
}

impl Local {
    /// An equal local.
    pub fn copy(&self, alloc: Global) -> Result<Local, NoMemory>
        ensures { IfOk result (λ x. x ≡ self.now) }
    {
        Ok(Local {
            binder: self.binder.copy(alloc)?,
            ty: self.ty.copy(alloc)?,
        })
    }
}

/// How many locals these are.
pub fn count(locals: &[Local]) -> Result<u32, NoMemory>
    ensures { IfOk result (λ n. n ≡ length locals.now) }
{
    u32::try_from(locals.len()).map_err(|_| NoMemory)
}

/// How many pis the term begins with; `None` exactly where it is no u32.
pub fn pi_count(term: &Expr) -> Option<u32>
    ensures fits { IsSome result ↔ spec.pi_count term.now < 2 ^ 32 }
    ensures count { IfSome result (λ n. n ≡ spec.pi_count term.now) }
{
    match term.node() {
        ExprNode::Pi(_, _, b) => pi_count(b)?.checked_add(1),
        _ => Some(0),
    }
}

// Puts at most `n` opened pis of the term behind `locals`, by the variables from `k` on, and gives what is left.
#[tactic(auto, using(crate::proofs::Opens::opened_onto, crate::proofs::Opens::open_pi, crate::proofs::Opens::open_rest))]
fn open_onto(
    alloc: Global,
    locals: &mut Vec<Local>,
    k: u32,
    n: u32,
    term: &Expr,
) -> Result<Expr, NoMemory>
    ensures locals { OnOk result (locals.new.items ≡ locals.old.items ++ (spec.open_pis k n term.now).locals) }
    ensures rest { IfOk result (λ t. t ≡ (spec.open_pis k n term.now).rest) }
{
    if n == 0 {
        return term.copy(alloc);
    }
    match term.node() {
        ExprNode::Pi(x, a, b) => {
            let local = Local {
                binder: x.copy(alloc)?,
                ty: a.copy(alloc)?,
            };
            locals.push(local)?;
            let body = open_body(alloc, b, k)?;
            let next = k.checked_add(1).ok_or(NoMemory)?;
            open_onto(alloc, locals, next, n - 1, &body)
        }
        ExprNode::Bound(_)
        | ExprNode::Free(_)
        | ExprNode::Meta(_)
        | ExprNode::Sort(_)
        | ExprNode::Const(_, _)
        | ExprNode::App(_, _)
        | ExprNode::Lam(_, _, _)
        | ExprNode::Let(_, _, _, _)
        | ExprNode::Lit(_)
        | ExprNode::Proj(_, _, _) => term.copy(alloc),
    }
}

/// At most `n` pis of the term, opened by the variables from `k` on.
pub fn open_pis(alloc: Global, k: u32, n: u32, term: &Expr) -> Result<Opened, NoMemory>
    ensures { IfOk result (λ o. opened_of o ≡ spec.open_pis k n term.now) }
{
    let mut locals = Vec::new(alloc);
    let rest = open_onto(alloc, &mut locals, k, n, term)?;
    Ok(Opened { locals, rest })
}

/// All of them.
pub fn open_all(alloc: Global, k: u32, term: &Expr) -> Result<Opened, NoMemory>
    ensures { IfOk result (λ o. opened_of o ≡ spec.open_all k term.now) }
{
    let n = pi_count(term).ok_or(NoMemory)?;
    open_pis(alloc, k, n, term)
}

/// Pis over the telescope that begins at `k`, and then `body`.
pub fn pis_over(alloc: Global, k: u32, locals: &[Local], body: Expr) -> Result<Expr, NoMemory>
    ensures { IfOk result (λ t. t ≡ spec.pis_over k locals.now body) }
{
    match locals {
        [] => Ok(body),
        [x, xs @ ..] => {
            let next = k.checked_add(1).ok_or(NoMemory)?;
            let under = pis_over(alloc, next, xs, body)?;
            let under = close_body(alloc, &under, k)?;
            Expr::pi(alloc, x.binder.copy(alloc)?, x.ty.copy(alloc)?, under)
        }
    }
}

/// Lambdas over the telescope that begins at `k`, and then `body`.
pub fn lambdas_over(alloc: Global, k: u32, locals: &[Local], body: Expr) -> Result<Expr, NoMemory>
    ensures { IfOk result (λ t. t ≡ spec.lambdas_over k locals.now body) }
{
    match locals {
        [] => Ok(body),
        [x, xs @ ..] => {
            let next = k.checked_add(1).ok_or(NoMemory)?;
            let under = lambdas_over(alloc, next, xs, body)?;
            let under = close_body(alloc, &under, k)?;
            Expr::lam(alloc, x.binder.copy(alloc)?, x.ty.copy(alloc)?, under)
        }
    }
}

/// Puts the variables of the telescope that begins at `k` behind `all`.
pub fn push_variables(all: &mut Vec<Expr>, k: u32, locals: &[Local]) -> Result<(), NoMemory>
    ensures { OnOk result (all.new.items ≡ all.old.items ++ spec.variables k locals.now) }
{
    let alloc = *all.allocator();
    match locals {
        [] => Ok(()),
        [_x, xs @ ..] => {
            all.push(Expr::free(alloc, k)?)?;
            let next = k.checked_add(1).ok_or(NoMemory)?;
            push_variables(all, next, xs)
        }
    }
}

/// Puts the locals, with their binders of this kind, behind `all`.
pub fn push_of_kind(
    all: &mut Vec<Local>,
    kind: BinderKind,
    locals: &[Local],
) -> Result<(), NoMemory>
    ensures { OnOk result (all.new.items ≡ all.old.items ++ spec.of_kind kind locals.now) }
{
    let alloc = *all.allocator();
    match locals {
        [] => Ok(()),
        [x, xs @ ..] => {
            let name = x.binder.name.copy(alloc)?;
            let ty = x.ty.copy(alloc)?;
            let binder = Binder { name, kind };
            all.push(Local { binder, ty })?;
            push_of_kind(all, kind, xs)
        }
    }
}
