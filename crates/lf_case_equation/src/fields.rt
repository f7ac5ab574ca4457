//! The recursive fields of a constructor, and the hypotheses for them.
ghost use Rattle.std.specs.Prelude.{◌≡◌, ◌++◌, IfOk, OnOk};
ghost use Rattle.lf_elaboration.specs.CaseEquation as spec;
ghost use Rattle.lf_rules.specs.Recursor.{innermost};

use lf_core::{Expr, ExprNode, Name, NoMemory};
use lf_items::{as_constant, lambdas_like};
use lf_recursor::{Local, pi_count};
use lf_steps::{apply, head};
use std::alloc::Global;

// Whether the type is pis that end in the inductive type.
fn ends_in(ind: &Name, ty: &Expr) -> bool
    ensures { result ≡ spec.ends_in ind.now ty.now }
{
    match ty.node() {
        ExprNode::Pi(_, _, b) => ends_in(ind, b),
        ExprNode::Const(name, _) => name.is(ind),
        ExprNode::App(_, _) => match as_constant(head(ty)) {
            None => false,
            Some(constant) => constant.name.is(ind),
        },
        ExprNode::Bound(_)
        | ExprNode::Free(_)
        | ExprNode::Meta(_)
        | ExprNode::Sort(_)
        | ExprNode::Lam(_, _, _)
        | ExprNode::Let(_, _, _, _)
        | ExprNode::Lit(_)
        | ExprNode::Proj(_, _, _) => false,
    }
}

// Puts behind `all`, of each pi of the type behind the first `n`, whether it is a recursive field.
#[tactic(auto, using(crate::proofs::Recursive::passed))]
fn push_recursive(all: &mut Vec<bool>, ind: &Name, n: usize, ty: &Expr) -> Result<(), NoMemory>
    ensures { OnOk result (all.new.items ≡ all.old.items ++ spec.recursive_fields ind.now n ty.now) }
{
    match ty.node() {
        ExprNode::Pi(_, a, b) => {
            if n > 0 {
                return push_recursive(all, ind, n - 1, b);
            }
            all.push(ends_in(ind, a))?;
            push_recursive(all, ind, 0, b)
        }
        _ => Ok(()),
    }
}

/// Of each field of a constructor of this type with so many parameters, whether it is recursive: of the constructor's own
/// type, before the parameters are put in.
pub fn recursive_fields(
    alloc: Global,
    ind: &Name,
    params: usize,
    ty: &Expr,
) -> Result<Vec<bool>, NoMemory>
    ensures { IfOk result (λ all. all.items ≡ spec.recursive_fields ind.now params ty.now) }
{
    let mut all = Vec::new(alloc);
    push_recursive(&mut all, ind, params, ty)?;
    Ok(all)
}

// Puts the variables of the `n` innermost binders behind `all`, from the outside in.
#[tactic(auto, using(lf_recursor::proofs::Lists::innermost_onto))]
fn push_innermost(all: &mut Vec<Expr>, n: u32) -> Result<(), NoMemory>
    ensures { OnOk result (all.new.items ≡ all.old.items ++ innermost n) }
{
    let alloc = *all.allocator();
    if n == 0 {
        return Ok(());
    }
    all.push(Expr::bound(alloc, n - 1)?)?;
    push_innermost(all, n - 1)
}

// `fun zs => f bs (x zs)` for the field of number `k`, whose type is pis over zs.
fn hypothesis(alloc: Global, function: &Expr, k: u32, ty: &Expr) -> Result<Expr, NoMemory>
    ensures { IfOk result (λ t. t ≡ spec.hypothesis function.now k ty.now) }
{
    let count = pi_count(ty).ok_or(NoMemory)?;
    let mut variables = Vec::new(alloc);
    push_innermost(&mut variables, count)?;
    let argument = apply(alloc, Expr::free(alloc, k)?, variables.as_slice())?;
    let body = Expr::app(alloc, function.copy(alloc)?, argument)?;
    lambdas_like(alloc, ty, body)
}

/// Puts the hypotheses for the recursive ones of the fields, of which the first has the number `k`, behind `all`.
pub fn push_hypotheses(
    all: &mut Vec<Expr>,
    function: &Expr,
    k: u32,
    recursive: &[bool],
    locals: &[Local],
) -> Result<(), NoMemory>
    ensures { OnOk result (all.new.items ≡ all.old.items ++ spec.hypotheses function.now k recursive.now locals.now) }
{
    let alloc = *all.allocator();
    match locals {
        [] => Ok(()),
        [x, xs @ ..] => match recursive {
            [] => Ok(()),
            [is_recursive, rest @ ..] => {
                if *is_recursive {
                    all.push(hypothesis(alloc, function, k, &x.ty)?)?;
                }
                let next = k.checked_add(1).ok_or(NoMemory)?;
                push_hypotheses(all, function, next, rest, xs)
            }
        },
    }
}
