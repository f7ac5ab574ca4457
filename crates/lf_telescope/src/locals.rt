//! What telescopes have: types, variables, binders.
ghost use Rattle.std.specs.Prelude.{◌≡◌, ◌++◌, IfOk, OnOk};
ghost use Rattle.lf_rules.specs.Telescope as spec;

use lf_core::{Binder, BinderKind, Expr, NoMemory};
use lf_recursor::Local;
use std::alloc::Global;

/// Puts the types of the locals behind `all`.
pub fn push_types(all: &mut Vec<Expr>, locals: &[Local]) -> Result<(), NoMemory>
    ensures { OnOk result (all.new.items ≡ all.old.items ++ spec.types locals.now) }
{
    let alloc = *all.allocator();
    match locals {
        [] => Ok(()),
        [x, xs @ ..] => {
            all.push(x.ty.copy(alloc)?)?;
            push_types(all, xs)
        }
    }
}

/// The types of the locals: those of a telescope that begins at 0 are a context.
pub fn types(alloc: Global, locals: &[Local]) -> Result<Vec<Expr>, NoMemory>
    ensures { IfOk result (λ all. all.items ≡ spec.types locals.now) }
{
    let mut all = Vec::new(alloc);
    push_types(&mut all, locals)?;
    Ok(all)
}

// Puts these terms behind `all`.
fn push_terms(all: &mut Vec<Expr>, terms: &[Expr]) -> Result<(), NoMemory>
    ensures { OnOk result (all.new.items ≡ all.old.items ++ terms.now) }
{
    let alloc = *all.allocator();
    match terms {
        [] => Ok(()),
        [x, xs @ ..] => {
            all.push(x.copy(alloc)?)?;
            push_terms(all, xs)
        }
    }
}

/// The context with the types of these locals behind it.
pub fn extended(alloc: Global, context: &[Expr], locals: &[Local]) -> Result<Vec<Expr>, NoMemory>
    ensures { IfOk result (λ all. all.items ≡ context.now ++ spec.types locals.now) }
{
    let mut all = Vec::new(alloc);
    push_terms(&mut all, context)?;
    push_types(&mut all, locals)?;
    Ok(all)
}

/// Puts the variables of the telescope that begins at `k` behind `all`.
pub fn push_variables(all: &mut Vec<Expr>, k: u32, locals: &[Local]) -> Result<(), NoMemory>
    ensures { OnOk result (all.new.items ≡ all.old.items ++ spec.variables k locals.now) }
{
    let alloc = *all.allocator();
    match locals {
        [] => Ok(()),
        [_x, xs @ ..] => {
            all.push(Expr::free(alloc, k)?)?;
            let next = k.checked_add(1).ok_or(NoMemory)?;
            push_variables(all, next, xs)
        }
    }
}

/// The variables of the telescope that begins at `k`.
pub fn variables(alloc: Global, k: u32, locals: &[Local]) -> Result<Vec<Expr>, NoMemory>
    ensures { IfOk result (λ all. all.items ≡ spec.variables k locals.now) }
{
    let mut all = Vec::new(alloc);
    push_variables(&mut all, k, locals)?;
    Ok(all)
}

// Puts the locals with implicit binders behind `all`.
fn push_implicit(all: &mut Vec<Local>, locals: &[Local]) -> Result<(), NoMemory>
    ensures { OnOk result (all.new.items ≡ all.old.items ++ spec.implicit locals.now) }
{
    let alloc = *all.allocator();
    match locals {
        [] => Ok(()),
        [x, xs @ ..] => {
            let name = x.binder.name.copy(alloc)?;
            let ty = x.ty.copy(alloc)?;
            let binder = Binder {
                name,
                kind: BinderKind::Implicit,
            };
            all.push(Local { binder, ty })?;
            push_implicit(all, xs)
        }
    }
}

/// The locals with implicit binders.
pub fn implicit(alloc: Global, locals: &[Local]) -> Result<Vec<Local>, NoMemory>
    ensures { IfOk result (λ all. all.items ≡ spec.implicit locals.now) }
{
    let mut all = Vec::new(alloc);
    push_implicit(&mut all, locals)?;
    Ok(all)
}
