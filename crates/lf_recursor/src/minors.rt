//! The motive, the minor premises, and the telescope of both that the recursor's type and its rules share.
ghost use Rattle.std.specs.Prelude.{◌≡◌, [], ◌∷◌, ◌++◌, drop, IfOk, OnOk};
ghost use Rattle.lf_core.specs.Spine as spine;
ghost use Rattle.lf_rules.specs.Recursor as spec;
ghost use Rattle.lf_recursor.specs.Values.{family_of};

use crate::family::{Case, Family};
use crate::names::{hypothesis_name, last_part};
use crate::telescope::{Local, count, open_all, pis_over, push_of_kind, push_variables};
use lf_core::{Binder, BinderKind, Expr, ExprNode, Level, Name, NoMemory, copy_all};
use lf_steps::{apply, arguments, head};
use std::alloc::Global;

/// The type at its parameters, before its indices.
fn self_type(alloc: Global, family: &Family) -> Result<Expr, NoMemory>
    ensures { IfOk result (λ t. t ≡ spec.self (family_of family.now)) }
{
    let mut params = Vec::new(alloc);
    push_variables(&mut params, 0, family.params.as_slice())?;
    let levels = copy_all(alloc, family.levels.as_slice())?;
    let constant = Expr::constant(alloc, family.name.copy(alloc)?, levels)?;
    apply(alloc, constant, params.as_slice())
}

fn is_constant(name: &Name, term: &Expr) -> bool
    ensures { result ≡ spec.is_constant name.now term.now }
{
    match term.node() {
        ExprNode::Const(c, _) => c.is(name),
        _ => false,
    }
}

/// Whether a field of this type is pis that end in the declared type.
pub fn is_recursive(family: &Family, field: &Expr) -> bool
    ensures { result ≡ spec.is_recursive (family_of family.now) field.now }
{
    match field.node() {
        ExprNode::Pi(_, _, b) => is_recursive(family, b),
        _ => is_constant(&family.name, head(field)),
    }
}

pub fn motive(alloc: Global, family: &Family) -> Result<Expr, NoMemory>
    ensures { IfOk result (λ t. t ≡ spec.motive (family_of family.now)) }
{
    Expr::free(alloc, count(family.params.as_slice())?)
}

fn simple_binder(alloc: Global, text: &str, kind: BinderKind) -> Result<Binder, NoMemory>
    ensures { IfOk result (λ x. x ≡ record { name = text.now ∷ []; kind = kind }) }
{
    Ok(Binder {
        name: Name::one(alloc, text)?,
        kind,
    })
}

/// The major premise, a member of the type at indices that begin at `k`.
pub fn major(alloc: Global, family: &Family, k: u32, indices: &[Local]) -> Result<Local, NoMemory>
    ensures { IfOk result (λ x. x ≡ spec.major (family_of family.now) k indices.now) }
{
    let mut places = Vec::new(alloc);
    push_variables(&mut places, k, indices)?;
    let ty = apply(alloc, self_type(alloc, family)?, places.as_slice())?;
    let binder = simple_binder(alloc, "t", BinderKind::Explicit)?;
    Ok(Local { binder, ty })
}

fn motive_local(alloc: Global, family: &Family, level: &Level) -> Result<Local, NoMemory>
    ensures { IfOk result (λ x. x ≡ spec.motive_local (family_of family.now) level.now) }
{
    let params = count(family.params.as_slice())?;
    let indices = open_all(alloc, params, &family.rest)?.locals;
    let mut telescope = Vec::new(alloc);
    push_of_kind(&mut telescope, BinderKind::Explicit, indices.as_slice())?;
    telescope.push(major(alloc, family, params, indices.as_slice())?)?;
    let sort = Expr::sort(alloc, level.copy(alloc)?)?;
    let ty = pis_over(alloc, params, telescope.as_slice(), sort)?;
    let binder = simple_binder(alloc, "motive", BinderKind::Implicit)?;
    Ok(Local { binder, ty })
}

// Puts the terms but for the first `n` behind `all`.
#[tactic(auto, using(crate::proofs::Lists::drop_one))]
fn push_after(all: &mut Vec<Expr>, n: usize, terms: &[Expr]) -> Result<(), NoMemory>
    ensures { OnOk result (all.new.items ≡ all.old.items ++ drop n terms.now) }
{
    let alloc = *all.allocator();
    match terms {
        [] => Ok(()),
        [x, xs @ ..] => {
            if n > 0 {
                return push_after(all, n - 1, xs);
            }
            all.push(x.copy(alloc)?)?;
            push_after(all, 0, xs)
        }
    }
}

/// Puts the indices of the type behind `all`.
pub fn push_indices(all: &mut Vec<Expr>, family: &Family, ty: &Expr) -> Result<(), NoMemory>
    ensures { OnOk result (all.new.items ≡ all.old.items ++ spec.indices_of (family_of family.now) ty.now) }
{
    let alloc = *all.allocator();
    let given = arguments(alloc, ty)?;
    push_after(all, family.params.len(), given.as_slice())
}

/// The motive at the indices of the type `ty`, and at a member `x` of it.
fn motive_at(alloc: Global, family: &Family, ty: &Expr, x: Expr) -> Result<Expr, NoMemory>
    ensures { IfOk result (λ t. t ≡ spec.motive_at (family_of family.now) ty.now x) }
{
    let mut places = Vec::new(alloc);
    push_indices(&mut places, family, ty)?;
    places.push(x)?;
    apply(alloc, motive(alloc, family)?, places.as_slice())
}

// Puts the variables of the `n` innermost binders behind `all`, from the outside in.
#[tactic(auto, using(crate::proofs::Lists::innermost_onto))]
fn push_innermost(all: &mut Vec<Expr>, n: u32) -> Result<(), NoMemory>
    ensures { OnOk result (all.new.items ≡ all.old.items ++ spec.innermost n) }
{
    let alloc = *all.allocator();
    if n == 0 {
        return Ok(());
    }
    all.push(Expr::bound(alloc, n - 1)?)?;
    push_innermost(all, n - 1)
}

/// `x` at the variables of the `n` innermost binders.
pub fn at_innermost(alloc: Global, x: &Expr, n: u32) -> Result<Expr, NoMemory>
    ensures { IfOk result (λ t. t ≡ spine.apply x.now (spec.innermost n)) }
{
    let mut variables = Vec::new(alloc);
    push_innermost(&mut variables, n)?;
    apply(alloc, x.copy(alloc)?, variables.as_slice())
}

// What the motive says of the field `x` under all pis of its type, of which `n` are passed.
fn hypothesis(alloc: Global, family: &Family, x: &Expr, n: u32, ty: &Expr) -> Result<Expr, NoMemory>
    ensures { IfOk result (λ t. t ≡ spec.hypothesis (family_of family.now) x.now n ty.now) }
{
    match ty.node() {
        ExprNode::Pi(z, a, b) => {
            let next = n.checked_add(1).ok_or(NoMemory)?;
            let under = hypothesis(alloc, family, x, next, b)?;
            Expr::pi(alloc, z.copy(alloc)?, a.copy(alloc)?, under)
        }
        _ => {
            let x = at_innermost(alloc, x, n)?;
            motive_at(alloc, family, ty, x)
        }
    }
}

// Puts the hypotheses of fields that begin at `i` behind `all`.
fn push_hypotheses(
    all: &mut Vec<Local>,
    family: &Family,
    i: u32,
    fields: &[Local],
) -> Result<(), NoMemory>
    ensures { OnOk result (all.new.items ≡ all.old.items ++ spec.hypotheses (family_of family.now) i fields.now) }
{
    let alloc = *all.allocator();
    match fields {
        [] => Ok(()),
        [x, xs @ ..] => {
            if is_recursive(family, &x.ty) {
                let name = hypothesis_name(alloc, &x.binder.name)?;
                let field = Expr::free(alloc, i)?;
                let ty = hypothesis(alloc, family, &field, 0, &x.ty)?;
                let kind = BinderKind::Explicit;
                let binder = Binder { name, kind };
                all.push(Local { binder, ty })?;
            }
            let next = i.checked_add(1).ok_or(NoMemory)?;
            push_hypotheses(all, family, next, xs)
        }
    }
}

// The type of the minor premise of a constructor.
fn minor_type(alloc: Global, family: &Family, case: &Case) -> Result<Expr, NoMemory>
    ensures { IfOk result (λ t. t ≡ spec.minor_type (family_of family.now) case.now) }
{
    let params = count(family.params.as_slice())?;
    let first = params.checked_add(1).ok_or(NoMemory)?;
    let opened = open_all(alloc, first, &case.body)?;
    let mut places = Vec::new(alloc);
    push_variables(&mut places, 0, family.params.as_slice())?;
    push_variables(&mut places, first, opened.locals.as_slice())?;
    let levels = copy_all(alloc, family.levels.as_slice())?;
    let constructor = Expr::constant(alloc, case.constructor.copy(alloc)?, levels)?;
    let member = apply(alloc, constructor, places.as_slice())?;
    let end = motive_at(alloc, family, &opened.rest, member)?;
    let mut telescope = Vec::new(alloc);
    push_locals(&mut telescope, opened.locals.as_slice())?;
    push_hypotheses(&mut telescope, family, first, opened.locals.as_slice())?;
    pis_over(alloc, first, telescope.as_slice(), end)
}

/// Puts equal locals behind `all`.
pub fn push_locals(all: &mut Vec<Local>, locals: &[Local]) -> Result<(), NoMemory>
    ensures { OnOk result (all.new.items ≡ all.old.items ++ locals.now) }
{
    let alloc = *all.allocator();
    match locals {
        [] => Ok(()),
        [x, xs @ ..] => {
            all.push(x.copy(alloc)?)?;
            push_locals(all, xs)
        }
    }
}

fn push_minors(all: &mut Vec<Local>, family: &Family, cases: &[Case]) -> Result<(), NoMemory>
    ensures { OnOk result (all.new.items ≡ all.old.items ++ spec.minors (family_of family.now) cases.now) }
{
    let alloc = *all.allocator();
    match cases {
        [] => Ok(()),
        [c, cs @ ..] => {
            let ty = minor_type(alloc, family, c)?;
            let name = last_part(alloc, &c.constructor)?;
            let kind = BinderKind::Explicit;
            let binder = Binder { name, kind };
            all.push(Local { binder, ty })?;
            push_minors(all, family, cs)
        }
    }
}

/// Parameters, motive and minor premises; the motive is into the sort of this level.
pub fn shared(alloc: Global, family: &Family, level: &Level) -> Result<Vec<Local>, NoMemory>
    ensures { IfOk result (λ xs. xs.items ≡ spec.shared (family_of family.now) level.now) }
{
    let mut all = Vec::new(alloc);
    push_of_kind(&mut all, BinderKind::Implicit, family.params.as_slice())?;
    all.push(motive_local(alloc, family, level)?)?;
    push_minors(&mut all, family, family.cases.as_slice())?;
    Ok(all)
}
