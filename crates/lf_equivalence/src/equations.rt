//! Equations of the two sides of a constructor.
ghost use Rattle.std.specs.Prelude.{◌≡◌, ◌++◌, ◌∷◌, [], IfOk, OnOk};
ghost use Rattle.lf_core.specs.Spine as spine;
ghost use Rattle.lf_core.specs.Term.{const};
ghost use Rattle.lf_elaboration.specs.Injectivity as spec;
ghost use Rattle.lf_injectivity.specs.Values.{sides};

use lf_core::{Binder, BinderKind, Expr, Level, Name, NoMemory, copy_all};
use lf_injectivity::{Field, Sides};
use lf_items::push_all;
use lf_recursor::Local;
use lf_steps::apply;
use sqlite_items::Items;
use std::alloc::Global;

/// That the two terms of this type, whose sort has this level, are equal.
pub fn equation(
    alloc: Global,
    level: &Level,
    ty: &Expr,
    left: &Expr,
    right: &Expr,
) -> Result<Expr, NoMemory>
    ensures { IfOk result (λ t. t ≡ spec.equation level.now ty.now left.now right.now) }
{
    let mut levels = Items::new(alloc);
    levels.push(level.copy(alloc)?)?;
    let whole = Expr::constant(alloc, Name::one(alloc, "Eq")?, levels)?;
    let whole = Expr::app(alloc, whole, ty.copy(alloc)?)?;
    let whole = Expr::app(alloc, whole, left.copy(alloc)?)?;
    Expr::app(alloc, whole, right.copy(alloc)?)
}

// Puts the first side's fields behind `all`.
fn push_lefts(all: &mut Vec<Expr>, of: &[Field]) -> Result<(), NoMemory>
    ensures { OnOk result (all.new.items ≡ all.old.items ++ spec.lefts of.now) }
{
    let alloc = *all.allocator();
    match of {
        [] => Ok(()),
        [f, fs @ ..] => {
            all.push(f.left.copy(alloc)?)?;
            push_lefts(all, fs)
        }
    }
}

// Puts the second side's fields behind `all`.
fn push_rights(all: &mut Vec<Expr>, of: &[Field]) -> Result<(), NoMemory>
    ensures { OnOk result (all.new.items ≡ all.old.items ++ spec.rights of.now) }
{
    let alloc = *all.allocator();
    match of {
        [] => Ok(()),
        [f, fs @ ..] => {
            all.push(f.right.copy(alloc)?)?;
            push_rights(all, fs)
        }
    }
}

// The constructor.
fn constructor(alloc: Global, s: &Sides) -> Result<Expr, NoMemory>
    ensures { IfOk result (λ t. t ≡ const s.now.constructor s.now.levels) }
{
    Expr::constant(
        alloc,
        s.constructor.copy(alloc)?,
        copy_all(alloc, s.levels.as_slice())?,
    )
}

/// The constructor at the parameters.
pub fn at_parameters(alloc: Global, s: &Sides) -> Result<Expr, NoMemory>
    ensures { IfOk result (λ t. t ≡ spine.apply (const s.now.constructor s.now.levels) s.now.params.items) }
{
    apply(alloc, constructor(alloc, s)?, s.params.as_slice())
}

// The constructor at the parameters and the first side's fields.
fn left_of(alloc: Global, s: &Sides) -> Result<Expr, NoMemory>
    ensures { IfOk result (λ t. t ≡ spec.left_of (sides s.now)) }
{
    let mut all = Vec::new(alloc);
    push_all(&mut all, s.params.as_slice())?;
    push_lefts(&mut all, s.fields.as_slice())?;
    apply(alloc, constructor(alloc, s)?, all.as_slice())
}

// The constructor at the parameters and the second side's fields.
fn right_of(alloc: Global, s: &Sides) -> Result<Expr, NoMemory>
    ensures { IfOk result (λ t. t ≡ spec.right_of (sides s.now)) }
{
    let mut all = Vec::new(alloc);
    push_all(&mut all, s.params.as_slice())?;
    push_rights(&mut all, s.fields.as_slice())?;
    apply(alloc, constructor(alloc, s)?, all.as_slice())
}

/// That the two sides are equal.
pub fn whole_equation(alloc: Global, s: &Sides) -> Result<Expr, NoMemory>
    ensures { IfOk result (λ t. t ≡ spec.whole_equation (sides s.now)) }
{
    let left = left_of(alloc, s)?;
    let right = right_of(alloc, s)?;
    equation(alloc, &s.level, &s.ty, &left, &right)
}

/// That the field is the same on both sides.
pub fn field_equation(alloc: Global, f: &Field) -> Result<Expr, NoMemory>
    ensures { IfOk result (λ t. t ≡ spec.field_equation f.now) }
{
    equation(alloc, &f.level, &f.ty, &f.left, &f.right)
}

/// The binder `h` of this type.
pub fn hypothesis(alloc: Global, ty: Expr) -> Result<Local, NoMemory>
    ensures { IfOk result (λ x. x ≡ spec.hypothesis ty) }
{
    let name = Name::one(alloc, "h")?;
    let kind = BinderKind::Explicit;
    let binder = Binder { name, kind };
    Ok(Local { binder, ty })
}
