//! The definition of a field.
ghost use Rattle.std.specs.Prelude.{◌≡◌, None, IfOk};
ghost use Rattle.lf_checker.specs.View.{placed_of};
ghost use Rattle.lf_steps.specs.Runs.{Runs, Calm};
ghost use Rattle.lf_fields.specs.Parts as own;

use crate::kernel::{decl, header};
use crate::owner::{Owner, at_parameters};
use lf_check::Cx;
use lf_core::{Binder, BinderKind, ConstInfo, ConstKind, Detail, Expr, Name, NoMemory, copy_all};
use lf_steps::Halt;
use lf_telescope::{Local, lambdas_closed, pis_closed};
use std::alloc::Global;

/// The parameters and, behind them, `self`, whose binder is of this kind.
pub fn with_self(
    alloc: Global,
    kind: BinderKind,
    owner: Owner<'_>,
    params: Vec<Local>,
) -> Result<Vec<Local>, NoMemory>
    ensures { IfOk result (λ all. all.items
        ≡ own.with_self kind owner.entry.name.now owner.entry.levels.now owner.entry.params params.items) }
{
    let mut all = params;
    let name = Name::one(alloc, "self")?;
    let ty = at_parameters(alloc, owner)?;
    let binder = Binder { name, kind };
    all.push(Local { binder, ty })?;
    Ok(all)
}

// The field of number `i` of `self`, the variable behind the parameters.
fn projection(alloc: Global, owner: Owner<'_>, i: u32) -> Result<Expr, NoMemory>
    ensures { IfOk result (λ t. t ≡ own.projection owner.entry.name.now owner.entry.params i) }
{
    let subject = Expr::free(alloc, owner.params)?;
    Expr::proj(alloc, owner.name.copy(alloc)?, i, subject)
}

// The definition of this name, at height 0.
fn field_constant(
    alloc: Global,
    name: &Name,
    levels: &[Name],
    ty: Expr,
    value: Expr,
) -> Result<ConstInfo, NoMemory>
    ensures { IfOk result (λ c. c ≡ own.field_constant name.now levels.now ty value 0) }
{
    Ok(ConstInfo {
        name: name.copy(alloc)?,
        kind: ConstKind::Def,
        levels: copy_all(alloc, levels)?,
        ty,
        value: Some(value),
        height: 0,
        detail: Detail::Plain,
    })
}

/// The definition, under this name, of the field of number `i`, whose type speaks of `locals`, the parameters and `self`:
/// pis over them, and the projection under lambdas, as the kernel accepts them. Refused, Out and Need where the definition is.
#[tactic(auto, using(lf_steps::proofs::Runs::halts), unfolding(crate::specs::Parts::field_definition))]
pub fn field_definition(
    cx: Cx<'_>,
    units: &mut u64,
    owner: Owner<'_>,
    locals: &[Local],
    i: u32,
    name: &Name,
    ty: &Expr,
) -> Result<ConstInfo, Halt>
    ensures value { Runs (own.field_definition cx.entry.depth cx.entry.view.now owner.entry.name.now owner.entry.levels.now owner.entry.params locals.now i
        name.now ty.now units.old) result units.new }
    ensures new { IfOk result (λ c. placed_of cx.entry.view.now c.name ≡ None) }
    ensures calm { Calm result }
{
    let alloc = cx.alloc;
    let ty = pis_closed(alloc, units, 0, locals, ty.copy(alloc)?)?;
    let value = projection(alloc, owner, i)?;
    let value = lambdas_closed(alloc, units, 0, locals, value)?;
    let level = header(cx, units, name, &ty)?;
    drop(level);
    let mut info = field_constant(alloc, name, owner.levels, ty, value)?;
    let height = decl(cx, units, &info)?;
    info.height = height;
    Ok(info)
}
