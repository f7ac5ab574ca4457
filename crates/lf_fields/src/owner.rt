//! What the definitions of fields read of their declaration.
ghost use Rattle.std.specs.Prelude.{◌≡◌, ◌++◌, IfOk, OnOk};
ghost use Rattle.lf_document.specs.Inductives as spec;
ghost use Rattle.lf_document.specs.Inductives.{first_locals};
ghost use Rattle.lf_document.specs.Setting.{Declaration};
ghost use Rattle.lf_fields.specs.Parts as own;
ghost use Rattle.lf_fields.specs.Within.{IsOf};

use lf_core::{CtorInfo, Expr, IndDecl, Name, NoMemory, copy_all};
use lf_steps::apply;
use lf_telescope::at_itself;
use sqlite_items::Items;
use std::alloc::Global;

/// What the definitions of fields read of their declaration: its name, all its level names, the number of its parameters.
#[derive(Clone, Copy)]
pub struct Owner<'a> {
    pub name: &'a Name,
    pub levels: &'a [Name],
    pub params: u32,
}

// Puts `n` variables, of which the first has the number `k`, behind `all`.
#[tactic(auto, using(crate::proofs::Lists::locals_onto))]
fn push_first(all: &mut Vec<Expr>, k: u32, n: u32) -> Result<(), NoMemory>
    ensures { OnOk result (all.new.items ≡ all.old.items ++ first_locals k n) }
{
    let alloc = *all.allocator();
    if n == 0 {
        return Ok(());
    }
    all.push(Expr::free(alloc, k)?)?;
    let next = k.checked_add(1).ok_or(NoMemory)?;
    push_first(all, next, n - 1)
}

// The declared type at its own levels and its parameters.
fn applied(alloc: Global, owner: Owner<'_>) -> Result<Expr, NoMemory>
    ensures { IfOk result (λ t. t ≡ own.at_parameters owner.entry.name.now owner.entry.levels.now owner.entry.params) }
{
    let constant = at_itself(alloc, owner.name, owner.levels, &[])?;
    let mut all = Vec::new(alloc);
    push_first(&mut all, 0, owner.params)?;
    apply(alloc, constant, all.as_slice())
}

/// The declared type at its own levels and its parameters, which are the first variables.
pub fn at_parameters(alloc: Global, owner: Owner<'_>) -> Result<Expr, NoMemory>
    ensures value { IfOk result (λ t. t ≡ own.at_parameters owner.entry.name.now owner.entry.levels.now owner.entry.params) }
    ensures command { IfOk result (λ t. (D : Declaration) → IsOf owner.entry D → t ≡ spec.at_parameters D) }
{
    let term = applied(alloc, owner)?;
    Ok(term)
}

// The declaration of this type and these constructors.
fn declared(
    alloc: Global,
    owner: Owner<'_>,
    ty: Expr,
    ctors: Items<CtorInfo>,
) -> Result<IndDecl, NoMemory>
    ensures { IfOk result (λ d. d ≡ own.declaring owner.entry.name.now owner.entry.levels.now owner.entry.params ty ctors) }
{
    Ok(IndDecl {
        name: owner.name.copy(alloc)?,
        levels: copy_all(alloc, owner.levels)?,
        params: owner.params,
        ty,
        ctors,
    })
}

/// The declaration that the kernel is asked for, of this type and these constructors.
pub fn declaring(
    alloc: Global,
    owner: Owner<'_>,
    ty: Expr,
    ctors: Items<CtorInfo>,
) -> Result<IndDecl, NoMemory>
    ensures { IfOk result (λ d. (D : Declaration) → IsOf owner.entry D → d ≡ spec.declaring D ty ctors) }
{
    let declaration = declared(alloc, owner, ty, ctors)?;
    Ok(declaration)
}
