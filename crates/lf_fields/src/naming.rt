//! The names that a structure's declaration gives.
ghost use Rattle.std.specs.Prelude.{◌≡◌, ◌++◌, ◌∷◌, [], codes, IfOk, OnOk};
ghost use Rattle.lf_document.specs.StructureCommand as spec;

use lf_core::{Name, NoMemory, Word, copy_all};
use lf_syntax::{FieldDecl, Ident};
use std::alloc::Global;

/// The second name behind the first.
pub fn joined(alloc: Global, prefix: &Name, name: &Name) -> Result<Name, NoMemory>
    ensures { IfOk result (λ n. n ≡ prefix.now ++ name.now) }
{
    let mut parts = copy_all(alloc, prefix.parts())?;
    for part in name.parts() {
        parts.push(part.copy(alloc)?)?;
    }
    Name::new(alloc, parts)
}

/// The name of the one constructor of the declaration of this name.
pub fn constructor_name(alloc: Global, name: &Name) -> Result<Name, NoMemory>
    ensures { IfOk result (λ n. n ≡ name.now ++ codes "mk" ∷ []) }
{
    name.child(alloc, "mk")
}

/// The name of its recursor.
pub fn recursor_name(alloc: Global, name: &Name) -> Result<Name, NoMemory>
    ensures { IfOk result (λ n. n ≡ name.now ++ codes "rec" ∷ []) }
{
    name.child(alloc, "rec")
}

// Puts these identifiers behind `all`.
fn push_idents(alloc: Global, all: &mut Vec<Ident>, idents: &[Ident]) -> Result<(), NoMemory>
    ensures { OnOk result (all.new.items ≡ all.old.items ++ idents.now) }
{
    for ident in idents {
        all.push(ident.copy(alloc)?)?;
    }
    Ok(())
}

/// The names of all fields, in order.
pub fn field_names(alloc: Global, fields: &[FieldDecl]) -> Result<Vec<Ident>, NoMemory>
    ensures { IfOk result (λ all. all.items ≡ spec.field_names fields.now) }
{
    let mut all = Vec::new(alloc);
    for field in fields {
        push_idents(alloc, &mut all, field.names.as_slice())?;
    }
    Ok(all)
}
