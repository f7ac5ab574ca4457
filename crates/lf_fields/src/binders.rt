//! The binders of a structure's constructor.
ghost use Rattle.std.specs.Prelude.{◌≡◌, ◌++◌, flat_map, IfOk, OnOk};
ghost use Rattle.lf_document.specs.StructureCommand.{field_binders};

use lf_core::{BinderKind, NoMemory};
use lf_forms::OneBinder;
use lf_syntax::FieldDecl;
use std::alloc::Global;

// Puts a binder for each name of the fields of one type behind `all`.
fn push_binders(alloc: Global, all: &mut Vec<OneBinder>, field: &FieldDecl) -> Result<(), NoMemory>
    ensures { OnOk result (all.new.items ≡ all.old.items ++ field_binders field.now) }
{
    for name in field.names.as_slice() {
        all.push(OneBinder {
            kind: BinderKind::Explicit,
            name: name.copy(alloc)?,
            ty: Some(field.ty.copy(alloc)?),
        })?;
    }
    Ok(())
}

/// The binders of the constructor, one for each field, all explicit.
pub fn constructor_binders(alloc: Global, fields: &[FieldDecl]) -> Result<Vec<OneBinder>, NoMemory>
    ensures { IfOk result (λ all. all.items ≡ flat_map field_binders fields.now) }
{
    let mut all = Vec::new(alloc);
    for field in fields {
        push_binders(alloc, &mut all, field)?;
    }
    Ok(all)
}
