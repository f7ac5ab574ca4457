//! Whether the names of the fields' definitions are new.
ghost use Rattle.std.specs.Prelude.{◌≡◌, ◌∷◌, ◌++◌, [], codes, IfOk, List};
ghost use Rattle.lf_rules.specs.Recursor as recursor;
ghost use Rattle.lf_core.specs.declared.constant.ConstInfo.{ConstInfo};
ghost use Rattle.lf_document.specs.Setting.{Declaration};
ghost use Rattle.lf_document.specs.StructureCommand as spec;
ghost use Rattle.lf_document.specs.Task.{Judged};
ghost use Rattle.lf_elaboration.specs.Part.{Run};
ghost use Rattle.lf_fields.specs.Meant as values;
ghost use Rattle.lf_fields.specs.declared.taken.FieldNames.TheVariants as variants;

use crate::naming::{constructor_name, joined, recursor_name};
use lf_core::{Name, NoMemory, TaskKey};
use lf_env::{Lookup, View};
use lf_syntax::Ident;
use std::alloc::Global;

/// Whether the names of the fields' definitions are new, by the first that may not be.
#[derive(Debug, Drop)]
pub enum FieldNames {
    New,
    /// The definition of the field at this place, in bytes, has a name that is there already.
    Taken { at: usize, name: Name },
    /// This has to be done first.
    Waits(TaskKey),
}

fn is_among(name: &Name, names: &[Name]) -> bool
    ensures { result ≡ recursor.is_among name.now names.now }
{
    'names: for other in names {
        if name.is(other) {
            return true;
        }
    }
    false
}

// The field at this place has a definition of a name that is there already.
fn taken_at(alloc: Global, at: usize, name: &Name) -> Result<FieldNames, NoMemory>
    ensures { IfOk result (λ v. v ≡ variants.Taken at name.now) }
{
    let name = name.copy(alloc)?;
    Ok(FieldNames::Taken { at, name })
}

// Whether a name that isn't in the view is among those that are taken.
fn beside(alloc: Global, taken: &[Name], at: usize, name: &Name) -> Result<FieldNames, NoMemory>
    ensures { IfOk result (λ v. v ≡ values.beside variants.New at name.now (recursor.is_among name.now taken.now)) }
{
    if is_among(name, taken) {
        return taken_at(alloc, at, name);
    }
    Ok(FieldNames::New)
}

// Whether the definition of the field at this place, which has this name, is new beside the names that are taken.
#[tactic(auto, using(lf_kernel::proofs::Places::placed_there, lf_kernel::proofs::Places::unplaced_there))]
fn name_of(
    alloc: Global,
    view: &View,
    taken: &[Name],
    at: usize,
    name: &Name,
) -> Result<FieldNames, NoMemory>
    ensures { IfOk result (λ v. v ≡ values.one view.now taken.now at name.now) }
{
    if let Some((_position, _)) = view.placed(name) {
        return taken_at(alloc, at, name);
    }
    match view.lookup(name) {
        Lookup::NeedBody(position) => Ok(FieldNames::Waits(TaskKey::Body(position))),
        Lookup::Found(_) => beside(alloc, taken, at, name),
        Lookup::Absent => beside(alloc, taken, at, name),
        Lookup::NeedReal => beside(alloc, taken, at, name),
    }
}

// The names of the definitions of these fields, beside those that are taken.
fn names_of(
    alloc: Global,
    view: &View,
    owner: &Name,
    taken: &mut Vec<Name>,
    fields: &[Ident],
) -> Result<FieldNames, NoMemory>
    ensures { IfOk result (λ v. v ≡ values.all view.now owner.now taken.old.items fields.now) }
{
    match fields {
        [] => Ok(FieldNames::New),
        [f, fs @ ..] => {
            let name = joined(alloc, owner, &f.name)?;
            let told = name_of(alloc, view, taken.as_slice(), f.at, &name)?;
            taken.insert(0, name)?;
            match told {
                FieldNames::New => names_of(alloc, view, owner, taken, fs),
                FieldNames::Taken { at, name } => Ok(FieldNames::Taken { at, name }),
                FieldNames::Waits(key) => Ok(FieldNames::Waits(key)),
            }
        }
    }
}

// The names that the declaration itself gives.
fn own_names(alloc: Global, owner: &Name) -> Result<Vec<Name>, NoMemory>
    ensures { IfOk result (λ all. all.items ≡ (owner.now ++ codes "mk" ∷ []) ∷ (owner.now ++ codes "rec" ∷ []) ∷ []) }
{
    let mut all = Vec::new(alloc);
    all.push(constructor_name(alloc, owner)?)?;
    all.push(recursor_name(alloc, owner)?)?;
    Ok(all)
}

/// Whether the names of the definitions of the fields of the declaration of this name are new: none is there, none is the
/// constructor's or the recursor's, and none repeats an earlier field's. Else what is told of the first field for which that
/// isn't known. `NoMemory` is the one fault.
pub fn unless_taken(
    alloc: Global,
    view: &View,
    owner: &Name,
    fields: &[Ident],
) -> Result<FieldNames, NoMemory>
    ensures { IfOk result (λ v. (D : Declaration) (m : Run (Judged (List ConstInfo))) → D.name ≡ owner.now
        → spec.unless_taken view.now D (spec.constructor_name D ∷ spec.recursor_name D ∷ []) fields.now m ≡ values.meant v m) }
{
    let mut taken = own_names(alloc, owner)?;
    let told = names_of(alloc, view, owner, &mut taken, fields)?;
    Ok(told)
}
