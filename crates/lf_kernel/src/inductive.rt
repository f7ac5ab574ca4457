//! Inductive declarations, before their types are judged: closed, and under new names.
ghost use Rattle.std.specs.Prelude.{◌≡◌, ◌∷◌, [], IfOk};
ghost use Rattle.lf_rules.specs.Recursor as recursor;
ghost use Rattle.lf_kernel.specs.Checked as own;
ghost use Rattle.lf_steps.specs.Runs.{Runs, Calm};

use crate::closed::{are_closed, is_closed};
use crate::fresh::unless_there;
use lf_checker::TypeFault;
use lf_core::{CtorInfo, IndDecl, Name, NoMemory};
use lf_env::View;
use lf_steps::{Halt, refusal};
use std::alloc::Global;

fn is_among(name: &Name, names: &[Name]) -> bool
    ensures { result ≡ recursor.is_among name.now names.now }
{
    'names: for other in names {
        if name.is(other) {
            return true;
        }
    }
    false
}

// Goes on where no entry has this name and it isn't taken by the declaration itself.
#[tactic(auto, using(lf_steps::proofs::Runs::halts), unfolding(crate::specs::Checked::name_new))]
fn unless_taken_already(
    alloc: Global,
    view: &View,
    units: &mut u64,
    taken: &[Name],
    name: &Name,
) -> Result<(), Halt>
    ensures value { Runs (own.name_new view.now taken.now name.now units.old) result units.new }
    ensures calm { Calm result }
{
    unless_there(alloc, view, units, name)?;
    if is_among(name, taken) {
        let fault = TypeFault::Duplicate {
            name: name.copy(alloc)?,
            position: view.position(),
        };
        return Err(Halt::Refused(refusal(alloc, fault)));
    }
    Ok(())
}

// Goes on where the constructors' names are new, beside those that are taken.
#[tactic(auto, using(crate::proofs::Declarable::ends_at, crate::proofs::Declarable::passes_at, crate::proofs::Declarable::halts_at))]
fn unless_any_taken(
    alloc: Global,
    view: &View,
    units: &mut u64,
    taken: &mut Vec<Name>,
    ctors: &[CtorInfo],
) -> Result<(), Halt>
    ensures value { Runs (own.names_untaken view.now taken.old.items ctors.now units.old) result units.new }
    ensures calm { Calm result }
{
    'constructors: for ctor in ctors {
        unless_taken_already(alloc, view, units, taken.as_slice(), &ctor.name)?;
        taken.insert(0, ctor.name.copy(alloc)?)?;
    }
    Ok(())
}

fn recursor_name(alloc: Global, decl: &IndDecl) -> Result<Name, NoMemory>
    ensures { IfOk result (λ n. n ≡ recursor.recursor_name decl.now) }
{
    decl.name.child(alloc, "rec")
}

// The names that no constructor may have.
fn own_names(alloc: Global, name: &Name, recursor: &Name) -> Result<Vec<Name>, NoMemory>
    ensures { IfOk result (λ all. all.items ≡ name.now ∷ recursor.now ∷ []) }
{
    let mut all = Vec::new(alloc);
    all.push(name.copy(alloc)?)?;
    all.push(recursor.copy(alloc)?)?;
    Ok(all)
}

// Goes on where the names that the declaration gives are new.
#[tactic(auto, using(lf_steps::proofs::Runs::halts))]
fn unless_named(alloc: Global, view: &View, units: &mut u64, decl: &IndDecl) -> Result<(), Halt>
    ensures value { Runs (own.names_new view.now decl.now units.old) result units.new }
    ensures calm { Calm result }
{
    let recursor = recursor_name(alloc, decl)?;
    let mut taken = own_names(alloc, &decl.name, &recursor)?;
    unless_there(alloc, view, units, &decl.name)?;
    unless_any_taken(alloc, view, units, &mut taken, decl.ctors.as_slice())?;
    unless_there(alloc, view, units, &recursor)
}

/// Goes on where the types of the declaration are closed and its names are new: the type's, the constructors', the
/// recursor's, in this order.
#[tactic(auto, unfolding(crate::specs::Checked::declarable))]
pub fn unless_declared(
    alloc: Global,
    view: &View,
    units: &mut u64,
    decl: &IndDecl,
) -> Result<(), Halt>
    ensures value { Runs (own.declarable view.now decl.now units.old) result units.new }
    ensures calm { Calm result }
{
    if !(is_closed(&decl.ty) && are_closed(decl.ctors.as_slice())) {
        return Err(Halt::Refused(refusal(alloc, TypeFault::NotClosed)));
    }
    unless_named(alloc, view, units, decl)
}
