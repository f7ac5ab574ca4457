//! The variables that are taken.
ghost use Rattle.std.specs.Prelude.{◌≡◌, ◌++◌, IfOk, OnOk, filter, length, map};
ghost use Rattle.lf_elaboration.specs.Variables.{goes_along, holds, is_named, taken, takes};
ghost use Rattle.lf_variables.specs.Chosen.{chosen, is_asked_for, of_types};

use crate::naming::is_named;
use crate::terms::term_references;
use lf_base::NoMemory;
use lf_elaboration::{Reference, Variable};
use lf_name::BinderKind;
use std::alloc::Global;

/// An equal variable, which shares its name and its type.
fn copy(alloc: Global, variable: &Variable) -> Result<Variable, NoMemory>
    ensures { IfOk result (λ v. v ≡ variable.now) }
{
    Ok(Variable {
        kind: variable.kind,
        name: variable.name.copy(alloc)?,
        ty: variable.ty.copy(alloc)?,
    })
}

fn add_copies(
    alloc: Global,
    references: &[Reference],
    all: &mut Vec<Reference>,
) -> Result<(), NoMemory>
    ensures { OnOk result (all.new.items ≡ all.old.items ++ references.now) }
{
    for reference in references {
        all.push(match reference {
            Reference::Term(name) => Reference::Term(name.copy(alloc)?),
            Reference::Level(name) => Reference::Level(name.copy(alloc)?),
        })?;
    }
    Ok(())
}

/// The references, and behind them those of the types of the variables.
pub fn with_types(
    alloc: Global,
    references: &[Reference],
    variables: &[Variable],
) -> Result<Vec<Reference>, NoMemory>
    ensures { IfOk result (λ all. all.items ≡ references.now ++ of_types variables.now) }
{
    let mut all = Vec::new(alloc);
    add_copies(alloc, references, &mut all)?;
    for variable in variables {
        term_references(alloc, &variable.ty, &mut all)?;
    }
    Ok(all)
}

/// Whether the variable is among those taken; places tell variables apart.
fn holds(taken: &[Variable], variable: &Variable) -> bool
    ensures { result ≡ holds taken.now variable.now }
{
    for held in taken {
        if held.name.at == variable.name.at {
            return true;
        }
    }
    false
}

/// Whether the references name at least one of the variables, and all that they name are taken.
#[tactic(auto, using(crate::proofs::Lists::and_true, crate::proofs::Lists::and_false, crate::proofs::Lists::or_true, crate::proofs::Lists::or_false))]
fn goes_along(variables: &[Variable], references: &[Reference], taken: &[Variable]) -> bool
    ensures { result ≡ goes_along taken.now (filter (is_named references.now) variables.now) }
{
    let mut some = false;
    for variable in variables {
        if is_named(references, variable) {
            if !holds(taken, variable) {
                return false;
            }
            some = true;
        }
    }
    some
}

/// Whether the variable is taken where these are, of which `references` has the header's references and those of their
/// types.
fn is_asked_for(
    alloc: Global,
    variables: &[Variable],
    references: &[Reference],
    taken: &[Variable],
    variable: &Variable,
) -> Result<bool, NoMemory>
    ensures { IfOk result (λ b. b ≡ is_asked_for variables.now references.now taken.now variable.now.kind variable.now) }
{
    match variable.kind {
        BinderKind::Explicit | BinderKind::Implicit => Ok(is_named(references, variable)),
        BinderKind::Inst => {
            let mut named = Vec::new(alloc);
            term_references(alloc, &variable.ty, &mut named)?;
            Ok(goes_along(variables, &named, taken))
        }
    }
}

/// Which of the variables are taken where these are.
fn round(
    alloc: Global,
    variables: &[Variable],
    header: &[Reference],
    taken: &[Variable],
) -> Result<Vec<bool>, NoMemory>
    ensures { IfOk result (λ flags. flags.items ≡ map (λ v. takes variables.now header.now taken.now v.kind v) variables.now) }
{
    let references = with_types(alloc, header, taken)?;
    let mut flags = Vec::new(alloc);
    for variable in variables {
        flags.push(is_asked_for(alloc, variables, &references, taken, variable)?)?;
    }
    Ok(flags)
}

/// Those of the variables whose flag is set.
fn chosen(alloc: Global, variables: &[Variable], flags: &[bool]) -> Result<Vec<Variable>, NoMemory>
    requires { length flags.now ≡ length variables.now }
    ensures { IfOk result (λ vs. vs.items ≡ chosen variables.now flags.now) }
{
    let mut all = Vec::new(alloc);
    for (i, variable) in variables.iter().enumerate() {
        if flags[i] {
            all.push(copy(alloc, variable)?)?;
        }
    }
    Ok(all)
}

/// Which of the variables are taken by a header with these references, in order: round by round, those that the header
/// or what is taken asks for, until a round changes nothing. `NoMemory` is the one fault.
#[tactic(auto, using(crate::proofs::Taking::none_chosen))]
pub fn taken(
    alloc: Global,
    variables: &[Variable],
    header: &[Reference],
) -> Result<Vec<Variable>, NoMemory>
    ensures { IfOk result (λ vs. vs.items ≡ taken variables.now header.now) }
{
    let mut all = Vec::new(alloc);
    let mut flags = vec![in alloc; false; variables.len()]?;
    for _steps in 0..variables.len() {
        let next = round(alloc, variables, header, &all)?;
        if next == flags {
            return Ok(all);
        }
        all = chosen(alloc, variables, &next)?;
        flags = next;
    }
    Ok(all)
}
