//! References of the headers of commands.
ghost use Rattle.std.specs.Prelude.{◌≡◌, ◌++◌, OnOk, IfOk, flat_map};
ghost use Rattle.lf_elaboration.specs.References.{groups_references, stated_references, value_references};
ghost use Rattle.lf_elaboration.specs.References.{constructor_references, field_references, header_references};

use crate::terms::{option_references, term_references};
use lf_base::NoMemory;
use lf_elaboration::Reference;
use lf_syntax::{Binders, Command, CtorDecl, Decl, FieldDecl, Term};
use std::alloc::Global;

/// Adds the references of groups of binders, in order.
fn groups_references(
    alloc: Global,
    groups: &[Binders],
    all: &mut Vec<Reference>,
) -> Result<(), NoMemory>
    ensures { OnOk result (all.new.items ≡ all.old.items ++ groups_references groups.now) }
{
    for group in groups {
        term_references(alloc, &group.ty, all)?;
    }
    Ok(())
}

/// Adds the references of the binders and the type of a declaration.
fn stated_references(alloc: Global, decl: &Decl, all: &mut Vec<Reference>) -> Result<(), NoMemory>
    ensures { OnOk result (all.new.items ≡ all.old.items ++ stated_references decl.now) }
{
    groups_references(alloc, decl.binders.as_slice(), all)?;
    option_references(alloc, &decl.ty, all)
}

/// Adds the references of a definition's value, where it has no type.
fn value_references(
    alloc: Global,
    ty: &Option<Term>,
    value: &Term,
    all: &mut Vec<Reference>,
) -> Result<(), NoMemory>
    ensures { OnOk result (all.new.items ≡ all.old.items ++ value_references ty.now value.now) }
{
    match ty {
        Some(_) => Ok(()),
        None => term_references(alloc, value, all),
    }
}

fn constructor_references(
    alloc: Global,
    ctor: &CtorDecl,
    all: &mut Vec<Reference>,
) -> Result<(), NoMemory>
    ensures { OnOk result (all.new.items ≡ all.old.items ++ constructor_references ctor.now) }
{
    groups_references(alloc, ctor.binders.as_slice(), all)?;
    option_references(alloc, &ctor.ty, all)
}

fn constructors_references(
    alloc: Global,
    ctors: &[CtorDecl],
    all: &mut Vec<Reference>,
) -> Result<(), NoMemory>
    ensures { OnOk result (all.new.items ≡ all.old.items ++ flat_map constructor_references ctors.now) }
{
    for ctor in ctors {
        constructor_references(alloc, ctor, all)?;
    }
    Ok(())
}

fn fields_references(
    alloc: Global,
    fields: &[FieldDecl],
    all: &mut Vec<Reference>,
) -> Result<(), NoMemory>
    ensures { OnOk result (all.new.items ≡ all.old.items ++ flat_map field_references fields.now) }
{
    for field in fields {
        term_references(alloc, &field.ty, all)?;
    }
    Ok(())
}

fn add_header(alloc: Global, command: &Command, all: &mut Vec<Reference>) -> Result<(), NoMemory>
    ensures { OnOk result (all.new.items ≡ all.old.items ++ header_references command.now) }
{
    match command {
        Command::Axiom(decl)
        | Command::Equations { decl, .. }
        | Command::Theorem { decl, .. }
        | Command::Instance { decl, .. } => stated_references(alloc, decl, all),
        Command::Def { decl, value, .. } => {
            stated_references(alloc, decl, all)?;
            value_references(alloc, &decl.ty, value, all)
        }
        Command::Inductive { decl, ctors } => {
            stated_references(alloc, decl, all)?;
            constructors_references(alloc, ctors.as_slice(), all)
        }
        Command::Structure { decl, fields } | Command::Class { decl, fields } => {
            stated_references(alloc, decl, all)?;
            fields_references(alloc, fields.as_slice(), all)
        }
        Command::Variable { binders, .. } => groups_references(alloc, binders.as_slice(), all),
        Command::Check { term, .. } | Command::Reduce { term, .. } => {
            term_references(alloc, term, all)
        }
        Command::PrintAxioms { .. }
        | Command::Namespace { .. }
        | Command::Section { .. }
        | Command::End { .. }
        | Command::OpenNames { .. }
        | Command::Universe { .. }
        | Command::Bad { .. } => Ok(()),
    }
}

/// The names that the header of a command refers to, in order: its binders and type; for a definition without a type
/// its value, for an inductive type its constructors, for a structure or a class its fields. `NoMemory` is its one
/// fault.
pub fn header_references(alloc: Global, command: &Command) -> Result<Vec<Reference>, NoMemory>
    ensures { IfOk result (λ all. all.items ≡ header_references command.now) }
{
    let mut all = Vec::new(alloc);
    add_header(alloc, command, &mut all)?;
    Ok(all)
}
