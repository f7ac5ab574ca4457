//! Declarations, with the variables and the level names that they take.
ghost use Rattle.std.specs.Prelude.{◌≡◌, ◌++◌, IfOk, OnOk, map};
ghost use Rattle.lf_document.specs.Setting as spec;
ghost use Rattle.lf_elaboration.specs.Scope.{names_of};
ghost use Rattle.lf_elaboration.specs.Variables.{level_names, variables_taken};

use lf_core::{Name, NoMemory};
use lf_forms::{OneBinder, group};
use lf_scope::{Scope, Variable};
use lf_syntax::{Binders, Command, Decl, Ident, Shared, Term};
use std::alloc::Global;
use std::marker::Model;

/// What a command declares: the name, with the namespace before it, and its place in the text, in bytes; the written level names, and all of
/// them; the binders, those of taken variables first; and the stated type.
#[derive(Debug, Drop)]
pub struct Declaration {
    pub name: Name,
    pub at: usize,
    pub written: Shared<Ident>,
    pub levels: Vec<Name>,
    pub binders: Vec<OneBinder>,
    pub ty: Option<Term>,
}

impl Model for Declaration {
    ghost use Rattle.std.specs.Coded.{codes};
    ghost use Rattle.lf_name.specs.contracts.binder.BinderKind as kinds;
    ghost use Rattle.lf_syntax.specs.Codes.{coded_term};
    ghost use Rattle.lf_syntax.specs.contracts.leaf.Ident as idents;
    ghost use Rattle.lf_document.specs.Setting as setting;

    ghost Value = { setting.Declaration };

    ghost coded = { Prim.hlevel (codes, coded_term, kinds.the_row.coded, idents.the_row.coded) };

    ghost view = { λ d. record {
      name = d.name;
      at = d.at;
      written = d.written;
      levels = d.levels.items;
      binders = d.binders.items;
      ty = d.ty;
    } };
}

/// What a command takes from its scope, beside the level names that are written: binders of variables, and all level names.
#[derive(Debug, Drop)]
pub struct Taken {
    pub binders: Vec<OneBinder>,
    pub levels: Vec<Name>,
}

// The binders are put behind the others.
fn put_binders(binders: Vec<OneBinder>, all: &mut Vec<OneBinder>) -> Result<(), NoMemory>
    ensures { OnOk result (all.new.items ≡ all.old.items ++ binders.items) }
{
    for binder in binders {
        all.push(binder)?;
    }
    Ok(())
}

// The binders of the groups are put behind the others.
fn put_groups(alloc: Global, groups: &[Binders], all: &mut Vec<OneBinder>) -> Result<(), NoMemory>
    ensures { OnOk result (all.new.items ≡ all.old.items ++ spec.of_groups groups.now) }
{
    'groups: for one in groups {
        let binders = group(alloc, one)?;
        put_binders(binders, all)?;
    }
    Ok(())
}

/// Written groups of binders, one binder for each name.
pub fn of_groups(alloc: Global, groups: &[Binders]) -> Result<Vec<OneBinder>, NoMemory>
    ensures { IfOk result (λ all. all.items ≡ spec.of_groups groups.now) }
{
    let mut all = Vec::new(alloc);
    put_groups(alloc, groups, &mut all)?;
    Ok(all)
}

// A binder for each variable.
fn of_variables(alloc: Global, variables: Vec<Variable>) -> Result<Vec<OneBinder>, NoMemory>
    ensures { IfOk result (λ all. all.items ≡ map spec.of_variable variables.items) }
{
    let mut all = Vec::new(alloc);
    for variable in variables {
        let Variable { kind, name, ty } = variable;
        all.push(OneBinder {
            kind,
            name,
            ty: Some(ty),
        })?;
    }
    Ok(all)
}

/// The variables and level names that the command takes, beside the written level names. `NoMemory` is the one fault.
pub fn taken_by(
    alloc: Global,
    scope: &Scope,
    command: &Command,
    written: &[Ident],
) -> Result<Taken, NoMemory>
    ensures binders { IfOk result (λ t. t.binders.items ≡ spec.taken_binders scope.now command.now) }
    ensures levels { IfOk result (λ t. t.levels.items ≡ level_names scope.now (names_of written.now) command.now) }
{
    let variables = scope.variables_taken(alloc, command)?;
    let levels = scope.level_names(alloc, written, command, variables.as_slice())?;
    let binders = of_variables(alloc, variables)?;
    Ok(Taken { binders, levels })
}

fn copy_type(alloc: Global, ty: &Option<Term>) -> Result<Option<Term>, NoMemory>
    ensures { IfOk result (λ t. t ≡ ty.now) }
{
    match ty {
        None => Ok(None),
        Some(ty) => Ok(Some(ty.copy(alloc)?)),
    }
}

/// The declaration of a command in its scope. `NoMemory` is the one fault.
pub fn declared(
    alloc: Global,
    scope: &Scope,
    command: &Command,
    decl: &Decl,
) -> Result<Declaration, NoMemory>
    ensures { IfOk result (λ d. d ≡ spec.declaration scope.now command.now decl.now) }
{
    let written = decl.levels.copy(alloc)?;
    let Taken { binders, levels } = taken_by(alloc, scope, command, decl.levels.as_slice())?;
    let mut all = binders;
    put_groups(alloc, decl.binders.as_slice(), &mut all)?;
    Ok(Declaration {
        name: scope.declared_name(alloc, &decl.name.name)?,
        at: decl.name.at,
        written,
        levels,
        binders: all,
        ty: copy_type(alloc, &decl.ty)?,
    })
}
