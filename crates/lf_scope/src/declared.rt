//! The level names and the variables of commands, one by one.
ghost use Rattle.std.specs.Prelude.{◌≡◌, ◌++◌, OnOk, IfOk, map, flat_map};
ghost use Rattle.lf_syntax.specs.TermNode.{binders_tree};
ghost use Rattle.lf_elaboration.specs.Scope.{names_of};
ghost use Rattle.lf_elaboration.specs.Variables.{in_group};

use crate::chain::{Chain, in_order};
use lf_base::NoMemory;
use lf_elaboration::Variable;
use lf_name::Name;
use lf_syntax::{Binders, Ident, Shared};
use std::alloc::Global;

fn add_names(alloc: Global, idents: &[Ident], all: &mut Vec<Name>) -> Result<(), NoMemory>
    ensures { OnOk result (all.new.items ≡ all.old.items ++ names_of idents.now) }
{
    for ident in idents {
        all.push(ident.name.copy(alloc)?)?;
    }
    Ok(())
}

/// The names that the commands have, in order.
pub fn name_list(alloc: Global, chain: &Chain<Shared<Ident>>) -> Result<Vec<Name>, NoMemory>
    ensures { IfOk result (λ all. all.items ≡ flat_map names_of chain.now) }
{
    let commands = in_order(alloc, chain)?;
    let mut all = Vec::new(alloc);
    for idents in commands.as_slice() {
        add_names(alloc, idents.as_slice(), &mut all)?;
    }
    Ok(all)
}

fn add_group(alloc: Global, group: &Binders, all: &mut Vec<Variable>) -> Result<(), NoMemory>
    ensures { OnOk result (all.new.items ≡ all.old.items ++ in_group (binders_tree group.now)) }
{
    for name in group.names.as_slice() {
        all.push(Variable {
            kind: group.kind,
            name: name.copy(alloc)?,
            ty: group.ty.copy(alloc)?,
        })?;
    }
    Ok(())
}

fn add_groups(alloc: Global, groups: &[Binders], all: &mut Vec<Variable>) -> Result<(), NoMemory>
    ensures { OnOk result (all.new.items ≡ all.old.items ++ flat_map in_group (map binders_tree groups.now)) }
{
    for group in groups {
        add_group(alloc, group, all)?;
    }
    Ok(())
}

/// The variables that the commands have, each of a group by itself, in order.
pub fn variable_list(
    alloc: Global,
    chain: &Chain<Shared<Binders>>,
) -> Result<Vec<Variable>, NoMemory>
    ensures { IfOk result (λ all. all.items ≡ flat_map in_group (flat_map (λ bs. map binders_tree bs) chain.now)) }
{
    let commands = in_order(alloc, chain)?;
    let mut all = Vec::new(alloc);
    for groups in commands.as_slice() {
        add_groups(alloc, groups.as_slice(), &mut all)?;
    }
    Ok(all)
}
