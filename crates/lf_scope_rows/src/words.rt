//! Scopes of commands, and names as short texts.
use crate::fault::Fault;
use lf_base::NoMemory;
use lf_elaboration::Variable;
use lf_name::Name;
use lf_scope::Scope;
use lf_syntax::{Command, Ident};
use std::alloc::Global;

/// The name of these parts, which stand between full stops.
pub fn read_name(alloc: Global, text: &str) -> Result<Name, Fault> {
    let mut parts = text.split('.');
    let first = parts.next().ok_or(Fault::Malformed)?;
    let mut name = Name::one(alloc, first)?;
    for part in parts {
        name = name.child(alloc, part)?;
    }
    Ok(name)
}

/// The scope after the commands, and how many of them are a mismatched `end`.
pub fn scope_after(alloc: Global, commands: &[Command]) -> Result<(Scope, usize), NoMemory> {
    let mut scope = Scope::start();
    let mut mismatched: usize = 0;
    for command in commands {
        let (after, is_mismatched) = scope.after(alloc, command)?;
        scope = after;
        if is_mismatched {
            mismatched = mismatched.saturating_add(1);
        }
    }
    Ok((scope, mismatched))
}

fn push_name(line: &mut String, name: &Name) -> Result<(), NoMemory> {
    if !line.is_empty() {
        line.push(' ')?;
    }
    for (i, part) in name.parts().iter().enumerate() {
        if i > 0 {
            line.push('.')?;
        }
        line.push_str(part.as_str())?;
    }
    Ok(())
}

/// The names, with a space between two.
pub fn names_shown(alloc: Global, names: &[Name]) -> Result<String, NoMemory> {
    let mut line = String::new(alloc);
    for name in names {
        push_name(&mut line, name)?;
    }
    Ok(line)
}

/// The variables' names, with a space between two.
pub fn variables_shown(alloc: Global, variables: &[Variable]) -> Result<String, NoMemory> {
    let mut line = String::new(alloc);
    for variable in variables {
        push_name(&mut line, &variable.name.name)?;
    }
    Ok(line)
}

/// Namespace, universe names, variables, classes and instances, with a bar between two.
pub fn state_shown(alloc: Global, scope: &Scope) -> Result<String, NoMemory> {
    let mut line = String::new(alloc);
    if let Some(name) = scope.namespace() {
        push_name(&mut line, name)?;
    }
    line.push('|')?;
    line.push_str(names_shown(alloc, &scope.universes(alloc)?)?.as_str())?;
    line.push('|')?;
    line.push_str(variables_shown(alloc, &scope.variables(alloc)?)?.as_str())?;
    line.push('|')?;
    line.push_str(names_shown(alloc, &scope.classes(alloc)?)?.as_str())?;
    line.push('|')?;
    line.push_str(names_shown(alloc, &scope.instances(alloc)?)?.as_str())?;
    Ok(line)
}

/// The level names that are written in the command.
pub fn written_levels(command: &Command) -> &[Ident] {
    match command {
        Command::Axiom(decl)
        | Command::Def { decl, .. }
        | Command::Equations { decl, .. }
        | Command::Theorem { decl, .. }
        | Command::Inductive { decl, .. }
        | Command::Structure { decl, .. }
        | Command::Class { decl, .. }
        | Command::Instance { decl, .. } => decl.levels.as_slice(),
        Command::Namespace { .. }
        | Command::Section { .. }
        | Command::End { .. }
        | Command::OpenNames { .. }
        | Command::Universe { .. }
        | Command::Variable { .. }
        | Command::Check { .. }
        | Command::Reduce { .. }
        | Command::PrintAxioms { .. }
        | Command::Bad { .. } => &[],
    }
}
