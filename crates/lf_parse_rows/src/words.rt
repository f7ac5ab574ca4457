//! Commands as short texts.
use lf_base::NoMemory;
use lf_syntax::{Command, SyntaxFault};
use std::alloc::Global;

/// The word for a fault.
fn fault_word(fault: SyntaxFault) -> &'static str {
    match fault {
        SyntaxFault::Token => "token!",
        SyntaxFault::End => "end!",
        SyntaxFault::Char => "char!",
        SyntaxFault::Comment => "comment!",
        SyntaxFault::Numeral => "numeral!",
        SyntaxFault::Wide => "wide!",
        SyntaxFault::Deep => "deep!",
    }
}

/// The word for a command; that of a bad one is its fault's.
pub fn word(command: &Command) -> &'static str {
    match command {
        Command::Axiom(_) => "axiom",
        Command::Def { .. } => "def",
        Command::Equations { .. } => "equations",
        Command::Theorem { .. } => "theorem",
        Command::Inductive { .. } => "inductive",
        Command::Structure { .. } => "structure",
        Command::Class { .. } => "class",
        Command::Instance { .. } => "instance",
        Command::Namespace { .. } => "namespace",
        Command::Section { .. } => "section",
        Command::End { .. } => "end",
        Command::OpenNames { .. } => "open",
        Command::Universe { .. } => "universe",
        Command::Variable { .. } => "variable",
        Command::Check { .. } => "check",
        Command::Reduce { .. } => "reduce",
        Command::PrintAxioms { .. } => "axioms",
        Command::Bad { fault, .. } => fault_word(*fault),
    }
}

/// The place of a command, in bytes.
fn place(command: &Command) -> usize {
    match command {
        Command::Axiom(decl) => decl.at,
        Command::Def { decl, .. }
        | Command::Equations { decl, .. }
        | Command::Theorem { decl, .. }
        | Command::Inductive { decl, .. }
        | Command::Structure { decl, .. }
        | Command::Class { decl, .. }
        | Command::Instance { decl, .. } => decl.at,
        Command::Namespace { at, .. }
        | Command::Section { at, .. }
        | Command::End { at, .. }
        | Command::OpenNames { at, .. }
        | Command::Universe { at, .. }
        | Command::Variable { at, .. }
        | Command::Check { at, .. }
        | Command::Reduce { at, .. }
        | Command::PrintAxioms { at, .. }
        | Command::Bad { at, .. } => *at,
    }
}

/// Puts a part at the end of a line, behind a space.
pub fn put(line: &mut String, part: &str) -> Result<(), NoMemory> {
    if !line.is_empty() {
        line.push(' ')?;
    }
    line.push_str(part)?;
    Ok(())
}

/// Each command by its word and its place in bytes, which of a bad one are its fault's.
pub fn shown(alloc: Global, commands: &[Command]) -> Result<String, NoMemory> {
    let mut line = String::new(alloc);
    for command in commands {
        put(&mut line, word(command))?;
        put(&mut line, format!(in alloc; "{}", place(command))?.as_str())?;
    }
    Ok(line)
}
