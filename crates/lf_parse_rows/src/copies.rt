//! Copies of commands.
use crate::words::{put, word};
use lf_row_text::RowFault;
use lf_syntax::Command;
use std::alloc::Global;

// The copy with all its parts.
fn copied(alloc: Global, command: &Command) -> Result<String, RowFault> {
    let copy = command.copy(alloc)?;
    let text = format!(in alloc; "{copy:?}");
    drop(copy);
    Ok(text?)
}

fn is_same(alloc: Global, command: &Command) -> Result<bool, RowFault> {
    let wanted = format!(in alloc; "{command:?}")?;
    let got = copied(alloc, command)?;
    Ok(got.as_str() == wanted.as_str())
}

/// Each command by its word, and whether it and its copy print the same, in all parts.
pub fn compared(alloc: Global, commands: &[Command]) -> Result<String, RowFault> {
    let mut line = String::new(alloc);
    for command in commands {
        put(&mut line, word(command))?;
        let is_same = is_same(alloc, command)?;
        put(&mut line, if is_same { "same" } else { "differs" })?;
    }
    Ok(line)
}

/// Each command's copy with all its parts.
pub fn trees(alloc: Global, commands: &[Command]) -> Result<String, RowFault> {
    let mut line = String::new(alloc);
    for command in commands {
        put(&mut line, copied(alloc, command)?.as_str())?;
    }
    Ok(line)
}
