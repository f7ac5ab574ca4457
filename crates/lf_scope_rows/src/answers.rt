//! What the calls on scopes answer.
use crate::fault::Fault;
use crate::words::{
    names_shown, read_name, scope_after, state_shown, variables_shown, written_levels,
};
use lf_parse_cmd::parse;
use lf_scope::Scope;
use lf_syntax::Command;
use lf_text::Text;
use lf_variables::repeated_level;
use std::alloc::Global;

// The commands of a text, in which `\n` ends a line.
fn commands(alloc: Global, text: &str) -> Result<Vec<Command>, Fault> {
    let text = text.trim().replace(alloc, "\\n", "\n")?;
    let text = Text::read(alloc, text.as_bytes())?;
    Ok(parse(alloc, &text)?)
}

// The candidates of an identifier after a text, in the value of a declared name where there is one.
fn candidates(alloc: Global, row: &str) -> Result<String, Fault> {
    let (text, rest) = row.split_once(';').ok_or(Fault::Malformed)?;
    let (ident, inside) = rest.split_once(';').ok_or(Fault::Malformed)?;
    let (scope, _) = scope_after(alloc, &commands(alloc, text)?)?;
    let ident = read_name(alloc, ident.trim())?;
    let inside = inside.trim();
    let declared = if inside.is_empty() {
        None
    } else {
        Some(read_name(alloc, inside)?)
    };
    let names = scope.candidates(alloc, &ident, declared.as_ref())?;
    Ok(names_shown(alloc, &names)?)
}

// How many of the commands are a mismatched `end`.
fn mismatched(alloc: Global, text: &str) -> Result<String, Fault> {
    let (_, mismatched) = scope_after(alloc, &commands(alloc, text)?)?;
    Ok(format!(in alloc; "{mismatched}")?)
}

fn state(alloc: Global, text: &str) -> Result<String, Fault> {
    let (scope, _) = scope_after(alloc, &commands(alloc, text)?)?;
    Ok(state_shown(alloc, &scope)?)
}

fn taken_by(alloc: Global, scope: &Scope, command: &Command) -> Result<String, Fault> {
    let variables = scope.variables_taken(alloc, command)?;
    Ok(variables_shown(alloc, &variables)?)
}

fn levels_of(alloc: Global, scope: &Scope, command: &Command) -> Result<String, Fault> {
    let taken = scope.variables_taken(alloc, command)?;
    let levels = scope.level_names(alloc, written_levels(command), command, &taken)?;
    Ok(names_shown(alloc, &levels)?)
}

// The variables that the last command of a text takes.
fn variables(alloc: Global, text: &str) -> Result<String, Fault> {
    let commands = commands(alloc, text)?;
    let [before @ .., last] = commands.as_slice() else {
        return Err(Fault::Malformed);
    };
    let (scope, _) = scope_after(alloc, before)?;
    taken_by(alloc, &scope, last)
}

// The level names of the last command of a text.
fn levels(alloc: Global, text: &str) -> Result<String, Fault> {
    let commands = commands(alloc, text)?;
    let [before @ .., last] = commands.as_slice() else {
        return Err(Fault::Malformed);
    };
    let (scope, _) = scope_after(alloc, before)?;
    levels_of(alloc, &scope, last)
}

// The place of the first repeated level name of a command.
fn repeated(alloc: Global, text: &str) -> Result<String, Fault> {
    let commands = commands(alloc, text)?;
    let [command] = commands.as_slice() else {
        return Err(Fault::Malformed);
    };
    match repeated_level(written_levels(command)) {
        Some(level) => {
            let at = level.at;
            Ok(format!(in alloc; "{at}")?)
        }
        None => Ok(String::from_str(alloc, "none")?),
    }
}

/// What a row asks for.
pub fn answer(alloc: Global, row: &str) -> Result<String, Fault> {
    let (call, of) = row.split_once(';').ok_or(Fault::Malformed)?;
    match call {
        "candidates" => candidates(alloc, of),
        "mismatched" => mismatched(alloc, of),
        "state" => state(alloc, of),
        "variables" => variables(alloc, of),
        "levels" => levels(alloc, of),
        "repeated" => repeated(alloc, of),
        _ => Err(Fault::Malformed),
    }
}
