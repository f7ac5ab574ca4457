//! Many entries: each is found from the position behind its own on, and not before.
use crate::constants::whole;
use lf_core::{Name, NoMemory};
use lf_env::{Lookup, View};
use std::alloc::Global;

/// How many commands there are.
const COMMANDS: u32 = 100;

fn numbered(alloc: Global, position: u32) -> Result<Name, NoMemory> {
    let text = format!(in alloc; "c{position}")?;
    Name::one(alloc, text.as_str())
}

// Puts the constant of the command at the position behind those of earlier commands.
fn push_one(alloc: Global, view: &mut View, position: u32) -> Result<(), NoMemory> {
    let name = numbered(alloc, position)?;
    if view.placed(&name).is_some() {
        return Err(NoMemory);
    }
    view.push(whole(alloc, name)?, position)
}

// The constant of each command, in order.
fn filled(alloc: Global) -> Result<View, NoMemory> {
    let mut view = View::new(alloc, Vec::new(alloc))?;
    for position in 0..COMMANDS {
        push_one(alloc, &mut view, position)?;
    }
    Ok(view)
}

fn is_found(alloc: Global, view: &View, position: u32) -> Result<bool, NoMemory> {
    let name = numbered(alloc, position)?;
    match view.lookup(&name) {
        Lookup::Found(_) => Ok(true),
        Lookup::Absent | Lookup::NeedBody(_) | Lookup::NeedReal => Ok(false),
    }
}

// One more than the position of the last constant that is found, 0 where none is.
fn found_before(alloc: Global, view: &View) -> Result<u32, NoMemory> {
    let mut found = 0;
    for position in 0..COMMANDS {
        if is_found(alloc, view, position)? {
            found = position + 1;
        }
    }
    Ok(found)
}

fn line_at(alloc: Global, view: &View, position: u32) -> Result<String, NoMemory> {
    let there = view.at(alloc, position)?;
    let found = found_before(alloc, &there)?;
    Ok(format!(in alloc; "  at {position}: {found}\n")?)
}

/// How many are found at positions round the sizes of layers.
pub fn lines(alloc: Global) -> Result<String, NoMemory> {
    let view = filled(alloc)?;
    let mut text = format!(in alloc; "of {COMMANDS} commands are found:\n")?;
    for position in [0, 1, 2, 7, 8, 63, 64, 65, 99, 100] {
        let line = line_at(alloc, &view, position)?;
        text.push_str(line.as_str())?;
    }
    Ok(text)
}
