//! Answers as text.
use lf_core::{Name, NoMemory};
use lf_env::{BodyOf, Lookup, View};
use lf_notation::name;
use std::alloc::Global;

/// The name that is written so.
pub fn named(alloc: Global, text: &str) -> Result<Name, NoMemory> {
    name(alloc, text).map_err(|_| NoMemory)
}

fn body(alloc: Global, body: BodyOf<'_>) -> Result<String, NoMemory> {
    match body {
        BodyOf::Value(_) => Ok(format!(in alloc; "a value")?),
        BodyOf::Opaque => Ok(format!(in alloc; "none")?),
        BodyOf::NeedBody(position) => Ok(format!(in alloc; "needs body {position}")?),
    }
}

fn found(alloc: Global, view: &View, name: &Name) -> Result<String, NoMemory> {
    match view.lookup(name) {
        Lookup::Found(_) => {
            let unfolds = body(alloc, view.body(name))?;
            Ok(format!(in alloc; "found, unfolds to: {unfolds}")?)
        }
        Lookup::Absent => Ok(format!(in alloc; "absent")?),
        Lookup::NeedBody(position) => Ok(format!(in alloc; "needs body {position}")?),
        Lookup::NeedReal => Ok(format!(in alloc; "needs to be realized")?),
    }
}

/// What the view finds under this name, and where it stands.
pub fn found_line(alloc: Global, view: &View, text: &str) -> Result<String, NoMemory> {
    let name = named(alloc, text)?;
    let found = found(alloc, view, &name)?;
    match view.placed(&name) {
        Some((position, place)) => {
            Ok(format!(in alloc; "  {text}: {found}; entry {place}, of position {position}\n")?)
        }
        None => Ok(format!(in alloc; "  {text}: {found}\n")?),
    }
}
