//! What the branch of `foo`, of the command at 3, takes.
use crate::constants::{foo, whole};
use crate::stages::waiting;
use crate::tells::named;
use lf_branch::{Branch, BranchFault};
use lf_core::NoMemory;
use std::alloc::Global;

fn outcome(alloc: Global, added: Result<(), BranchFault>) -> Result<String, NoMemory> {
    match added {
        Ok(()) => Ok(format!(in alloc; "added")?),
        Err(BranchFault::Duplicate { position }) => {
            Ok(format!(in alloc; "an entry of position {position}")?)
        }
        Err(BranchFault::NotOwned) => Ok(format!(in alloc; "not owned")?),
        Err(BranchFault::Reserved) => Ok(format!(in alloc; "reserved")?),
        Err(BranchFault::Need(_)) => Ok(format!(in alloc; "not known yet")?),
        Err(BranchFault::NoMemory) => Err(NoMemory),
    }
}

fn added_line(alloc: Global, branch: &mut Branch, text: &str) -> Result<String, NoMemory> {
    let info = whole(alloc, named(alloc, text)?)?;
    let outcome = outcome(alloc, branch.add(alloc, info))?;
    Ok(format!(in alloc; "  {text}: {outcome}\n")?)
}

/// What comes of each name, in turn.
pub fn lines(alloc: Global) -> Result<String, NoMemory> {
    let view = waiting(alloc)?.at(alloc, 3)?;
    let mut branch = Branch::open(alloc, view, foo(alloc)?, 3)?;
    let mut text = format!(in alloc; "added to the branch of foo:\n")?;
    for name in [
        "bar",
        "foo",
        "foo.a.b",
        "foo.eq_1",
        "foo.eq_7",
        "foo.eq_66",
        "foo.aux",
        "foo.aux",
    ] {
        let line = added_line(alloc, &mut branch, name)?;
        text.push_str(line.as_str())?;
    }
    Ok(text)
}
