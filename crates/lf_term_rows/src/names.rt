//! Names and binders.
use crate::fault::Fault;
use crate::row::{Row, truth};
use lf_notation::{written_binder, written_name};

fn child(row: &mut Row<'_>) -> Result<String, Fault> {
    let name = row.name()?;
    let child = name.child(row.alloc, row.text()?)?;
    Ok(written_name(row.alloc, &child)?)
}

fn is_child(row: &mut Row<'_>) -> Result<String, Fault> {
    let name = row.name()?;
    let prefix = row.name()?;
    truth(row.alloc, name.is_child_of(&prefix))
}

fn is_same(row: &mut Row<'_>) -> Result<String, Fault> {
    let one = row.name()?;
    let other = row.name()?;
    truth(row.alloc, one.is(&other))
}

fn copy(row: &mut Row<'_>) -> Result<String, Fault> {
    let copy = row.name()?.copy(row.alloc)?;
    Ok(written_name(row.alloc, &copy)?)
}

fn is_same_binder(row: &mut Row<'_>) -> Result<String, Fault> {
    let one = row.binder()?;
    let other = row.binder()?;
    truth(row.alloc, one.is(&other))
}

fn copied_binder(row: &mut Row<'_>) -> Result<String, Fault> {
    let copy = row.binder()?.copy(row.alloc)?;
    Ok(written_binder(row.alloc, &copy)?)
}

pub fn answer(call: &str, row: &mut Row<'_>) -> Result<String, Fault> {
    match call {
        "child" => child(row),
        "is child" => is_child(row),
        "same" => is_same(row),
        "copy" => copy(row),
        "same binder" => is_same_binder(row),
        "copy binder" => copied_binder(row),
        _ => Err(Fault::Malformed),
    }
}
