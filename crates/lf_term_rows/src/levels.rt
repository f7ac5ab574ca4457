//! Levels as trees.
use crate::fault::Fault;
use crate::row::{Row, truth};
use lf_core::{Level, levels_count, levels_longest, same_levels};
use lf_notation::written_level;

fn kept(row: &mut Row<'_>) -> Result<String, Fault> {
    let level = row.level()?;
    let nodes = level.node_count();
    let depth = level.depth();
    let metavariable = level.has_metavariable();
    let parameter = level.has_parameter();
    Ok(format!(in row.alloc;
        "{nodes} nodes, {depth} deep, metavariable {metavariable}, parameter {parameter}"
    )?)
}

fn is_same(row: &mut Row<'_>) -> Result<String, Fault> {
    let one = row.level()?;
    let other = row.level()?;
    truth(row.alloc, one.is(&other))
}

fn copy(row: &mut Row<'_>) -> Result<String, Fault> {
    let copy = row.level()?.copy(row.alloc)?;
    Ok(written_level(row.alloc, &copy)?)
}

fn substitute(row: &mut Row<'_>) -> Result<String, Fault> {
    let level: Level = row.level()?;
    let args = row.levels()?;
    let made = level.substitute(row.alloc, args.as_slice())?;
    Ok(written_level(row.alloc, &made)?)
}

fn all_are_same(row: &mut Row<'_>) -> Result<String, Fault> {
    let some = row.levels()?;
    let others = row.levels()?;
    truth(row.alloc, same_levels(some.as_slice(), others.as_slice()))
}

fn all_kept(row: &mut Row<'_>) -> Result<String, Fault> {
    let all = row.levels()?;
    let nodes = levels_count(all.as_slice()).ok_or(Fault::NoMemory)?;
    let depth = levels_longest(all.as_slice());
    Ok(format!(in row.alloc; "{nodes} nodes, {depth} deep")?)
}

pub fn answer(call: &str, row: &mut Row<'_>) -> Result<String, Fault> {
    match call {
        "kept" => kept(row),
        "same" => is_same(row),
        "copy" => copy(row),
        "substitute" => substitute(row),
        "all same" => all_are_same(row),
        "all kept" => all_kept(row),
        _ => Err(Fault::Malformed),
    }
}
