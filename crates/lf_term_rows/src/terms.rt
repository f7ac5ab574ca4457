//! Terms as trees, and what is kept beside them.
use crate::fault::Fault;
use crate::row::{Row, truth};
use lf_core::Expr;
use lf_notation::written;
use std::alloc::Global;

/// The most nodes of a term that is written.
const LONGEST: u64 = 99;

/// The term, or its depth where it is long.
pub fn shown(alloc: Global, term: &Expr) -> Result<String, Fault> {
    if term.node_count() <= LONGEST {
        return Ok(written(alloc, term)?);
    }
    let depth = term.depth();
    Ok(format!(in alloc; "{depth} deep")?)
}

/// A term and a number of nodes that was told with it.
pub fn counted(alloc: Global, made: &(Expr, u64)) -> Result<String, Fault> {
    let text = shown(alloc, &made.0)?;
    let nodes = made.1;
    Ok(format!(in alloc; "{nodes} nodes: {text}")?)
}

/// The term, if there is one.
pub fn optional(alloc: Global, term: Option<&Expr>) -> Result<String, Fault> {
    match term {
        Some(term) => shown(alloc, term),
        None => Ok(String::from_str(alloc, "none")?),
    }
}

fn size(row: &mut Row<'_>) -> Result<String, Fault> {
    let term = row.term()?;
    let nodes = term.node_count();
    let depth = term.depth();
    Ok(format!(in row.alloc; "{nodes} nodes, {depth} deep")?)
}

fn bounds(row: &mut Row<'_>) -> Result<String, Fault> {
    let term = row.term()?;
    let loose = term.loose_bound();
    let free = term.free_bound();
    Ok(format!(in row.alloc; "loose below {loose}, free below {free}")?)
}

fn holds(row: &mut Row<'_>) -> Result<String, Fault> {
    let term = row.term()?;
    let terms = term.has_metavariable();
    let levels = term.has_level_metavariable();
    let parameter = term.has_parameter();
    Ok(format!(in row.alloc; "metavariable {terms}, of levels {levels}, parameter {parameter}")?)
}

fn is_scoped(row: &mut Row<'_>) -> Result<String, Fault> {
    let term = row.term()?;
    let under = row.place()?;
    let context = row.place()?;
    truth(row.alloc, term.is_scoped(under, context))
}

fn is_same(row: &mut Row<'_>) -> Result<String, Fault> {
    let one = row.term()?;
    let other = row.term()?;
    truth(row.alloc, one.is(&other))
}

fn copy(row: &mut Row<'_>) -> Result<String, Fault> {
    let term = row.term()?;
    let copy = term.copy(row.alloc)?;
    shown(row.alloc, &copy)
}

pub fn answer(call: &str, row: &mut Row<'_>) -> Result<String, Fault> {
    match call {
        "size" => size(row),
        "bounds" => bounds(row),
        "holds" => holds(row),
        "scoped" => is_scoped(row),
        "same" => is_same(row),
        "copy" => copy(row),
        _ => Err(Fault::Malformed),
    }
}
