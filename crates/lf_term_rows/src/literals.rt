//! The functions of `Nat` on literals.
use crate::fault::Fault;
use crate::row::Row;
use lf_lit::{LitOut, apply, nat_op, operation};
use std::alloc::Global;

fn shown(alloc: Global, out: Option<LitOut>) -> Result<String, Fault> {
    match out {
        Some(LitOut::Nat(number)) => Ok(format!(in alloc; "{number}")?),
        Some(LitOut::Bool(holds)) => Ok(format!(in alloc; "{holds}")?),
        None => Ok(String::from_str(alloc, "none")?),
    }
}

fn by_text(row: &mut Row<'_>) -> Result<String, Fault> {
    let text = row.text()?;
    let a = row.number()?;
    let b = row.number()?;
    shown(row.alloc, nat_op(text, a, b))
}

fn by_name(row: &mut Row<'_>) -> Result<String, Fault> {
    let name = row.name()?;
    let a = row.number()?;
    let b = row.number()?;
    match operation(&name) {
        Some(operation) => shown(row.alloc, apply(operation, a, b)),
        None => Ok(String::from_str(row.alloc, "no operation")?),
    }
}

fn operation_of(row: &mut Row<'_>) -> Result<String, Fault> {
    let name = row.name()?;
    match operation(&name) {
        Some(operation) => Ok(format!(in row.alloc; "{operation:?}")?),
        None => Ok(String::from_str(row.alloc, "no operation")?),
    }
}

pub fn answer(call: &str, row: &mut Row<'_>) -> Result<String, Fault> {
    match call {
        "text" => by_text(row),
        "name" => by_name(row),
        "operation" => operation_of(row),
        _ => Err(Fault::Malformed),
    }
}
