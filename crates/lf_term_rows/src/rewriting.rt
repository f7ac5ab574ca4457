//! The motive of a rewriting.
use crate::fault::Fault;
use crate::row::Row;
use crate::terms::optional;
use lf_rewrite::motive;

fn motive_of(row: &mut Row<'_>) -> Result<String, Fault> {
    let goal = row.term()?;
    let part = row.term()?;
    let made = motive(row.alloc, &goal, &part)?;
    optional(row.alloc, made.as_ref())
}

pub fn answer(call: &str, row: &mut Row<'_>) -> Result<String, Fault> {
    match call {
        "motive" => motive_of(row),
        _ => Err(Fault::Malformed),
    }
}
