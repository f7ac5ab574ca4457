//! Substitution in terms.
use crate::fault::Fault;
use crate::row::Row;
use crate::terms::{counted, shown};
use lf_subst::{abstract_free, at_levels, close_body, instantiate, level_inst, open_body};

fn instance(row: &mut Row<'_>) -> Result<String, Fault> {
    let body = row.term()?;
    let arg = row.term()?;
    let made = instantiate(row.alloc, &body, &arg, row.units()?)?;
    counted(row.alloc, &made)
}

fn abstracted(row: &mut Row<'_>) -> Result<String, Fault> {
    let term = row.term()?;
    let k = row.place()?;
    let made = abstract_free(row.alloc, &term, k, row.units()?)?;
    counted(row.alloc, &made)
}

fn levels_in(row: &mut Row<'_>) -> Result<String, Fault> {
    let term = row.term()?;
    let args = row.levels()?;
    let made = level_inst(row.alloc, &term, args.as_slice(), row.units()?)?;
    counted(row.alloc, &made)
}

fn opened(row: &mut Row<'_>) -> Result<String, Fault> {
    let body = row.term()?;
    let made = open_body(row.alloc, &body, row.place()?)?;
    shown(row.alloc, &made)
}

fn closed(row: &mut Row<'_>) -> Result<String, Fault> {
    let term = row.term()?;
    let made = close_body(row.alloc, &term, row.place()?)?;
    shown(row.alloc, &made)
}

fn unlimited_levels(row: &mut Row<'_>) -> Result<String, Fault> {
    let term = row.term()?;
    let args = row.levels()?;
    let made = at_levels(row.alloc, &term, args.as_slice())?;
    shown(row.alloc, &made)
}

pub fn answer(call: &str, row: &mut Row<'_>) -> Result<String, Fault> {
    match call {
        "instantiate" => instance(row),
        "abstract" => abstracted(row),
        "levels" => levels_in(row),
        "open" => opened(row),
        "close" => closed(row),
        "at levels" => unlimited_levels(row),
        _ => Err(Fault::Malformed),
    }
}
