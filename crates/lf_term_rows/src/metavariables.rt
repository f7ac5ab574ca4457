//! Metavariables: the steps of a row are taken one after the other.
use crate::fault::Fault;
use crate::row::{Row, place, units};
use crate::terms::{counted, optional, shown};
use lf_core::{Expr, Level};
use lf_meta::Metas;
use lf_notation::{level, term, written_level};
use std::alloc::Global;

/// How many locals each metavariable is made for.
const LOCALS: u32 = 2;

// The word before the first blank, and what is behind it.
fn parted(text: &str) -> (&str, &str) {
    match text.split_once(' ') {
        Some((word, rest)) => (word, rest),
        None => (text, ""),
    }
}

// One more metavariable, of type `Prop`, made at the place of its number.
fn make_one(metas: &mut Metas) -> Result<(), Fault> {
    let alloc = metas.alloc();
    let ty = Expr::sort(alloc, Level::zero(alloc)?)?;
    let number = metas.count();
    if number == u32::MAX {
        return Err(Fault::NoMemory);
    }
    metas.fresh(ty, LOCALS, number as usize)?;
    Ok(())
}

fn make(metas: &mut Metas, text: &str) -> Result<String, Fault> {
    for _ in 0..place(text)? {
        make_one(metas)?;
    }
    let count = metas.count();
    Ok(format!(in metas.alloc(); "{count} made")?)
}

fn make_level(metas: &mut Metas) -> Result<String, Fault> {
    if metas.level_count() == u32::MAX {
        return Err(Fault::NoMemory);
    }
    let number = metas.fresh_level()?;
    let count = metas.level_count();
    Ok(format!(in metas.alloc(); "'m{number} of {count}")?)
}

// Nothing is assigned a second time.
fn assign_term(metas: &mut Metas, m: u32, value: Expr) -> Result<(), Fault> {
    if metas.value(m).is_some() {
        return Err(Fault::Malformed);
    }
    metas.assign(m, value)?;
    Ok(())
}

fn assigned(metas: &Metas) -> Result<String, Fault> {
    Ok(String::from_str(metas.alloc(), "assigned")?)
}

fn assign(metas: &mut Metas, text: &str) -> Result<String, Fault> {
    let (m, value) = parted(text);
    let m = place(m)?;
    let value = term(metas.alloc(), value)?;
    assign_term(metas, m, value)?;
    assigned(metas)
}

fn assign_level(metas: &mut Metas, text: &str) -> Result<String, Fault> {
    let (m, value) = parted(text);
    let m = place(m)?;
    let value = level(metas.alloc(), value)?;
    if metas.level_value(m).is_some() {
        return Err(Fault::Malformed);
    }
    metas.assign_level(m, value)?;
    assigned(metas)
}

// So many metavariables, each but the last for a variable applied to the next one twice.
fn doubling(metas: &mut Metas, text: &str) -> Result<String, Fault> {
    let number = place(text)?;
    let alloc = metas.alloc();
    make(metas, text)?;
    for m in 1..number {
        let once = Expr::app(alloc, Expr::free(alloc, 0)?, Expr::meta(alloc, m)?)?;
        let twice = Expr::app(alloc, once, Expr::meta(alloc, m)?)?;
        assign_term(metas, m - 1, twice)?;
    }
    mark(metas)
}

fn put_within(metas: &Metas, text: &str) -> Result<String, Fault> {
    let (left, of) = parted(text);
    let left = units(left)?;
    let of = term(metas.alloc(), of)?;
    match metas.put_within(&of, left)? {
        Some(made) => shown(metas.alloc(), &made),
        None => Ok(String::from_str(metas.alloc(), "too large")?),
    }
}

fn instantiate(metas: &Metas, text: &str) -> Result<String, Fault> {
    let (left, of) = parted(text);
    let left = units(left)?;
    let of = term(metas.alloc(), of)?;
    let made = metas.instantiate(&of, left)?;
    counted(metas.alloc(), &made)
}

fn put_in(metas: &Metas, text: &str) -> Result<String, Fault> {
    let of = term(metas.alloc(), text)?;
    let made = metas.put_in(&of)?;
    shown(metas.alloc(), &made)
}

fn put_in_level(metas: &Metas, text: &str) -> Result<String, Fault> {
    let of = level(metas.alloc(), text)?;
    let made = metas.put_in_level(&of)?;
    Ok(written_level(metas.alloc(), &made)?)
}

fn has_assigned(metas: &Metas, text: &str) -> Result<String, Fault> {
    let holds = metas.has_assigned(&term(metas.alloc(), text)?);
    Ok(format!(in metas.alloc(); "{holds}")?)
}

fn value(metas: &Metas, text: &str) -> Result<String, Fault> {
    optional(metas.alloc(), metas.value(place(text)?))
}

fn level_value(metas: &Metas, text: &str) -> Result<String, Fault> {
    match metas.level_value(place(text)?) {
        Some(level) => Ok(written_level(metas.alloc(), level)?),
        None => Ok(String::from_str(metas.alloc(), "none")?),
    }
}

fn origin(metas: &Metas, text: &str) -> Result<String, Fault> {
    let m = place(text)?;
    if m >= metas.count() {
        return Err(Fault::Malformed);
    }
    let ty = shown(metas.alloc(), metas.ty(m))?;
    let locals = metas.locals(m);
    let at = metas.at(m);
    let all = metas.types().len();
    Ok(format!(in metas.alloc(); "{ty} for {locals} at {at}, of {all}")?)
}

fn mark(metas: &Metas) -> Result<String, Fault> {
    let mark = metas.mark();
    Ok(format!(in metas.alloc(); "{mark} changes")?)
}

fn undo(metas: &mut Metas, text: &str) -> Result<String, Fault> {
    metas.undo(place(text)? as usize);
    mark(metas)
}

// What the step reads, which changes nothing.
fn read(metas: &Metas, call: &str, text: &str) -> Result<String, Fault> {
    match call {
        "put" => put_within(metas, text),
        "instantiate" => instantiate(metas, text),
        "whole" => put_in(metas, text),
        "whole-level" => put_in_level(metas, text),
        "has-assigned" => has_assigned(metas, text),
        "value" => value(metas, text),
        "level-value" => level_value(metas, text),
        "origin" => origin(metas, text),
        "mark" => mark(metas),
        _ => Err(Fault::Malformed),
    }
}

fn step(metas: &mut Metas, text: &str) -> Result<String, Fault> {
    let (call, text) = parted(text);
    match call {
        "make" => make(metas, text),
        "make-level" => make_level(metas),
        "assign" => assign(metas, text),
        "assign-level" => assign_level(metas, text),
        "doubling" => doubling(metas, text),
        "undo" => undo(metas, text),
        _ => read(metas, call, text),
    }
}

fn write_step(
    alloc: Global,
    told: &mut String,
    metas: &mut Metas,
    text: &str,
) -> Result<(), Fault> {
    if !told.is_empty() {
        told.push_str(" | ")?;
    }
    match step(metas, text) {
        Ok(answer) => told.push_str(answer.as_str())?,
        Err(fault) => {
            let answer = format!(in alloc; "{fault:?}")?;
            told.push_str(answer.as_str())?
        }
    }
    Ok(())
}

pub fn answer(call: &str, row: &Row<'_>) -> Result<String, Fault> {
    if call != "steps" {
        return Err(Fault::Malformed);
    }
    let mut metas = Metas::new(row.alloc);
    let mut told = String::new(row.alloc);
    for text in row.rest()?.split('|') {
        write_step(row.alloc, &mut told, &mut metas, text.trim())?;
    }
    Ok(told)
}
