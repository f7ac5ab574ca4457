//! Answers of the unifier, as they are printed.
use lf_checker::TypeFault;
use lf_core::{Ans, NoMemory, TaskKey};
use lf_meta::Metas;
use lf_notation::{Unread, written, written_level, written_name};
use std::alloc::Global;

// Behind a comma where something stands already.
fn push(told: &mut String, part: &str) -> Result<(), NoMemory> {
    if !told.is_empty() {
        told.push_str(", ")?;
    }
    told.push_str(part)?;
    Ok(())
}

fn push_terms(alloc: Global, told: &mut String, metas: &Metas) -> Result<(), NoMemory> {
    for m in 0..metas.count() {
        if let Some(value) = metas.value(m) {
            let value = written(alloc, value)?;
            push(told, format!(in alloc; "?{m} := {value}")?.as_str())?;
        }
    }
    Ok(())
}

fn push_levels(alloc: Global, told: &mut String, metas: &Metas) -> Result<(), NoMemory> {
    for m in 0..metas.level_count() {
        if let Some(value) = metas.level_value(m) {
            let value = written_level(alloc, value)?;
            push(told, format!(in alloc; "level {m} := {value}")?.as_str())?;
        }
    }
    Ok(())
}

/// What is assigned, terms first.
pub fn assigned(alloc: Global, metas: &Metas) -> Result<String, NoMemory> {
    let mut told = String::new(alloc);
    push_terms(alloc, &mut told, metas)?;
    push_levels(alloc, &mut told, metas)?;
    if told.is_empty() {
        told.push_str("none")?;
    }
    Ok(told)
}

fn needed(alloc: Global, key: &TaskKey) -> Result<String, Unread> {
    match key {
        TaskKey::Head(position) => Ok(format!(in alloc; "need Head {position}")?),
        TaskKey::Body(position) => Ok(format!(in alloc; "need Body {position}")?),
        TaskKey::Real(name) => {
            let name = written_name(alloc, name)?;
            Ok(format!(in alloc; "need Real {name}")?)
        }
    }
}

/// What is answered, with the units that are left where they are told.
pub fn given(
    alloc: Global,
    answer: &Ans<bool, TypeFault>,
    left: Option<u64>,
) -> Result<String, Unread> {
    match answer {
        Ans::Done(same) => match left {
            Some(left) => Ok(format!(in alloc; "{same}, {left} left")?),
            None => Ok(format!(in alloc; "{same}")?),
        },
        Ans::Refused(_) => Ok(String::from_str(alloc, "refused")?),
        Ans::Out => Ok(String::from_str(alloc, "out")?),
        Ans::Need(key) => needed(alloc, key),
        Ans::Stopped => Ok(String::from_str(alloc, "stopped")?),
        Ans::NoMemory => Err(Unread::NoMemory),
    }
}
