//! Answers of the kernel's calls, against what is wanted.
ghost use Rattle.std.specs.Prelude.{◌≡◌, ◌↔◌, IsTrue};
ghost use Rattle.std.specs.Option.{option_copied};
ghost use Rattle.lf_asking.specs.Values as values;

use lf_checker::TypeFault;
use lf_core::{Ans, Expr, Name, TaskKey};
use lf_notation::{Unread, name, names, term, terms};
use std::alloc::Global;

/// What a call is to answer.
#[derive(Clone, Copy)]
pub enum Wanted<'a> {
    /// This value, whatever units are left.
    Gives(&'a str),
    /// This value, with so many units left.
    Done(&'a str, u64),
    /// This fault, under binders of these names, whatever units are left.
    Refused(&'a str, &'a str),
    /// The same with so many units left.
    RefusedWith(&'a str, &'a str, u64),
    Out,
    /// `Body 3`, or `Real f.eq_1`.
    Need(&'a str),
    Stopped,
}

/// What a call leaves: names of opened binders, and units.
#[derive(Clone, Copy)]
pub struct Left<'a> {
    pub opened: &'a [Name],
    pub units: u64,
}

/// The text of the value that is wanted with so many units left, if one is.
pub fn wanted_value<'a>(wanted: &Wanted<'a>, units: u64) -> Option<&'a str>
    ensures { option_copied result ≡ values.wanted_value wanted.now units }
{
    match wanted {
        Wanted::Gives(text) => Some(text),
        Wanted::Done(text, left) if *left == units => Some(text),
        _ => None,
    }
}

// Whether these are the wanted names, in their order.
fn same_names(found: &[Name], wanted: &[Name]) -> bool
    ensures { IsTrue result ↔ (found.now ≡ wanted.now) }
{
    match found {
        [] => match wanted {
            [] => true,
            [_y, _ys @ ..] => false,
        },
        [x, xs @ ..] => match wanted {
            [] => false,
            [y, ys @ ..] => x.is(y) && same_names(xs, ys),
        },
    }
}

fn are_names(alloc: Global, found: &[Name], text: &str) -> Result<bool, Unread> {
    let wanted = names(alloc, text)?;
    let same = same_names(found, wanted.as_slice());
    drop(wanted);
    Ok(same)
}

fn is_name(alloc: Global, found: &Name, text: &str) -> Result<bool, Unread> {
    Ok(found.is(&name(alloc, text)?))
}

// A name and a number, as `T.mk 1`.
fn is_numbered(alloc: Global, found: &Name, number: u32, text: &str) -> Result<bool, Unread> {
    match text.split_once(' ') {
        Some((text, wanted)) if wanted.parse::<u32>() == Ok(number) => {
            is_name(alloc, found, text)
        }
        _ => Ok(false),
    }
}

fn is_term(alloc: Global, found: &Expr, text: &str) -> Result<bool, Unread> {
    let wanted = term(alloc, text)?;
    let same = found.is(&wanted);
    drop(wanted);
    Ok(same)
}

fn are_two(alloc: Global, first: &Expr, second: &Expr, text: &str) -> Result<bool, Unread> {
    let wanted = terms(alloc, text)?;
    let same = match wanted.as_slice() {
        [a, b] => first.is(a) && second.is(b),
        _ => false,
    };
    drop(wanted);
    Ok(same)
}

// The word of the fault, as it is written.
fn word_of(fault: &TypeFault) -> &'static str {
    match fault {
        TypeFault::Unknown(_) => "Unknown",
        TypeFault::Levels(_) => "Levels",
        TypeFault::NotFunction(_) => "NotFunction",
        TypeFault::Argument(_, _) => "Argument",
        TypeFault::NotType(_) => "NotType",
        TypeFault::Value(_, _) => "Value",
        TypeFault::NotClosed => "NotClosed",
        TypeFault::NotStructure(_) => "NotStructure",
        TypeFault::NotPositive(_, _) => "NotPositive",
        TypeFault::BadResult(_) => "BadResult",
        TypeFault::LevelTooHigh(_, _) => "LevelTooHigh",
        TypeFault::BadType => "BadType",
        TypeFault::Duplicate { .. } => "Duplicate",
    }
}

// What the fault carries, as it is written behind its word.
fn carries(alloc: Global, fault: &TypeFault, text: &str) -> Result<bool, Unread> {
    match fault {
        TypeFault::Unknown(name) | TypeFault::Levels(name) | TypeFault::BadResult(name) => {
            is_name(alloc, name, text)
        }
        TypeFault::NotFunction(ty) | TypeFault::NotType(ty) | TypeFault::NotStructure(ty) => {
            is_term(alloc, ty, text)
        }
        TypeFault::Argument(has, wanted) | TypeFault::Value(has, wanted) => {
            are_two(alloc, has, wanted, text)
        }
        TypeFault::NotPositive(name, field) | TypeFault::LevelTooHigh(name, field) => {
            is_numbered(alloc, name, *field, text)
        }
        TypeFault::Duplicate { name, position } => is_numbered(alloc, name, *position, text),
        TypeFault::NotClosed | TypeFault::BadType => Ok(text.is_empty()),
    }
}

fn is_fault(alloc: Global, fault: &TypeFault, text: &str) -> Result<bool, Unread> {
    match text.strip_prefix(word_of(fault)) {
        Some(rest) => carries(alloc, fault, rest.trim_start()),
        None => Ok(false),
    }
}

fn is_refused(
    alloc: Global,
    fault: &TypeFault,
    left: Left<'_>,
    wanted: &Wanted<'_>,
) -> Result<bool, Unread> {
    match wanted {
        Wanted::Refused(text, opened) => {
            Ok(is_fault(alloc, fault, text)? && are_names(alloc, left.opened, opened)?)
        }
        Wanted::RefusedWith(text, opened, units) => Ok(
            left.units == *units
                && is_fault(alloc, fault, text)?
                && are_names(alloc, left.opened, opened)?,
        ),
        _ => Ok(false),
    }
}

fn is_key(alloc: Global, key: &TaskKey, text: &str) -> Result<bool, Unread> {
    let (kind, rest) = text.split_once(' ').ok_or(Unread::Malformed)?;
    match key {
        TaskKey::Head(position) => Ok(kind == "Head" && rest.parse::<u32>() == Ok(*position)),
        TaskKey::Body(position) => Ok(kind == "Body" && rest.parse::<u32>() == Ok(*position)),
        TaskKey::Real(name) => Ok(kind == "Real" && is_name(alloc, name, rest)?),
    }
}

/// Whether an answer without a value is the one that is wanted.
pub fn ends_as_wanted<T>(
    alloc: Global,
    answer: &Ans<T, TypeFault>,
    left: Left<'_>,
    wanted: &Wanted<'_>,
) -> Result<bool, Unread> {
    match answer {
        Ans::Done(_) => Ok(false),
        Ans::Refused(fault) => is_refused(alloc, fault, left, wanted),
        Ans::Out => Ok(matches!(wanted, Wanted::Out)),
        Ans::Need(key) => match wanted {
            Wanted::Need(text) => is_key(alloc, key, text),
            _ => Ok(false),
        },
        Ans::Stopped => Ok(matches!(wanted, Wanted::Stopped)),
        Ans::NoMemory => Err(Unread::NoMemory),
    }
}

/// Whether a call that gives a term answers as wanted.
pub fn term_as_wanted(
    alloc: Global,
    answer: &Ans<Expr, TypeFault>,
    left: Left<'_>,
    wanted: &Wanted<'_>,
) -> Result<bool, Unread> {
    match answer {
        Ans::Done(found) => match wanted_value(wanted, left.units) {
            Some(text) => is_term(alloc, found, text),
            None => Ok(false),
        },
        _ => ends_as_wanted(alloc, answer, left, wanted),
    }
}

/// Whether a call that gives a truth value answers as wanted: `true` or `false`.
pub fn truth_as_wanted(
    alloc: Global,
    answer: &Ans<bool, TypeFault>,
    left: Left<'_>,
    wanted: &Wanted<'_>,
) -> Result<bool, Unread> {
    match answer {
        Ans::Done(found) => match wanted_value(wanted, left.units) {
            Some(text) => Ok(text == if *found { "true" } else { "false" }),
            None => Ok(false),
        },
        _ => ends_as_wanted(alloc, answer, left, wanted),
    }
}
