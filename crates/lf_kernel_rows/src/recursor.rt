//! Recursors of declarations, as text and as terms.
use lf_base::{Budget, NeverStop};
use lf_check::CheckCx;
use lf_core::{Ans, ConstInfo, Detail, Expr, IndDecl};
use lf_env::View;
use lf_induct::admit;
use lf_notation::{Declaration, Unread, declared, name, term, terms};
use lf_print::print;
use lf_recursor::recursor_of;
use std::alloc::Global;

/// What is to be seen of a recursor.
#[derive(Clone, Copy)]
pub enum Shown<'a> {
    /// The text of its type.
    Type(&'a str),
    /// The text of the rule of this index.
    Rule(u32, &'a str),
    /// All of it, as terms.
    Whole {
        name: &'a str,
        ty: &'a str,
        rules: &'a str,
    },
}

// The constants that the declaration adds.
fn added(alloc: Global, view: &View, decl: &IndDecl) -> Result<Vec<ConstInfo>, Unread> {
    let mut cx = CheckCx {
        view,
        locals: Vec::new(alloc),
        opened: Vec::new(alloc),
        budget: Budget {
            units: 1_000_000,
            depth: 512,
        },
        stop: &mut NeverStop,
    };
    match admit(alloc, &mut cx, decl) {
        Ans::Done(constants) => Ok(constants),
        Ans::NoMemory => Err(Unread::NoMemory),
        _ => Err(Unread::Malformed),
    }
}

// The last of the constants, which is the recursor.
fn recursor(alloc: Global, view: &View, written: &Declaration<'_>) -> Result<ConstInfo, Unread> {
    let decl = declared(alloc, written)?;
    let mut constants = added(alloc, view, &decl)?;
    drop(decl);
    constants.pop().ok_or(Unread::Malformed)
}

fn prints(alloc: Global, info: &ConstInfo, part: &Expr, text: &str) -> Result<bool, Unread> {
    let printed = print(alloc, part, &[], info.levels.as_slice())?;
    Ok(printed.as_str() == text)
}

fn type_shows(
    alloc: Global,
    view: &View,
    written: &Declaration<'_>,
    text: &str,
) -> Result<bool, Unread> {
    let info = recursor(alloc, view, written)?;
    let same = prints(alloc, &info, &info.ty, text)?;
    drop(info);
    Ok(same)
}

fn rules_of(info: &ConstInfo) -> &[Expr] {
    match &info.detail {
        Detail::Rec { rules, .. } => rules.as_slice(),
        _ => &[],
    }
}

fn rule_shows(
    alloc: Global,
    view: &View,
    written: &Declaration<'_>,
    index: u32,
    text: &str,
) -> Result<bool, Unread> {
    let info = recursor(alloc, view, written)?;
    let rule = rules_of(&info)
        .get(index as usize)
        .ok_or(Unread::Malformed)?;
    let same = prints(alloc, &info, rule, text)?;
    drop(info);
    Ok(same)
}

fn are_terms(found: &[Expr], wanted: &[Expr]) -> bool {
    if found.len() != wanted.len() {
        return false;
    }
    for (x, y) in found.iter().zip(wanted.iter()) {
        if !x.is(y) {
            return false;
        }
    }
    true
}

fn is_whole(
    alloc: Global,
    info: &ConstInfo,
    text: &str,
    ty: &str,
    rules: &str,
) -> Result<bool, Unread> {
    let name = name(alloc, text)?;
    let ty = term(alloc, ty)?;
    let rules = terms(alloc, rules)?;
    let same = info.name.is(&name)
        && info.ty.is(&ty)
        && are_terms(rules_of(info), rules.as_slice());
    drop(ty);
    drop(rules);
    Ok(same)
}

fn made(alloc: Global, written: &Declaration<'_>) -> Result<ConstInfo, Unread> {
    let decl = declared(alloc, written)?;
    let info = recursor_of(alloc, &decl, true)?;
    drop(decl);
    Ok(info)
}

fn whole_shows(
    alloc: Global,
    written: &Declaration<'_>,
    name: &str,
    ty: &str,
    rules: &str,
) -> Result<bool, Unread> {
    let info = made(alloc, written)?;
    let same = is_whole(alloc, &info, name, ty, rules)?;
    drop(info);
    Ok(same)
}

/// Whether the declaration's recursor looks so.
pub fn shows(
    alloc: Global,
    view: &View,
    written: &Declaration<'_>,
    shown: &Shown<'_>,
) -> Result<bool, Unread> {
    match shown {
        Shown::Type(text) => type_shows(alloc, view, written, text),
        Shown::Rule(index, text) => rule_shows(alloc, view, written, *index, text),
        Shown::Whole { name, ty, rules } => whole_shows(alloc, written, name, ty, rules),
    }
}
