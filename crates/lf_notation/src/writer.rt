//! Names, levels and terms, written as they are read.
use lf_core::{Binder, BinderKind, Expr, ExprNode, Level, LevelNode, Name, NoMemory};
use std::alloc::Global;

fn write_name(text: &mut String, name: &Name) -> Result<(), NoMemory> {
    for (place, part) in name.parts().iter().enumerate() {
        if place > 0 {
            text.push('.')?;
        }
        text.push_str(part.as_str())?;
    }
    Ok(())
}

fn write_between(text: &mut String, left: char, name: &Name, right: char) -> Result<(), NoMemory> {
    text.push(left)?;
    write_name(text, name)?;
    text.push(right)?;
    Ok(())
}

fn write_binder(text: &mut String, binder: &Binder) -> Result<(), NoMemory> {
    match binder.kind {
        BinderKind::Explicit => write_name(text, &binder.name),
        BinderKind::Implicit => write_between(text, '{', &binder.name, '}'),
        BinderKind::Inst => write_between(text, '[', &binder.name, ']'),
    }
}

// How many successors of 0 the level is, if it is that.
fn numeral(level: &Level) -> Option<u32> {
    match level.node() {
        LevelNode::Zero => Some(0),
        LevelNode::Succ(l) => numeral(l)?.checked_add(1),
        LevelNode::Max(_, _) | LevelNode::Imax(_, _) | LevelNode::Param(_) | LevelNode::Meta(_) => {
            None
        }
    }
}

fn write_level(text: &mut String, level: &Level) -> Result<(), NoMemory> {
    if let Some(number) = numeral(level) {
        write!(text, "'{number}")?;
        return Ok(());
    }
    match level.node() {
        LevelNode::Zero => text.push_str("'0")?,
        LevelNode::Succ(l) => {
            text.push_str("'succ ")?;
            write_level(text, l)?;
        }
        LevelNode::Max(l, m) => {
            text.push_str("'max ")?;
            write_level(text, l)?;
            text.push(' ')?;
            write_level(text, m)?;
        }
        LevelNode::Imax(l, m) => {
            text.push_str("'imax ")?;
            write_level(text, l)?;
            text.push(' ')?;
            write_level(text, m)?;
        }
        LevelNode::Param(k) => write!(text, "'u{k}")?,
        LevelNode::Meta(k) => write!(text, "'m{k}")?,
    }
    Ok(())
}

fn write_sort(text: &mut String, level: &Level) -> Result<(), NoMemory> {
    match numeral(level) {
        Some(0) => text.push_str("Prop")?,
        Some(1) => text.push_str("Type")?,
        _ => {
            text.push_str("Sort ")?;
            write_level(text, level)?;
        }
    }
    Ok(())
}

fn write_constant(text: &mut String, name: &Name, levels: &[Level]) -> Result<(), NoMemory> {
    write_name(text, name)?;
    let count = levels.len();
    if count > 0 {
        write!(text, "/{count}")?;
    }
    for level in levels {
        text.push(' ')?;
        write_level(text, level)?;
    }
    Ok(())
}

// Whether the term is written as one word.
fn is_word(term: &Expr) -> bool {
    match term.node() {
        ExprNode::Bound(_) | ExprNode::Free(_) | ExprNode::Meta(_) | ExprNode::Lit(_) => true,
        ExprNode::Sort(level) => matches!(numeral(level), Some(0) | Some(1)),
        ExprNode::Const(_, levels) => levels.as_slice().is_empty(),
        ExprNode::App(_, _)
        | ExprNode::Lam(_, _, _)
        | ExprNode::Pi(_, _, _)
        | ExprNode::Let(_, _, _, _)
        | ExprNode::Proj(_, _, _) => false,
    }
}

// A part of a term, in parentheses where it has several words.
#[cycle(terms)]
fn write_part(text: &mut String, term: &Expr) -> Result<(), NoMemory> {
    if is_word(term) {
        return write_term(text, term);
    }
    text.push('(')?;
    write_term(text, term)?;
    text.push(')')?;
    Ok(())
}

// A function and the arguments that it has, of `count` that are written behind it.
#[cycle(terms)]
fn write_applied(text: &mut String, f: &Expr, count: u32) -> Result<(), NoMemory> {
    if let ExprNode::App(g, a) = f.node() {
        write_applied(text, g, count.saturating_add(1))?;
        text.push(' ')?;
        return write_part(text, a);
    }
    text.push('@')?;
    if count > 1 {
        write!(text, "{count}")?;
    }
    text.push(' ')?;
    write_part(text, f)
}

#[cycle(terms)]
fn write_bound(
    text: &mut String,
    form: &str,
    binder: &Binder,
    domain: &Expr,
) -> Result<(), NoMemory> {
    text.push_str(form)?;
    write_binder(text, binder)?;
    text.push(' ')?;
    write_part(text, domain)?;
    text.push(' ')?;
    Ok(())
}

#[cycle(terms)]
fn write_term(text: &mut String, term: &Expr) -> Result<(), NoMemory> {
    match term.node() {
        ExprNode::Bound(i) => write!(text, "#{i}")?,
        ExprNode::Free(k) => write!(text, "${k}")?,
        ExprNode::Meta(k) => write!(text, "?{k}")?,
        ExprNode::Lit(number) => write!(text, "{number}")?,
        ExprNode::Sort(level) => write_sort(text, level)?,
        ExprNode::Const(name, levels) => write_constant(text, name, levels.as_slice())?,
        ExprNode::App(f, a) => {
            write_applied(text, f, 1)?;
            text.push(' ')?;
            write_part(text, a)?;
        }
        ExprNode::Lam(x, a, b) => {
            write_bound(text, "fun:", x, a)?;
            write_part(text, b)?;
        }
        ExprNode::Pi(x, a, b) => {
            write_bound(text, "pi:", x, a)?;
            write_part(text, b)?;
        }
        ExprNode::Let(x, a, v, b) => {
            write_bound(text, "let:", x, a)?;
            write_part(text, v)?;
            text.push(' ')?;
            write_part(text, b)?;
        }
        ExprNode::Proj(structure, field, t) => {
            text.push_str("proj:")?;
            write_name(text, structure)?;
            write!(text, ":{field} ")?;
            write_part(text, t)?;
        }
    }
    Ok(())
}

/// The name as `name` reads it.
pub fn written_name(alloc: Global, name: &Name) -> Result<String, NoMemory> {
    let mut text = String::new(alloc);
    write_name(&mut text, name)?;
    Ok(text)
}

/// The binder as `binder` reads it.
pub fn written_binder(alloc: Global, binder: &Binder) -> Result<String, NoMemory> {
    let mut text = String::new(alloc);
    write_binder(&mut text, binder)?;
    Ok(text)
}

/// The level as `level` reads it.
pub fn written_level(alloc: Global, level: &Level) -> Result<String, NoMemory> {
    let mut text = String::new(alloc);
    write_level(&mut text, level)?;
    Ok(text)
}

/// The term as `term` reads it, with a number before several arguments and with parentheses round parts of several
/// words.
pub fn written(alloc: Global, term: &Expr) -> Result<String, NoMemory> {
    let mut text = String::new(alloc);
    write_term(&mut text, term)?;
    Ok(text)
}
