//! Views of written constants.
use lf_base::{Budget, NeverStop};
use lf_check::CheckCx;
use lf_core::{Ans, ConstInfo, ConstKind, Detail, Expr, IndDecl, Name};
use lf_env::View;
use lf_kernel::add_inductive;
use lf_notation::{Declaration, Unread, declared, name, names, term};
use std::alloc::Global;

/// A constant, or an inductive type with its constructors and its recursor.
#[derive(Clone, Copy)]
pub enum Known<'a> {
    Inductive(Declaration<'a>),
    /// With the names of its levels between blanks.
    Axiom {
        name: &'a str,
        levels: &'a str,
        ty: &'a str,
    },
    /// A definition; with an empty text for its value it is one whose body isn't known yet, and its branch is open.
    Def {
        name: &'a str,
        ty: &'a str,
        value: &'a str,
        height: u32,
    },
}

fn value_of(alloc: Global, text: &str) -> Result<Option<Expr>, Unread> {
    if text.is_empty() {
        return Ok(None);
    }
    Ok(Some(term(alloc, text)?))
}

/// A constant of this name, type and value, which is none where the text is empty.
pub fn constant(
    alloc: Global,
    kind: ConstKind,
    (text, levels): (&str, &str),
    ty: &str,
    value: &str,
    height: u32,
) -> Result<ConstInfo, Unread> {
    let name = name(alloc, text)?;
    let levels = names(alloc, levels)?;
    let ty = term(alloc, ty)?;
    let value = value_of(alloc, value)?;
    Ok(ConstInfo {
        name,
        kind,
        levels,
        ty,
        value,
        height,
        detail: Detail::Plain,
    })
}

fn push_new(view: &mut View, info: ConstInfo, position: u32) -> Result<(), Unread> {
    match view.placed(&info.name) {
        None => Ok(view.push(info, position)?),
        Some(_) => Err(Unread::Malformed),
    }
}

// Opens the branch of the entry of this name and position.
fn open_body(view: &mut View, name: Name, position: u32) -> Result<(), Unread> {
    match view.placed(&name) {
        Some((found, _)) if found == position => Ok(view.open_branch(name, position)?),
        _ => Err(Unread::Malformed),
    }
}

fn add_definition(
    alloc: Global,
    view: &mut View,
    info: ConstInfo,
    position: u32,
) -> Result<(), Unread> {
    let name = info.name.copy(alloc)?;
    let is_known = info.value.is_some();
    push_new(view, info, position)?;
    if is_known {
        return Ok(());
    }
    open_body(view, name, position)
}

// What the declaration adds to the view.
fn added(alloc: Global, view: &View, decl: &IndDecl) -> Result<Vec<ConstInfo>, Unread> {
    let mut cx = CheckCx {
        view,
        locals: Vec::new(alloc),
        opened: Vec::new(alloc),
        budget: Budget {
            units: 1_000_000,
            depth: 512,
        },
        stop: &mut NeverStop,
    };
    match add_inductive(alloc, &mut cx, decl) {
        Ans::Done(constants) => Ok(constants),
        Ans::NoMemory => Err(Unread::NoMemory),
        _ => Err(Unread::Malformed),
    }
}

fn add_declared(
    alloc: Global,
    view: &mut View,
    written: &Declaration<'_>,
    position: u32,
) -> Result<(), Unread> {
    let decl = declared(alloc, written)?;
    for info in added(alloc, view, &decl)? {
        push_new(view, info, position)?;
    }
    Ok(())
}

/// Puts what is written at the end of the view, at this position.
pub fn add_known(
    alloc: Global,
    view: &mut View,
    known: &Known<'_>,
    position: u32,
) -> Result<(), Unread> {
    match known {
        Known::Inductive(written) => add_declared(alloc, view, written, position),
        Known::Axiom { name, levels, ty } => {
            let info = constant(alloc, ConstKind::Axiom, (name, levels), ty, "", 0)?;
            push_new(view, info, position)
        }
        Known::Def {
            name,
            ty,
            value,
            height,
        } => {
            let info = constant(alloc, ConstKind::Def, (name, ""), ty, value, *height)?;
            add_definition(alloc, view, info, position)
        }
    }
}
