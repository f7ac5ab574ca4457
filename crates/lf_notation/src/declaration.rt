//! Inductive declarations.
use crate::reader::{name, names, term};
use crate::unread::Unread;
use lf_core::{CtorInfo, IndDecl};
use sqlite_items::Items;
use std::alloc::Global;

/// An inductive declaration: the names of its levels between blanks, its type, and its constructors between semicolons,
/// each with its type behind a colon.
#[derive(Clone, Copy, Debug)]
pub struct Declaration<'a> {
    pub name: &'a str,
    pub levels: &'a str,
    pub params: u32,
    pub ty: &'a str,
    pub ctors: &'a str,
}

fn constructor(alloc: Global, text: &str) -> Result<CtorInfo, Unread> {
    let (text, ty) = text.split_once(':').ok_or(Unread::Malformed)?;
    let name = name(alloc, text.trim())?;
    let ty = term(alloc, ty)?;
    Ok(CtorInfo { name, ty })
}

fn constructors(alloc: Global, text: &str) -> Result<Items<CtorInfo>, Unread> {
    let mut all = Items::new(alloc);
    if text.is_empty() {
        return Ok(all);
    }
    for part in text.split(';') {
        all.push(constructor(alloc, part)?)?;
    }
    Ok(all)
}

/// The declaration that is written so.
pub fn declared(alloc: Global, written: &Declaration<'_>) -> Result<IndDecl, Unread> {
    let name = name(alloc, written.name)?;
    let levels = names(alloc, written.levels)?;
    let ty = term(alloc, written.ty)?;
    let ctors = constructors(alloc, written.ctors)?;
    Ok(IndDecl {
        name,
        levels,
        params: written.params,
        ty,
        ctors,
    })
}
