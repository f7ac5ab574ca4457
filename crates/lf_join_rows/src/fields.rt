//! The fields of a line, between bars.
use lf_core::{ConstInfo, ConstKind, Detail, Expr, NoMemory};
use lf_notation::{Unread, name, names, term};
use std::alloc::Global;

/// What is left of a line.
#[derive(Drop)]
pub struct Fields<'a> {
    rest: Option<&'a str>,
}

fn kind(text: &str) -> Result<ConstKind, Unread> {
    match text {
        "axiom" => Ok(ConstKind::Axiom),
        "def" => Ok(ConstKind::Def),
        "theorem" => Ok(ConstKind::Theorem),
        "inductive" => Ok(ConstKind::Inductive),
        "constructor" => Ok(ConstKind::Constructor),
        "recursor" => Ok(ConstKind::Recursor),
        _ => Err(Unread::Malformed),
    }
}

// The term of a text; None where that is empty.
fn value(alloc: Global, text: &str) -> Result<Option<Expr>, Unread> {
    if text.is_empty() {
        return Ok(None);
    }
    Ok(Some(term(alloc, text)?))
}

/// The text, in which `¶` stands for a line feed.
pub fn lines(alloc: Global, text: &str) -> Result<String, NoMemory> {
    let mut all = String::new(alloc);
    'lines: for line in text.split('¶') {
        if !all.is_empty() {
            all.push_str("\n")?;
        }
        all.push_str(line)?;
    }
    Ok(all)
}

impl<'a> Fields<'a> {
    pub fn new(line: &'a str) -> Fields<'a> {
        Fields { rest: Some(line) }
    }

    /// The next field, without the blanks around it.
    pub fn text(&mut self) -> Result<&'a str, Unread> {
        let rest = self.rest.ok_or(Unread::Malformed)?;
        match rest.split_once('|') {
            Some((field, rest)) => {
                self.rest = Some(rest);
                Ok(field.trim())
            }
            None => {
                self.rest = None;
                Ok(rest.trim())
            }
        }
    }

    pub fn number(&mut self) -> Result<u32, Unread> {
        self.text()?.parse::<u32>().ok().ok_or(Unread::Malformed)
    }

    /// The kind, the name, the names of the levels, the type and the value of a constant.
    pub fn constant(&mut self, alloc: Global) -> Result<ConstInfo, Unread> {
        let kind = kind(self.text()?)?;
        let name = name(alloc, self.text()?)?;
        let levels = names(alloc, self.text()?)?;
        let ty = term(alloc, self.text()?)?;
        let value = value(alloc, self.text()?)?;
        Ok(ConstInfo {
            name,
            kind,
            levels,
            ty,
            value,
            height: 0,
            detail: Detail::Plain,
        })
    }

    /// That nothing is left.
    pub fn end(&self) -> Result<(), Unread> {
        match self.rest {
            None => Ok(()),
            Some(_) => Err(Unread::Malformed),
        }
    }
}
