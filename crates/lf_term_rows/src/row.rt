//! A row: its call and its arguments, between bars.
use crate::fault::Fault;
use lf_core::{Binder, Expr, Level, Name};
use std::alloc::Global;

/// What of a row isn't read yet.
#[derive(Drop)]
pub struct Row<'a> {
    pub alloc: Global,
    rest: Option<&'a str>,
}

/// The number that is written so.
pub fn number(text: &str) -> Result<u128, Fault> {
    match text.parse::<u128>() {
        Ok(number) => Ok(number),
        Err(_) => Err(Fault::Malformed),
    }
}

/// The same below 2^64.
pub fn units(text: &str) -> Result<u64, Fault> {
    match text.parse::<u64>() {
        Ok(number) => Ok(number),
        Err(_) => Err(Fault::Malformed),
    }
}

/// The same below 2^32.
pub fn place(text: &str) -> Result<u32, Fault> {
    match text.parse::<u32>() {
        Ok(number) => Ok(number),
        Err(_) => Err(Fault::Malformed),
    }
}

impl<'a> Row<'a> {
    pub fn new(alloc: Global, line: &'a str) -> Row<'a> {
        Row {
            alloc,
            rest: Some(line),
        }
    }

    /// All that isn't read yet.
    pub fn rest(&self) -> Result<&'a str, Fault> {
        self.rest.ok_or(Fault::Malformed)
    }

    /// The next argument, without the blanks round it.
    pub fn text(&mut self) -> Result<&'a str, Fault> {
        let rest = self.rest()?;
        match rest.split_once('|') {
            Some((text, rest)) => {
                self.rest = Some(rest);
                Ok(text.trim())
            }
            None => {
                self.rest = None;
                Ok(rest.trim())
            }
        }
    }

    pub fn number(&mut self) -> Result<u128, Fault> {
        number(self.text()?)
    }

    pub fn units(&mut self) -> Result<u64, Fault> {
        units(self.text()?)
    }

    pub fn place(&mut self) -> Result<u32, Fault> {
        place(self.text()?)
    }

    pub fn name(&mut self) -> Result<Name, Fault> {
        let text = self.text()?;
        Ok(lf_notation::name(self.alloc, text)?)
    }

    pub fn binder(&mut self) -> Result<Binder, Fault> {
        let text = self.text()?;
        Ok(lf_notation::binder(self.alloc, text)?)
    }

    pub fn level(&mut self) -> Result<Level, Fault> {
        let text = self.text()?;
        Ok(lf_notation::level(self.alloc, text)?)
    }

    pub fn levels(&mut self) -> Result<Vec<Level>, Fault> {
        let text = self.text()?;
        Ok(lf_notation::levels(self.alloc, text)?)
    }

    pub fn term(&mut self) -> Result<Expr, Fault> {
        let text = self.text()?;
        Ok(lf_notation::term(self.alloc, text)?)
    }
}

/// `true` or `false`.
pub fn truth(alloc: Global, holds: bool) -> Result<String, Fault> {
    Ok(format!(in alloc; "{holds}")?)
}
