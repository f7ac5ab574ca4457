//! The fields of a line, between bars.
use crate::number::number;
use lf_notation::{Declaration, Unread};

/// What is left of a line.
#[derive(Drop)]
pub struct Fields<'a> {
    rest: Option<&'a str>,
}

impl<'a> Fields<'a> {
    pub fn new(line: &'a str) -> Fields<'a> {
        Fields { rest: Some(line) }
    }

    /// The next field, without the blanks around it, if there is one.
    pub fn optional(&mut self) -> Option<&'a str> {
        let rest = self.rest?;
        match rest.split_once('|') {
            Some((field, rest)) => {
                self.rest = Some(rest);
                Some(field.trim())
            }
            None => {
                self.rest = None;
                Some(rest.trim())
            }
        }
    }

    pub fn text(&mut self) -> Result<&'a str, Unread> {
        self.optional().ok_or(Unread::Malformed)
    }

    pub fn number(&mut self) -> Result<u32, Unread> {
        number(self.text()?)
    }

    /// The name, the names of the levels, the number of parameters, the type and the constructors.
    pub fn declaration(&mut self) -> Result<Declaration<'a>, Unread> {
        let name = self.text()?;
        let levels = self.text()?;
        let params = self.number()?;
        let ty = self.text()?;
        let ctors = self.text()?;
        Ok(Declaration {
            name,
            levels,
            params,
            ty,
            ctors,
        })
    }

    /// That nothing is left.
    pub fn end(&self) -> Result<(), Unread> {
        match self.rest {
            None => Ok(()),
            Some(_) => Err(Unread::Malformed),
        }
    }
}
