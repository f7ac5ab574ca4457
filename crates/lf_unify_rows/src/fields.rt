//! The fields of a line, between bars.
use lf_base::Budget;
use lf_notation::{Declaration, Unread};

/// What is left of a line.
#[derive(Drop)]
pub struct Fields<'a> {
    rest: Option<&'a str>,
}

/// The budget of a call, and whether the units that it leaves are told.
#[derive(Clone, Copy)]
pub struct Spending {
    pub budget: Budget,
    pub counted: bool,
}

pub fn number(text: &str) -> Result<u32, Unread> {
    text.parse::<u32>().ok().ok_or(Unread::Malformed)
}

impl<'a> Fields<'a> {
    pub fn new(line: &'a str) -> Fields<'a> {
        Fields { rest: Some(line) }
    }

    /// The next field, without the blanks around it.
    pub fn text(&mut self) -> Result<&'a str, Unread> {
        let rest = self.rest.ok_or(Unread::Malformed)?;
        match rest.split_once('|') {
            Some((field, rest)) => {
                self.rest = Some(rest);
                Ok(field.trim())
            }
            None => {
                self.rest = None;
                Ok(rest.trim())
            }
        }
    }

    pub fn number(&mut self) -> Result<u32, Unread> {
        number(self.text()?)
    }

    /// The name, the names of the levels, the number of parameters, the type and the constructors.
    pub fn declaration(&mut self) -> Result<Declaration<'a>, Unread> {
        let name = self.text()?;
        let levels = self.text()?;
        let params = self.number()?;
        let ty = self.text()?;
        let ctors = self.text()?;
        Ok(Declaration {
            name,
            levels,
            params,
            ty,
            ctors,
        })
    }

    /// Reads `14 512`, so many units with so many nested calls, or `many`.
    pub fn spending(&mut self) -> Result<Spending, Unread> {
        let (units, depth, counted) = match self.text()? {
            "many" => (1_000_000, 512, false),
            text => {
                let (units, depth) = text.split_once(' ').ok_or(Unread::Malformed)?;
                (number(units)?, number(depth)?, true)
            }
        };
        let budget = Budget {
            units: units as u64,
            depth,
        };
        Ok(Spending { budget, counted })
    }

    /// That nothing is left.
    pub fn end(&self) -> Result<(), Unread> {
        match self.rest {
            None => Ok(()),
            Some(_) => Err(Unread::Malformed),
        }
    }
}
