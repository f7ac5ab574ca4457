//! The fields of a line, between bars.
use lf_base::Budget;
use lf_notation::{Declaration, Unread};

/// What is left of a line.
#[derive(Drop)]
pub struct Fields<'a> {
    rest: Option<&'a str>,
}

/// The budget of a call, and the poll at which it is stopped; 0 for none.
#[derive(Clone, Copy)]
pub struct Spending {
    pub budget: Budget,
    pub stop: u64,
}

const MANY: Budget = Budget {
    units: 1_000_000,
    depth: 512,
};

fn number(text: &str) -> Result<u32, Unread> {
    text.parse::<u32>().ok().ok_or(Unread::Malformed)
}

// A poll behind `stop`, or units and nested calls.
fn spent(first: &str, second: &str) -> Result<Spending, Unread> {
    let second = number(second)?;
    if first == "stop" {
        return Ok(Spending {
            budget: MANY,
            stop: second as u64,
        });
    }
    let budget = Budget {
        units: number(first)? as u64,
        depth: second,
    };
    Ok(Spending { budget, stop: 0 })
}

impl<'a> Fields<'a> {
    pub fn new(line: &'a str) -> Fields<'a> {
        Fields { rest: Some(line) }
    }

    /// The next field, without the blanks around it.
    pub fn text(&mut self) -> Result<&'a str, Unread> {
        let rest = self.rest.ok_or(Unread::Malformed)?;
        match rest.split_once('|') {
            Some((field, rest)) => {
                self.rest = Some(rest);
                Ok(field.trim())
            }
            None => {
                self.rest = None;
                Ok(rest.trim())
            }
        }
    }

    pub fn number(&mut self) -> Result<u32, Unread> {
        number(self.text()?)
    }

    /// The name, the names of the levels, the number of parameters, the type and the constructors.
    pub fn declaration(&mut self) -> Result<Declaration<'a>, Unread> {
        let name = self.text()?;
        let levels = self.text()?;
        let params = self.number()?;
        let ty = self.text()?;
        let ctors = self.text()?;
        Ok(Declaration {
            name,
            levels,
            params,
            ty,
            ctors,
        })
    }

    /// Reads `14 512`, so many units with so many nested calls; `many`; or `stop 1`, many with a stop at this poll.
    pub fn spending(&mut self) -> Result<Spending, Unread> {
        match self.text()? {
            "many" => Ok(Spending {
                budget: MANY,
                stop: 0,
            }),
            text => {
                let (first, second) = text.split_once(' ').ok_or(Unread::Malformed)?;
                spent(first, second)
            }
        }
    }

    /// That nothing is left.
    pub fn end(&self) -> Result<(), Unread> {
        match self.rest {
            None => Ok(()),
            Some(_) => Err(Unread::Malformed),
        }
    }
}
