//! The view over which realized constants are made.
use crate::fields::{Fields, Spending};
use lf_asking::{Known, add_known};
use lf_base::ScriptStop;
use lf_check::CheckCx;
use lf_core::{Name, NoMemory, TaskKey};
use lf_env::{BASE, View};
use lf_notation::{Unread, name, written_name};
use lf_print::print;
use lf_realizers::{Realized, realize};
use std::alloc::Global;

/// A view, and where the next constant is put.
#[derive(Drop)]
pub struct Place {
    alloc: Global,
    view: View,
    position: u32,
}

fn needed(alloc: Global, key: &TaskKey) -> Result<String, Unread> {
    match key {
        TaskKey::Head(position) => Ok(format!(in alloc; "waits for Head {position}")?),
        TaskKey::Body(position) => Ok(format!(in alloc; "waits for Body {position}")?),
        TaskKey::Real(name) => {
            let name = written_name(alloc, name)?;
            Ok(format!(in alloc; "waits for Real {name}")?)
        }
    }
}

// The statement as it is printed, or what else comes of the name.
fn told(alloc: Global, realized: &Realized) -> Result<String, Unread> {
    match realized {
        Realized::Makes(info) => {
            let text = print(alloc, &info.ty, &[], info.levels.as_slice())?;
            Ok(text)
        }
        Realized::MakesNone => Ok(String::from_str(alloc, "none")?),
        Realized::Waits(key) => needed(alloc, key),
        Realized::Stopped => Ok(String::from_str(alloc, "stopped")?),
        Realized::NoMemory => Err(Unread::NoMemory),
    }
}

impl Place {
    pub fn new(alloc: Global) -> Result<Place, NoMemory> {
        let view = View::new(alloc, Vec::new(alloc))?;
        Ok(Place {
            alloc,
            view,
            position: BASE,
        })
    }

    fn read_at(&mut self, position: u32) -> Result<(), Unread> {
        let view = self.view.at(self.alloc, position)?;
        self.view = view;
        Ok(())
    }

    fn put(&mut self, known: &Known<'_>) -> Result<(), Unread> {
        add_known(self.alloc, &mut self.view, known, self.position)
    }

    fn put_axiom(&mut self, fields: &mut Fields<'_>) -> Result<(), Unread> {
        let name = fields.text()?;
        let levels = fields.text()?;
        let ty = fields.text()?;
        self.put(&Known::Axiom { name, levels, ty })
    }

    fn put_definition(&mut self, fields: &mut Fields<'_>) -> Result<(), Unread> {
        let name = fields.text()?;
        let ty = fields.text()?;
        let value = fields.text()?;
        let height = fields.number()?;
        self.put(&Known::Def {
            name,
            ty,
            value,
            height,
        })
    }

    /// What a line other than a row changes.
    pub fn change(&mut self, word: &str, fields: &mut Fields<'_>) -> Result<(), Unread> {
        match word {
            "inductive" => self.put(&Known::Inductive(fields.declaration()?)),
            "axiom" => self.put_axiom(fields),
            "def" => self.put_definition(fields),
            "put at" => {
                self.position = fields.number()?;
                Ok(())
            }
            "read at" => self.read_at(fields.number()?),
            _ => Err(Unread::Malformed),
        }
    }

    fn realized(&self, name: &Name, spending: Spending) -> Realized {
        let mut stop = ScriptStop::new(spending.stop);
        let mut cx = CheckCx {
            view: &self.view,
            locals: Vec::new(self.alloc),
            opened: Vec::new(self.alloc),
            budget: spending.budget,
            stop: &mut stop,
        };
        realize(self.alloc, &mut cx, name)
    }

    /// What comes of the name of a row.
    pub fn make(&mut self, fields: &mut Fields<'_>) -> Result<String, Unread> {
        let name = name(self.alloc, fields.text()?)?;
        let spending = fields.spending()?;
        told(self.alloc, &self.realized(&name, spending))
    }
}
