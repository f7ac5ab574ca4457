//! The view, the context and the metavariables under which rows are asked.
use crate::answer::{assigned, given};
use crate::fields::{Fields, number};
use lf_asking::{Known, add_known};
use lf_base::NeverStop;
use lf_check::CheckCx;
use lf_core::NoMemory;
use lf_env::{BASE, View};
use lf_meta::Metas;
use lf_notation::{Unread, term, terms};
use lf_unify::unify;
use std::alloc::Global;

/// A view, where the next constant is put, the types of the free variables as they are written, and the metavariables.
#[derive(Drop)]
pub struct Place {
    alloc: Global,
    view: View,
    position: u32,
    context: String,
    metas: Metas,
}

// For how many locals, and the type behind a blank.
fn add_metavariable(metas: &mut Metas, text: &str) -> Result<(), Unread> {
    let (locals, ty) = text.split_once(' ').ok_or(Unread::Malformed)?;
    let locals = number(locals)?;
    let ty = term(metas.alloc(), ty)?;
    if metas.count() == u32::MAX {
        return Err(Unread::NoMemory);
    }
    metas.fresh(ty, locals, 0)?;
    Ok(())
}

// With semicolons between them.
fn add_metavariables(metas: &mut Metas, text: &str) -> Result<(), Unread> {
    if text.is_empty() {
        return Ok(());
    }
    for text in text.split(';') {
        add_metavariable(metas, text.trim())?;
    }
    Ok(())
}

fn add_level_metavariable(metas: &mut Metas) -> Result<(), Unread> {
    if metas.level_count() == u32::MAX {
        return Err(Unread::NoMemory);
    }
    metas.fresh_level()?;
    Ok(())
}

fn add_level_metavariables(metas: &mut Metas, count: u32) -> Result<(), Unread> {
    for _ in 0..count {
        add_level_metavariable(metas)?;
    }
    Ok(())
}

impl Place {
    pub fn new(alloc: Global) -> Result<Place, NoMemory> {
        let view = View::new(alloc, Vec::new(alloc))?;
        Ok(Place {
            alloc,
            view,
            position: BASE,
            context: String::new(alloc),
            metas: Metas::new(alloc),
        })
    }

    fn read_at(&mut self, position: u32) -> Result<(), Unread> {
        let view = self.view.at(self.alloc, position)?;
        self.view = view;
        Ok(())
    }

    fn put(&mut self, known: &Known<'_>) -> Result<(), Unread> {
        add_known(self.alloc, &mut self.view, known, self.position)
    }

    fn put_axiom(&mut self, fields: &mut Fields<'_>) -> Result<(), Unread> {
        let name = fields.text()?;
        let ty = fields.text()?;
        let levels = "";
        self.put(&Known::Axiom { name, levels, ty })
    }

    fn put_definition(&mut self, fields: &mut Fields<'_>) -> Result<(), Unread> {
        let name = fields.text()?;
        let ty = fields.text()?;
        let value = fields.text()?;
        let height = fields.number()?;
        self.put(&Known::Def {
            name,
            ty,
            value,
            height,
        })
    }

    fn begin(&mut self, fields: &mut Fields<'_>) -> Result<(), Unread> {
        self.context = String::from_str(self.alloc, fields.text()?)?;
        self.metas = Metas::new(self.alloc);
        add_level_metavariables(&mut self.metas, fields.number()?)?;
        add_metavariables(&mut self.metas, fields.text()?)
    }

    /// What a line other than a row changes.
    pub fn change(&mut self, word: &str, fields: &mut Fields<'_>) -> Result<(), Unread> {
        match word {
            "inductive" => self.put(&Known::Inductive(fields.declaration()?)),
            "axiom" => self.put_axiom(fields),
            "def" => self.put_definition(fields),
            "put at" => {
                self.position = fields.number()?;
                Ok(())
            }
            "read at" => self.read_at(fields.number()?),
            "given" => self.begin(fields),
            _ => Err(Unread::Malformed),
        }
    }

    /// The answer of a row, with what is assigned then; after it the metavariables are as before.
    pub fn unify(&mut self, fields: &mut Fields<'_>) -> Result<String, Unread> {
        let alloc = self.alloc;
        let first = term(alloc, fields.text()?)?;
        let second = term(alloc, fields.text()?)?;
        let spending = fields.spending()?;
        let mark = self.metas.mark();
        let mut cx = CheckCx {
            view: &self.view,
            locals: terms(alloc, self.context.as_str())?,
            opened: Vec::new(alloc),
            budget: spending.budget,
            stop: &mut NeverStop,
        };
        let answer = unify(alloc, &mut cx, &mut self.metas, &first, &second);
        let left = spending.counted.then_some(cx.budget.units);
        drop(cx);
        let answer = given(alloc, &answer, left)?;
        let assigned = assigned(alloc, &self.metas)?;
        self.metas.undo(mark);
        Ok(format!(in alloc; "{answer}: {assigned}")?)
    }
}
