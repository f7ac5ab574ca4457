//! The view over which rows are asked, and what changes it.
use crate::recursor::{Shown, shows};
use lf_asking::{Known, Row, add_known, holds};
use lf_core::NoMemory;
use lf_env::{BASE, View};
use lf_notation::{Declaration, Unread};
use std::alloc::Global;

/// What changes the view.
#[derive(Clone, Copy)]
pub enum Change<'a> {
    /// A new view with nothing in it, as a base.
    Begin,
    /// What follows is put at this position.
    PutAt(u32),
    /// The view as the command at this position reads it.
    ReadAt(u32),
    Put(Known<'a>),
    /// So many axioms of one type, as `c0`, `c1` and so on.
    Axioms {
        count: u32,
        stem: &'a str,
        ty: &'a str,
    },
}

/// A view, and where the next constant is put.
#[derive(Drop)]
pub struct Place {
    alloc: Global,
    view: View,
    position: u32,
}

impl Place {
    pub fn new(alloc: Global) -> Result<Place, NoMemory> {
        let view = View::new(alloc, Vec::new(alloc))?;
        Ok(Place {
            alloc,
            view,
            position: BASE,
        })
    }

    fn begin(&mut self) -> Result<(), Unread> {
        let view = View::new(self.alloc, Vec::new(self.alloc))?;
        self.view = view;
        self.position = BASE;
        Ok(())
    }

    fn read_at(&mut self, position: u32) -> Result<(), Unread> {
        let view = self.view.at(self.alloc, position)?;
        self.view = view;
        Ok(())
    }

    fn put(&mut self, known: &Known<'_>) -> Result<(), Unread> {
        add_known(self.alloc, &mut self.view, known, self.position)
    }

    fn put_numbered(&mut self, stem: &str, number: u32, ty: &str) -> Result<(), Unread> {
        let name = format!(in self.alloc; "{stem}{number}")?;
        self.put(&Known::Axiom {
            name: name.as_str(),
            levels: "",
            ty,
        })
    }

    fn put_axioms(&mut self, count: u32, stem: &str, ty: &str) -> Result<(), Unread> {
        for number in 0..count {
            self.put_numbered(stem, number, ty)?;
        }
        Ok(())
    }

    pub fn change(&mut self, change: &Change<'_>) -> Result<(), Unread> {
        match change {
            Change::Begin => self.begin(),
            Change::PutAt(position) => {
                self.position = *position;
                Ok(())
            }
            Change::ReadAt(position) => self.read_at(*position),
            Change::Put(known) => self.put(known),
            Change::Axioms { count, stem, ty } => self.put_axioms(*count, stem, ty),
        }
    }

    /// Whether the row is answered as wanted.
    pub fn holds(&self, row: &Row<'_>) -> Result<bool, Unread> {
        holds(self.alloc, &self.view, row)
    }

    /// Whether the declaration's recursor looks so.
    pub fn shows(&self, written: &Declaration<'_>, shown: &Shown<'_>) -> Result<bool, Unread> {
        shows(self.alloc, &self.view, written, shown)
    }
}
