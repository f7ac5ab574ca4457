ghost use Rattle.std.specs.Prelude.{◌≡◌, None, [], IfOk, OnOk, OnErr, IfErr};
ghost use Rattle.lf_checker.specs.View.{placed_of, there_of};
ghost use Rattle.lf_branch.specs.Branch.{taken, by_there, verdict as verdict_of, with_constant};
ghost use Rattle.lf_branch.specs.Fault.{Tells};

use lf_core::{ConstInfo, Name, NoMemory, Suffix, TaskKey, same_parts};
use lf_env::{Lookup, View};
use std::alloc::Global;
use std::marker::Model;

/// Why a branch doesn't take a constant.
#[derive(Debug, Drop)]
pub enum BranchFault {
    /// The name isn't the branch's name with exactly one more part.
    NotOwned,
    /// The last part of the name is a suffix of realizable names.
    Reserved,
    /// The name is an entry of this position; 4294967295 is that of the base.
    Duplicate { position: u32 },
    /// Whether the name is there is known only when this task is done.
    Need(TaskKey),
    /// A growth was refused.
    NoMemory,
}

/// The view of the body of a command, and the constants that the body has added to it, in order.
#[derive(Drop)]
pub struct Branch {
    view: View,
    prefix: Name,
    position: u32,
    added: Vec<ConstInfo>,
}

impl Model for Branch {
    ghost use Rattle.std.specs.Coded.{codes};
    ghost use Rattle.lf_core.specs.Codes.{coded_term};
    ghost use Rattle.lf_branch.specs.Branch.{Branch as BranchValue};

    ghost Value = { BranchValue };

    ghost coded = { Prim.hlevel (codes, coded_term) };

    ghost view = { λ b. record { view = b.view; prefix = b.prefix; position = b.position; added = b.added.items } };
}

impl Branch {
    /// The branch of the constant of this name, of the command at this position, in this view. Nothing is added yet.
    pub fn open(alloc: Global, view: View, prefix: Name, position: u32) -> Result<Branch, NoMemory>
        ensures { IfOk result (λ b. b ≡ record { view = view; prefix = prefix; position = position; added = [] }) }
    {
        Ok(Branch {
            view,
            prefix,
            position,
            added: Vec::new(alloc),
        })
    }

    /// The view with the constants that were added.
    pub fn view(&self) -> &View
        ensures { result.now ≡ self.now.view }
    {
        &self.view
    }

    /// The constants that were added, in order.
    pub fn join(self) -> Vec<ConstInfo>
        ensures { result.items ≡ self.added }
    {
        self.added
    }

    /// Whether the name is there, as an entry or perhaps as one.
    fn is_free(&self, name: &Name) -> Result<(), BranchFault>
        ensures free { OnOk result (by_there (there_of self.now.view name.now) ≡ taken) }
        ensures no_entry { OnOk result (placed_of self.now.view name.now ≡ None) }
        ensures fault { IfErr result (λ f. Tells f (by_there (there_of self.now.view name.now))) }
    {
        if let Some((position, _)) = self.view.placed(name) {
            return Err(BranchFault::Duplicate { position });
        }
        match self.view.lookup(name) {
            Lookup::NeedBody(position) => Err(BranchFault::Need(TaskKey::Body(position))),
            Lookup::Found(_) => Ok(()),
            Lookup::Absent => Ok(()),
            Lookup::NeedReal => Ok(()),
        }
    }

    /// Whether the branch takes a constant of this name.
    fn is_taken(&self, name: &Name) -> Result<(), BranchFault>
        ensures taken { OnOk result (verdict_of self.now name.now ≡ taken) }
        ensures no_entry { OnOk result (placed_of self.now.view name.now ≡ None) }
        ensures fault { IfErr result (λ f. Tells f (verdict_of self.now name.now)) }
    {
        match name.parts() {
            [] => Err(BranchFault::NotOwned),
            [front @ .., last] => {
                if !same_parts(self.prefix.parts(), front) {
                    return Err(BranchFault::NotOwned);
                }
                match Suffix::of(last.as_str()) {
                    Some(_) => Err(BranchFault::Reserved),
                    None => self.is_free(name),
                }
            }
        }
    }

    /// Puts the constant into the view and at the end of those that were added. It is refused, by the first that holds,
    /// where its name isn't a child of the branch's (`NotOwned`), ends in a suffix (`Reserved`), is an entry
    /// (`Duplicate`), or would be a child of an open branch (`Need`). After a refusal the branch is as before.
    pub fn add(&mut self, alloc: Global, info: ConstInfo) -> Result<(), BranchFault>
        ensures ok { OnOk result (verdict_of self.old info.name ≡ taken) }
        ensures added { OnOk result (self.new ≡ with_constant self.old info) }
        ensures fault { IfErr result (λ f. Tells f (verdict_of self.old info.name)) }
        ensures unchanged { OnErr result (self.new ≡ self.old) }
    {
        self.is_taken(&info.name)?;
        let Ok(copy) = info.copy(alloc) else {
            return Err(BranchFault::NoMemory);
        };
        if self.added.push(copy).is_err() {
            return Err(BranchFault::NoMemory);
        }
        if self.view.push(info, self.position).is_err() {
            let _copy = self.added.pop();
            return Err(BranchFault::NoMemory);
        }
        Ok(())
    }
}
