//! What a part changes.
ghost use Rattle.std.specs.Prelude.{◌≡◌, ℕ, []};
ghost use Rattle.lf_elaboration.specs.Metavariables.{count, level_count};
ghost use Rattle.lf_elaboration.specs.Part as spec;
ghost use Rattle.lf_rules.specs.Recursor.{is_among};
ghost use Rattle.lf_part.specs.Runs.{Runs, Calm};
ghost use Rattle.lf_part.specs.Values as own;

use crate::ended::Ended;
use crate::message::Node;
use lf_core::Name;
use lf_elaboration::Hole;
use lf_meta::Metas;
use std::alloc::Global;

/// What a part changes: the metavariables; the holes that wait, in the order in which they were made; the realized names that were
/// asked for, each once; and the nodes of the blocks that have run in the innermost block that is running, or else in the part.
#[derive(Debug, Drop)]
pub struct State {
    pub metas: Metas,
    pub pending: Vec<Hole>,
    pub asked: Vec<Name>,
    pub nodes: Vec<Node>,
}

fn is_among(name: &Name, names: &[Name]) -> bool
    ensures { result ≡ is_among name.now names.now }
{
    match names {
        [] => false,
        [first, rest @ ..] => name.is(first) || is_among(name, rest),
    }
}

/// How many metavariables of terms and of levels there are.
#[derive(Clone, Copy, Debug)]
pub struct Mark {
    pub terms: u32,
    pub levels: u32,
}

impl State {
    /// Nothing is made, asked for or said.
    pub fn new(alloc: Global) -> State
        ensures { own.state result ≡ record { changes = []; pending = []; asked = []; nodes = [] } }
    {
        State {
            metas: Metas::new(alloc),
            pending: Vec::new(alloc),
            asked: Vec::new(alloc),
            nodes: Vec::new(alloc),
        }
    }

    /// How many metavariables there are now.
    pub fn mark(&self) -> Mark
        ensures terms { result.terms ≡ count self.now.metas }
        ensures levels { result.levels ≡ level_count self.now.metas }
    {
        Mark {
            terms: self.metas.count(),
            levels: self.metas.level_count(),
        }
    }

    /// A realized name that is used is asked for, each once.
    pub fn ask(&mut self, alloc: Global, name: &Name) -> Result<(), Ended>
        ensures value { (u : ℕ) → Runs (spec.ask name.now u (own.state self.old)) result u (own.state self.new) }
        ensures calm { Calm result }
        ensures metas { self.new.metas ≡ self.old.metas }
    {
        if is_among(name, self.asked.as_slice()) {
            return Ok(());
        }
        self.asked.push(name.copy(alloc)?)?;
        Ok(())
    }
}
