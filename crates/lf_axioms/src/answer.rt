//! The axioms that a constant reaches.
ghost use Rattle.std.specs.Prelude.{◌≡◌};
ghost use Rattle.std.specs.List.{IsDistinct};
ghost use Rattle.lf_env.specs.Names.{same_entry};
ghost use Rattle.lf_elaboration.specs.Axioms as axioms;
ghost use Rattle.lf_elaboration.specs.Axioms.{axioms_by, ended};
ghost use Rattle.lf_axioms.specs.Walked.{visited, told, Answers};

use crate::halt::Halt;
use crate::item::Visited;
use crate::order::axioms_in_order;
use crate::walk::{run, start};
use indexmap::IndexSet;
use lf_core::{Name, TaskKey};
use lf_env::View;
use std::alloc::Global;

/// The axioms that a constant reaches, or what has to be made first.
#[derive(Debug, Drop)]
pub enum ReachedAxioms {
    Done(Vec<Name>),
    Need(TaskKey),
    NoMemory,
}

// Why the walk ended early.
fn told(halt: Halt) -> ReachedAxioms
    ensures { result ≡ told halt }
{
    match halt {
        Halt::Need(key) => ReachedAxioms::Need(key),
        Halt::NoMemory => ReachedAxioms::NoMemory,
    }
}

// The axioms among these constants.
fn listed(alloc: Global, view: &View, seen: &[Visited<'_>]) -> ReachedAxioms
    requires { IsDistinct same_entry view.now.entries }
    ensures { Answers (axioms_by view.now (ended (visited seen.now))) result }
{
    match axioms_in_order(alloc, view, seen) {
        Ok(names) => ReachedAxioms::Done(names),
        Err(_) => ReachedAxioms::NoMemory,
    }
}

/// The axioms that the constant of this name reaches, in the order of the view's entries.
/// Need comes at the first constant or value, in the order of the walk, that isn't there yet. It takes no budget; `NoMemory`
/// also after 2^64 - 1 steps. docs/language.md, Realized constants.
pub fn reached(alloc: Global, view: &View, name: &Name) -> ReachedAxioms
    ensures { Answers (axioms.reached view.now name.now) result }
{
    let mut seen = IndexSet::new(alloc);
    let mut stack = match start(alloc, name) {
        Ok(stack) => stack,
        Err(_) => return ReachedAxioms::NoMemory,
    };
    let mut turns = u64::MAX;
    match run(alloc, view, &mut seen, &mut stack, &mut turns) {
        Ok(()) => {
            view.named_once();
            listed(alloc, view, seen.as_slice())
        }
        Err(halt) => told(halt),
    }
}
