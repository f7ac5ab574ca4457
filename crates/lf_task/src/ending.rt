//! How a part ends, and what it leaves in the log.
ghost use Rattle.std.specs.Prelude.{◌≡◌, ◌++◌, ◌∷◌, [], ℕ, IfOk, OnOk, map};
ghost use Rattle.lf_document.specs.Task as spec;
ghost use Rattle.lf_elaboration.specs.Messages as found;
ghost use Rattle.lf_elaboration.specs.Part as parts;
ghost use Rattle.lf_elaboration.specs.Run as run;
ghost use Rattle.lf_part.specs.Runs.{RunsAs};
ghost use Rattle.lf_part.specs.Says as says;
ghost use Rattle.lf_part.specs.Values as own;
ghost use Rattle.lf_task.specs.Tasks as tasks;
ghost use Rattle.lf_task.specs.Tasks.{Does, DoesAs};

use crate::diagnoses::message_of;
use crate::log::Log;
use lf_core::{NoMemory, TaskKey};
use lf_msg::Diagnostic;
use lf_part::{Ended, Node, State};
use std::alloc::{AllocError, AllocFailed, Global};

/// What a part comes to: a value, or what is wrong, at a place.
#[derive(Debug, Drop)]
pub enum Judged<T> {
    Right(T),
    Wrong(usize, Diagnostic),
}

/// How a part ended: its value, where no error ended it; and whether there was an error, that of a block included.
#[derive(Debug, Drop)]
pub struct PartEnd<T> {
    pub value: Option<T>,
    pub erred: bool,
}

/// Why a task has no value yet.
#[derive(Debug, Drop)]
pub enum Halted {
    /// This has to be done first.
    Need(TaskKey),
    Stopped,
    NoMemory,
}

impl From<NoMemory> for Halted {
    ghost use Rattle.std.specs.Prelude.{◌≡◌};
    ghost use Rattle.lf_task.specs.declared.ending.Halted.TheVariants as halted;

    ghost from_gives = { λ _ h. h ≡ halted.NoMemory };

    fn from(_: NoMemory) -> Halted {
        Halted::NoMemory
    }
}

impl From<AllocError> for Halted {
    ghost use Rattle.std.specs.Prelude.{◌≡◌};
    ghost use Rattle.lf_task.specs.declared.ending.Halted.TheVariants as halted;

    ghost from_gives = { λ _ h. h ≡ halted.NoMemory };

    fn from(_: AllocError) -> Halted {
        Halted::NoMemory
    }
}

impl<T: Drop> From<AllocFailed<T>> for Halted {
    ghost use Rattle.std.specs.Prelude.{◌≡◌};
    ghost use Rattle.lf_task.specs.declared.ending.Halted.TheVariants as halted;

    ghost from_gives = { λ _ h. h ≡ halted.NoMemory };

    fn from(_: AllocFailed<T>) -> Halted {
        Halted::NoMemory
    }
}

/// A part begins without metavariables and holes; what was asked for is taken into it.
pub fn begin_part(alloc: Global, log: &mut Log) -> State
    ensures state { own.state result ≡ spec.fresh_state log.old }
    ensures log { log.new ≡ record (log.old) { asked = [] } }
{
    let asked = std::mem::replace(&mut log.asked, Vec::new(alloc));
    State {
        asked,
        ..State::new(alloc)
    }
}

// Whether a block or one in it has said anything.
fn has_told(node: &Node) -> bool
    ensures { result ≡ spec.is_some_message (map says.message node.now.messages.items) }
{
    !node.messages.is_empty()
}

// Whether one of the blocks has said anything.
#[tactic(auto, using(crate::proofs::Blocks::one_tells, crate::proofs::Blocks::none_tells))]
fn is_one_told(nodes: &[Node]) -> bool
    ensures { result ≡ spec.is_some_message (found.messages_of (map says.node nodes.now)) }
{
    'nodes: for node in nodes {
        if has_told(node) {
            return true;
        }
    }
    false
}

// The nodes are put behind the others.
fn put_nodes(nodes: Vec<Node>, all: &mut Vec<Node>) -> Result<(), NoMemory>
    ensures { OnOk result (all.new.items ≡ all.old.items ++ nodes.items) }
{
    for node in nodes {
        all.push(node)?;
    }
    Ok(())
}

// What the blocks of a part have told and what was asked for is put behind the log.
fn put_behind(log: &mut Log, state: State) -> Result<(), NoMemory>
    ensures { OnOk result (log.new ≡ spec.behind log.old (own.state state) []) }
{
    put_nodes(state.nodes, &mut log.nodes)?;
    log.asked = state.asked;
    Ok(())
}

// A part that an error ended, which is told.
fn end_with(
    alloc: Global,
    log: &mut Log,
    state: State,
    at: usize,
    says: &Diagnostic,
) -> Result<(), NoMemory>
    ensures { OnOk result (log.new ≡ spec.behind log.old (own.state state) (tasks.told_at at says.now)) }
{
    log.tell(alloc, at, says)?;
    put_behind(log, state)
}

/// A part ends. The first error that isn't a block's own ends it, and is told behind what the task has told; a spent budget is
/// one, at `place`. What its blocks have told comes behind, and what was asked for stays asked.
pub fn end_part<T: Drop>(
    alloc: Global,
    log: &mut Log,
    state: State,
    place: usize,
    outcome: Result<Judged<T>, Ended>,
) -> Result<PartEnd<T>, Halted>
    ensures { (o : run.Answer parts.State (spec.Judged T)) (u : ℕ) → RunsAs tasks.judged o outcome u (own.state state)
        → DoesAs tasks.ended (spec.ended place log.old o) result log.new }
{
    match outcome {
        Ok(Judged::Right(value)) => {
            let erred = is_one_told(state.nodes.as_slice());
            put_behind(log, state)?;
            Ok(PartEnd {
                value: Some(value),
                erred,
            })
        }
        Ok(Judged::Wrong(at, says)) => {
            end_with(alloc, log, state, at, &says)?;
            Ok(by_error())
        }
        Err(Ended::Failed(message)) => {
            let message = message_of(alloc, message)?;
            log.messages.push(message)?;
            put_behind(log, state)?;
            Ok(by_error())
        }
        Err(Ended::Out) => {
            end_with(alloc, log, state, place, &Diagnostic::BudgetSpent)?;
            Ok(by_error())
        }
        Err(Ended::Need(key)) => Err(Halted::Need(key)),
        Err(Ended::Stopped) => Err(Halted::Stopped),
        Err(Ended::NoMemory) => Err(Halted::NoMemory),
    }
}

fn by_error<T: Drop>() -> PartEnd<T>
    ensures { tasks.ended result ≡ spec.ended_by_error }
{
    PartEnd {
        value: None,
        erred: true,
    }
}

/// What is refused before a part begins.
pub fn refuses<T: Drop>(
    alloc: Global,
    log: &mut Log,
    at: usize,
    says: &Diagnostic,
) -> Result<PartEnd<T>, Halted>
    ensures { DoesAs tasks.ended (spec.refuses at says.now log.old) result log.new }
{
    log.tell(alloc, at, says)?;
    Ok(by_error())
}
