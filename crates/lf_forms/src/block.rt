//! Blocks, each of which fails by itself, and the holes that are taken to be run.
ghost use Rattle.std.specs.Prelude.{◌≡◌, ◌++◌, ◌∷◌, [], ℕ, IfOk, OnOk, filter, length, map, not, take};
ghost use Rattle.lf_elaboration.specs.Closing as spec;
ghost use Rattle.lf_elaboration.specs.Messages as found;
ghost use Rattle.lf_elaboration.specs.Part as parts;
ghost use Rattle.lf_elaboration.specs.Run as run;
ghost use Rattle.lf_part.specs.Runs.{Runs, RunsAs, Calm};
ghost use Rattle.lf_part.specs.Says as says;
ghost use Rattle.lf_part.specs.Values as own;
ghost use Rattle.lf_forms.specs.Blocks.{Begun, own_messages};

use lf_core::NoMemory;
use lf_elaboration::Hole;
use lf_part::{Ended, Message, Node, State};
use std::alloc::Global;

/// What is put aside while a block runs: the number of changes, the holes that wait, and the nodes.
#[derive(Debug, Drop)]
pub struct Aside {
    pub mark: usize,
    pub pending: Vec<Hole>,
    pub nodes: Vec<Node>,
}

fn copy_hole(alloc: Global, hole: &Hole) -> Result<Hole, NoMemory>
    ensures { IfOk result (λ h. h ≡ hole.now) }
{
    match &hole.items {
        None => Ok(Hole {
            metavariable: hole.metavariable,
            items: None,
        }),
        Some(items) => Ok(Hole {
            metavariable: hole.metavariable,
            items: Some(items.copy(alloc)?),
        }),
    }
}

fn copy_holes(alloc: Global, holes: &[Hole], all: &mut Vec<Hole>) -> Result<(), NoMemory>
    ensures { OnOk result (all.new.items ≡ all.old.items ++ holes.now) }
{
    'holes: for hole in holes {
        all.push(copy_hole(alloc, hole)?)?;
    }
    Ok(())
}

// The messages are put behind the others.
#[tactic(auto, using(crate::proofs::Nodes::messages_begun, crate::proofs::Nodes::messages_more, crate::proofs::Nodes::messages_over))]
fn add_messages(messages: Vec<Message>, all: &mut Vec<Message>) -> Result<(), NoMemory>
    ensures { OnOk result (all.new.items ≡ all.old.items ++ messages.items) }
{
    let mut rest = messages;
    rest.reverse();
    'messages: while let Some(message) = rest.pop() {
        all.push(message)?;
    }
    Ok(())
}

// The nodes' messages are put behind the others, and the nodes are counted.
#[tactic(auto, using(crate::proofs::Nodes::nodes_begun, crate::proofs::Nodes::counts_begun, crate::proofs::Nodes::nodes_more, crate::proofs::Nodes::nodes_over, crate::proofs::Nodes::counts_more, crate::proofs::Nodes::counts_over))]
fn gather(children: Vec<Node>, all: &mut Vec<Message>) -> Result<u64, NoMemory>
    ensures messages { OnOk result (map says.message all.new.items
        ≡ map says.message all.old.items ++ found.messages_of (map says.node children.items)) }
    ensures nodes { IfOk result (λ n. n ≡ found.nodes_of (map says.node children.items)) }
{
    let mut rest = children;
    rest.reverse();
    let mut count: u64 = 0;
    'children: while let Some(child) = rest.pop() {
        let Node { messages, nodes } = child;
        add_messages(messages, all)?;
        count = count.checked_add(nodes).ok_or(NoMemory)?;
    }
    Ok(count)
}

// The node of a block that has said this, in which these blocks ran.
fn node(alloc: Global, said: Option<Message>, children: Vec<Node>) -> Result<Node, NoMemory>
    ensures { IfOk result (λ n. says.node n ≡ found.node (own_messages said) (map says.node children.items)) }
{
    let mut messages = Vec::new(alloc);
    match said {
        None => {}
        Some(message) => messages.push(message)?,
    }
    let below = gather(children, &mut messages)?;
    let nodes = below.checked_add(1).ok_or(NoMemory)?;
    Ok(Node { messages, nodes })
}

// The node of the block that ended is put behind those before it.
fn put_node(
    alloc: Global,
    state: &mut State,
    before: Vec<Node>,
    said: Option<Message>,
) -> Result<(), NoMemory>
    ensures nodes { OnOk result (own.state state.new ≡ record (own.state state.old) {
      nodes = map says.node before.items ++ found.node (own_messages said) (own.state state.old).nodes ∷ [];
    }) }
{
    let children = std::mem::replace(&mut state.nodes, before);
    let made = node(alloc, said, children)?;
    state.nodes.push(made)?;
    Ok(())
}

/// A block begins, with no nodes of its own yet.
pub fn begin_block(alloc: Global, state: &mut State) -> Result<Aside, NoMemory>
    ensures aside { IfOk result (λ aside. Begun aside (own.state state.old)) }
    ensures begun { OnOk result (own.state state.new ≡ record (own.state state.old) { nodes = [] }) }
    ensures metas { state.new.metas ≡ state.old.metas }
{
    let mut pending = Vec::new(alloc);
    copy_holes(alloc, state.pending.as_slice(), &mut pending)?;
    let mark = state.metas.mark();
    let nodes = std::mem::replace(&mut state.nodes, Vec::new(alloc));
    Ok(Aside {
        mark,
        pending,
        nodes,
    })
}

// The holes whose metavariables are numbered from `from` on, and the others.
#[tactic(auto, using(crate::proofs::Taken::is_taken, crate::proofs::Taken::is_left, crate::proofs::Taken::begun, crate::proofs::Taken::put, crate::proofs::Taken::passed, crate::proofs::Taken::ended))]
fn split_from(
    alloc: Global,
    holes: Vec<Hole>,
    from: u32,
) -> Result<(Vec<Hole>, Vec<Hole>), NoMemory>
    ensures taken { IfOk result (λ r. r.0.items ≡ filter (spec.is_from from) holes.items) }
    ensures left { IfOk result (λ r. r.1.items ≡ filter (λ h. not (spec.is_from from h)) holes.items) }
{
    let mut rest = holes;
    rest.reverse();
    let mut taken = Vec::new(alloc);
    let mut left = Vec::new(alloc);
    'holes: while let Some(hole) = rest.pop() {
        if from <= hole.metavariable {
            taken.push(hole)?;
        } else {
            left.push(hole)?;
        }
    }
    Ok((taken, left))
}

/// The holes whose metavariables are numbered from `from` on no longer wait, and are given in order.
pub fn taken_from(alloc: Global, state: &mut State, from: u32) -> Result<Vec<Hole>, Ended>
    ensures value { (u : ℕ) → RunsAs (λ v. v.items) (spec.taken_from from u (own.state state.old)) result u (own.state state.new) }
    ensures calm { Calm result }
    ensures metas { state.new.metas ≡ state.old.metas }
{
    let holes = std::mem::replace(&mut state.pending, Vec::new(alloc));
    let (taken, left) = split_from(alloc, holes, from)?;
    state.pending = left;
    Ok(taken)
}

/// A block ends. After a value its node stands behind those before it. After an error its changes and its holes are taken back, its node
/// has the error, and None is given. A spent budget ends what runs the block too, and so does what has to be made first.
pub fn end_block<T: Drop>(
    alloc: Global,
    state: &mut State,
    aside: Aside,
    outcome: Result<T, Ended>,
) -> Result<Option<T>, Ended>
    ensures value { (s : parts.State) (o : run.Answer parts.State T) (u : ℕ) → Begun aside s → take (length s.changes) state.old.metas ≡ s.changes
        → Runs o outcome u (own.state state.old) → Runs (spec.after_block s o) result u (own.state state.new) }
{
    match outcome {
        Ok(value) => {
            put_node(alloc, state, aside.nodes, None)?;
            Ok(Some(value))
        }
        Err(Ended::Failed(message)) => {
            state.metas.undo(aside.mark);
            state.pending = aside.pending;
            put_node(alloc, state, aside.nodes, Some(message))?;
            Ok(None)
        }
        Err(Ended::Out) => {
            put_node(alloc, state, aside.nodes, None)?;
            Err(Ended::Out)
        }
        Err(Ended::Need(key)) => Err(Ended::Need(key)),
        Err(Ended::Stopped) => Err(Ended::Stopped),
        Err(Ended::NoMemory) => Err(Ended::NoMemory),
    }
}
