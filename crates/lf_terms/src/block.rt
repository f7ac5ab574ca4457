//! The end of a block, which fails by itself.
ghost use Rattle.std.specs.Prelude.{◌≡◌, ◌≤◌, ◌++◌, ◌∷◌, [], ℕ, IfOk, OnOk, length, map, take};
ghost use Rattle.lf_elaboration.specs.Closing as spec;
ghost use Rattle.lf_elaboration.specs.Messages as found;
ghost use Rattle.lf_elaboration.specs.Part as parts;
ghost use Rattle.lf_elaboration.specs.Run as run;
ghost use Rattle.lf_part.specs.Runs.{Runs, Rose};
ghost use Rattle.lf_part.specs.Says as says;
ghost use Rattle.lf_part.specs.Values as own;
ghost use Rattle.lf_forms.specs.Blocks.{Begun, own_messages};

use lf_core::NoMemory;
use lf_forms::Aside;
use lf_part::{Ended, Message, Node, State};
use std::alloc::Global;

// The messages are put behind the others.
#[tactic(auto, using(lf_forms::proofs::Nodes::messages_begun, lf_forms::proofs::Nodes::messages_more, lf_forms::proofs::Nodes::messages_over))]
fn add_messages(messages: Vec<Message>, all: &mut Vec<Message>) -> Result<(), NoMemory>
    ensures { OnOk result (all.new.items ≡ all.old.items ++ messages.items) }
{
    let mut rest = messages;
    rest.reverse();
    'messages: while let Some(message) = rest.pop() {
        all.push(message)?;
    }
    Ok(())
}

// The nodes' messages are put behind the others, and the nodes are counted.
#[tactic(auto, using(lf_forms::proofs::Nodes::nodes_begun, lf_forms::proofs::Nodes::counts_begun, lf_forms::proofs::Nodes::nodes_more, lf_forms::proofs::Nodes::nodes_over, lf_forms::proofs::Nodes::counts_more, lf_forms::proofs::Nodes::counts_over))]
fn gather(children: Vec<Node>, all: &mut Vec<Message>) -> Result<u64, NoMemory>
    ensures messages { OnOk result (map says.message all.new.items
        ≡ map says.message all.old.items ++ found.messages_of (map says.node children.items)) }
    ensures nodes { IfOk result (λ n. n ≡ found.nodes_of (map says.node children.items)) }
{
    let mut rest = children;
    rest.reverse();
    let mut count: u64 = 0;
    'children: while let Some(child) = rest.pop() {
        let Node { messages, nodes } = child;
        add_messages(messages, all)?;
        count = count.checked_add(nodes).ok_or(NoMemory)?;
    }
    Ok(count)
}

// The node of a block that has said this, in which these blocks ran.
fn node(alloc: Global, said: Option<Message>, children: Vec<Node>) -> Result<Node, NoMemory>
    ensures { IfOk result (λ n. says.node n ≡ found.node (own_messages said) (map says.node children.items)) }
{
    let mut messages = Vec::new(alloc);
    match said {
        None => {}
        Some(message) => messages.push(message)?,
    }
    let below = gather(children, &mut messages)?;
    let nodes = below.checked_add(1).ok_or(NoMemory)?;
    Ok(Node { messages, nodes })
}

// The node of the block that ended is put behind those before it.
fn put_node(
    alloc: Global,
    state: &mut State,
    before: Vec<Node>,
    said: Option<Message>,
) -> Result<(), NoMemory>
    ensures nodes { OnOk result (own.state state.new ≡ record (own.state state.old) {
      nodes = map says.node before.items ++ found.node (own_messages said) (own.state state.old).nodes ∷ [];
    }) }
    ensures metas { state.new.metas ≡ state.old.metas }
{
    let children = std::mem::replace(&mut state.nodes, before);
    let made = node(alloc, said, children)?;
    state.nodes.push(made)?;
    Ok(())
}

/// A block ends. After a value its node stands behind those before it. After an error its changes and its holes are taken back, its node
/// has the error, and None is given. A spent budget ends what runs the block too, and so does what has to be made first. The changes that
/// were there when it began are there still, whatever the end.
#[tactic(auto, using(lf_unify::proofs::Floor::take_take, lf_unify::proofs::Floor::take_long))]
pub fn end_block<T: Drop>(
    alloc: Global,
    state: &mut State,
    aside: Aside,
    outcome: Result<T, Ended>,
) -> Result<Option<T>, Ended>
    ensures value { (s : parts.State) (o : run.Answer parts.State T) (u : ℕ) → Begun aside s → take (length s.changes) state.old.metas ≡ s.changes
        → Runs o outcome u (own.state state.old) → Runs (spec.after_block s o) result u (own.state state.new) }
    ensures floor { aside.mark ≤ length state.old.metas → aside.mark ≤ length state.new.metas }
    ensures below { take aside.mark state.new.metas ≡ take aside.mark state.old.metas }
    ensures rose { (before after : ℕ) → Rose outcome before after → Rose result before after }
{
    match outcome {
        Ok(value) => {
            put_node(alloc, state, aside.nodes, None)?;
            Ok(Some(value))
        }
        Err(Ended::Failed(message)) => {
            state.metas.undo(aside.mark);
            state.pending = aside.pending;
            put_node(alloc, state, aside.nodes, Some(message))?;
            Ok(None)
        }
        Err(Ended::Out) => {
            put_node(alloc, state, aside.nodes, None)?;
            Err(Ended::Out)
        }
        Err(Ended::Need(key)) => Err(Ended::Need(key)),
        Err(Ended::Stopped) => Err(Ended::Stopped),
        Err(Ended::NoMemory) => Err(Ended::NoMemory),
    }
}
