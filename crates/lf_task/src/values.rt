//! The values of tasks.
ghost use Rattle.std.specs.Prelude.{◌≡◌, ◌++◌, IfOk, OnOk, map};
ghost use Rattle.lf_document.specs.Diagnoses as diagnoses;
ghost use Rattle.lf_document.specs.Diagnoses.{block_node};
ghost use Rattle.lf_document.specs.TaskValue as spec;
ghost use Rattle.lf_msg.specs.Trees.{flat_all, nodes_all};
ghost use Rattle.lf_part.specs.Says as says;

use crate::diagnoses::message_of;
use crate::log::Log;
use crate::made::{Header, Made, Valued};
use lf_core::{ConstInfo, Name, NoMemory};
use lf_msg::Message;
use lf_part as found;
use std::alloc::Global;
use std::marker::Model;

/// The messages of a task, its own before those of its blocks, in order; and how many nodes the tree of its blocks has, with
/// its own.
#[derive(Debug, Drop)]
pub struct Told {
    pub messages: Vec<Message>,
    pub nodes: u64,
}

impl Model for Told {
    ghost use Rattle.lf_msg.specs.Trees.{Flat};

    ghost Value = { Flat };

    ghost view = { λ t. record { messages = t.messages.items; nodes = t.nodes } };
}

/// The value of a task: a header, for a definition or theorem with a stated type; constants that are whole; the value of the
/// header's constant; what was told; the realized names that were asked for; and the constant that a realized name stands for.
#[derive(Debug, Drop)]
pub struct TaskValue {
    pub header: Option<Header>,
    pub entries: Vec<ConstInfo>,
    pub value: Option<Valued>,
    pub messages: Told,
    pub asked: Vec<Name>,
    pub made: Option<ConstInfo>,
}

impl Model for TaskValue {
    ghost use Rattle.std.specs.Coded.{codes};
    ghost use Rattle.lf_core.specs.Codes.{coded_term, coded_universe};
    ghost use Rattle.lf_document.specs.TaskValue.{TaskValue as TaskValueOf};

    ghost Value = { TaskValueOf };

    ghost coded = { Prim.hlevel (codes, coded_term, coded_universe) };

    ghost view = { λ v. record {
      header = v.header;
      entries = v.entries.items;
      value = v.value;
      messages = v.messages;
      asked = v.asked.items;
      made = v.made;
    } };
}

// The messages of a block are put behind the others.
fn put_messages(
    alloc: Global,
    messages: Vec<found::Message>,
    all: &mut Vec<Message>,
) -> Result<(), NoMemory>
    ensures { OnOk result (all.new.items ≡ all.old.items ++ map diagnoses.message (map says.message messages.items)) }
{
    for message in messages {
        all.push(message_of(alloc, message)?)?;
    }
    Ok(())
}

// The messages of the blocks are put behind the others, and their nodes are counted.
fn put_blocks(
    alloc: Global,
    nodes: Vec<found::Node>,
    all: &mut Vec<Message>,
) -> Result<u64, NoMemory>
    ensures messages { OnOk result (all.new.items ≡ all.old.items ++ flat_all (map block_node (map says.node nodes.items))) }
    ensures count { IfOk result (λ n. n ≡ nodes_all (map block_node (map says.node nodes.items))) }
{
    let mut count: u64 = 0;
    for node in nodes {
        let found::Node { messages, nodes } = node;
        put_messages(alloc, messages, all)?;
        count = count.checked_add(nodes).ok_or(NoMemory)?;
    }
    Ok(count)
}

/// The messages of a task itself, and those of the blocks that ran in it.
pub fn all_told(
    alloc: Global,
    messages: Vec<Message>,
    nodes: Vec<found::Node>,
) -> Result<Told, NoMemory>
    ensures { IfOk result (λ t. t ≡ spec.tree messages.items (map says.node nodes.items)) }
{
    let mut all = messages;
    let below = put_blocks(alloc, nodes, &mut all)?;
    let nodes = below.checked_add(1).ok_or(NoMemory)?;
    Ok(Told {
        messages: all,
        nodes,
    })
}

/// The value of the task that made this and told that.
pub fn value_of(alloc: Global, made: Made, log: Log) -> Result<TaskValue, NoMemory>
    ensures { IfOk result (λ v. v ≡ spec.made_and_told made log) }
{
    let messages = all_told(alloc, log.messages, log.nodes)?;
    Ok(TaskValue {
        header: made.header,
        entries: made.entries,
        value: made.value,
        messages,
        asked: log.asked,
        made: None,
    })
}
