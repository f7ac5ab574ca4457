ghost use Rattle.std.specs.Prelude.{◌≡◌, ◌++◌, IfOk, OnOk};
ghost use Rattle.lf_msg.specs.Trees.{flat_all};

use crate::message::Message;
use lf_base::NoMemory;
use std::alloc::Global;
use std::marker::Model;

/// The messages of a part, and those of the blocks that ran in it. Contracts see the messages in the order of a report,
/// a node's own before its children's, and the number of nodes.
#[derive(Drop)]
pub struct Tree {
    pub messages: Vec<Message>,
    pub children: Vec<Tree>,
}

impl Model for Tree {
    ghost use Rattle.std.specs.Prelude.{◌++◌, suc};
    ghost use Rattle.lf_msg.specs.Trees.{Flat, flat_all, nodes_all, most_nodes};

    ghost Value = { Flat };

    ghost view = { λ t. record { messages = t.messages.items ++ flat_all t.children.items; nodes = suc (nodes_all t.children.items) } };

    ghost size = { λ f. f.nodes };

    ghost use Rattle.std.proofs.Common.{arith};

    ghost size_decreases = { λ t h. Prim.omega (arith, most_nodes t.children.items) };
}

/// A list equal to the messages, at the end of those that stand there.
fn copy_messages(
    alloc: Global,
    messages: &[Message],
    all: &mut Vec<Message>,
) -> Result<(), NoMemory>
    ensures { OnOk result (all.new.items ≡ all.old.items ++ messages.now) }
{
    'messages: for message in messages {
        all.push(message.copy(alloc)?)?;
    }
    Ok(())
}

impl Tree {
    /// The messages of the node, and then those of its children, in order.
    pub fn flatten(&self, alloc: Global) -> Result<Vec<Message>, NoMemory>
        ensures { IfOk result (λ all. all.items ≡ self.now.messages) }
    {
        let mut all = Vec::new(alloc);
        self.put(alloc, &mut all)?;
        Ok(all)
    }

    /// Puts the messages at the end of those that stand there.
    fn put(&self, alloc: Global, all: &mut Vec<Message>) -> Result<(), NoMemory>
        ensures { OnOk result (all.new.items ≡ all.old.items ++ self.now.messages) }
    {
        copy_messages(alloc, self.messages.as_slice(), all)?;
        let children = self.children.as_slice();
        'children: for child in children {
            child.put(alloc, all)?;
        }
        Ok(())
    }

    /// A tree with equal messages in as many nodes.
    pub fn copy(&self, alloc: Global) -> Result<Tree, NoMemory>
        ensures { IfOk result (λ t. t ≡ self.now) }
    {
        let mut messages = Vec::new(alloc);
        copy_messages(alloc, self.messages.as_slice(), &mut messages)?;
        let own = self.children.as_slice();
        let mut children = Vec::new(alloc);
        'each: for child in own {
            children.push(child.copy(alloc)?)?;
        }
        Ok(Tree { messages, children })
    }
}
