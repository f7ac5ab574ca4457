//! What a task has told so far.
ghost use Rattle.std.specs.Prelude.{◌≡◌, ◌++◌, ◌∷◌, [], OnOk};
ghost use Rattle.lf_document.specs.Task as spec;
ghost use Rattle.lf_msg.specs.Texts.{message_of};

use lf_core::{Name, NoMemory};
use lf_msg::{Diagnostic, Message};
use lf_part::Node;
use std::alloc::Global;
use std::marker::Model;

/// What has been told so far: the messages of the task itself; the nodes of the blocks that ran; and the realized names that
/// were asked for, each once.
#[derive(Debug, Drop)]
pub struct Log {
    pub messages: Vec<Message>,
    pub nodes: Vec<Node>,
    pub asked: Vec<Name>,
}

impl Model for Log {
    ghost use Rattle.std.specs.Prelude.{map};
    ghost use Rattle.lf_part.specs.Says.{node};
    ghost use Rattle.lf_document.specs.Task.{Log as LogValue};

    ghost Value = { LogValue };

    ghost view = { λ l. record { messages = l.messages.items; nodes = map node l.nodes.items; asked = l.asked.items } };
}

impl Log {
    /// Nothing is told.
    pub fn new(alloc: Global) -> Log
        ensures { result ≡ spec.nothing_told }
    {
        Log {
            messages: Vec::new(alloc),
            nodes: Vec::new(alloc),
            asked: Vec::new(alloc),
        }
    }

    /// A message of the task itself.
    pub fn tell(
        &mut self,
        alloc: Global,
        at: usize,
        diagnostic: &Diagnostic,
    ) -> Result<(), NoMemory>
        ensures { OnOk result (self.new ≡ record (self.old) { messages = self.old.messages ++ message_of at diagnostic.now ∷ [] }) }
    {
        self.messages.push(Message::new(alloc, at, diagnostic)?)?;
        Ok(())
    }
}
