//! What elaboration says of an error, and the nodes of blocks.
use lf_core::Name;
use lf_msg::{ElaborationError, KernelError, ProofError};

/// What elaboration finds wrong. The texts are those of docs/messages.md.
#[derive(Debug, Drop)]
pub enum Diagnostic {
    /// A term isn't elaborated.
    Elaboration(ElaborationError),
    /// A block of proof items proves nothing.
    Proof(ProofError),
    /// The checker refuses a term.
    Kernel(KernelError),
    /// A declared name is there already.
    Duplicate(Name),
}

/// An error at a place of the text, in bytes.
#[derive(Debug, Drop)]
pub struct Message {
    pub at: usize,
    pub says: Diagnostic,
}

/// What a block has said: its own error and those of the blocks that ran in it, in order; and how many blocks ran, with itself.
#[derive(Debug, Drop)]
pub struct Node {
    pub messages: Vec<Message>,
    pub nodes: u64,
}
