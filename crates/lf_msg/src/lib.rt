//! Messages of a report: what they say, with their texts, and trees of them.
#![tactic(auto)]

mod diagnostic;
mod elaboration;
mod equation;
mod info;
mod kernel;
mod message;
mod name_text;
mod naming;
mod proof;
mod syntax;
mod tree;

pub use diagnostic::Diagnostic;
pub use elaboration::ElaborationError;
pub use equation::EquationError;
pub use info::Info;
pub use kernel::KernelError;
pub use message::{Message, Severity};
pub use naming::NamingError;
pub use proof::{ProofError, ProofItem};
pub use syntax::SyntaxError;
pub use tree::Tree;
