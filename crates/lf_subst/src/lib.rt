//! Substitution, with the number of nodes that it makes.
#![tactic(auto)]

mod closing;
mod fault;
mod instance;
mod levels;
mod unlimited;

pub use closing::abstract_free;
pub use fault::SubstFault;
pub use instance::{DEEPEST, instantiate};
pub use levels::level_inst;
pub use unlimited::{at_levels, close_body, open_body};
