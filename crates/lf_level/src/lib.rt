//! The order of universe levels, under every assignment of their parameters.
#![tactic(auto)]

mod fault;
mod lanes;
mod order;
mod parameters;
mod tried;

pub use fault::LevelFault;
pub use order::{leq, same, subst};
pub use parameters::has_no_metavariable;
