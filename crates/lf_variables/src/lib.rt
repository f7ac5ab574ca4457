//! The names that a declaration refers to, and the variables and level names that it takes by them.
#![tactic(auto)]

mod declared_levels;
mod header;
mod levels;
mod naming;
mod rounds;
mod terms;

pub use declared_levels::{level_names, repeated_level};
pub use header::header_references;
pub use rounds::{taken, with_types};
