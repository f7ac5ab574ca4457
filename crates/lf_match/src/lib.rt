//! Definitions by equations, compiled to recursors.
#![tactic(auto)]

mod argument;
mod coverage;
mod definition;
mod ended;
mod hypotheses;
mod minors;
mod names;
mod recursor;

pub use argument::{Argument, Inductive};
pub use definition::{argument_within, compile, compile_within};
