//! The test of inductive declarations, and the constants that they add.
#![tactic(auto)]

mod admission;
mod constants;
mod constructor;
mod elimination;
mod family;
mod fields;
mod form;
mod front;
mod levels;
mod read;

pub use admission::admit;
