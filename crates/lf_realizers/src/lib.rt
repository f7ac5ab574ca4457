//! Constants that are made when they are asked for: docs/language.md, Realized constants.
#![tactic(auto)]

mod accepting;
mod child;
mod realizing;
mod stating;
mod within;

pub use realizing::{Realized, realize};
