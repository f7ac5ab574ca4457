//! The commands of a text.
#![tactic(auto)]

mod command;
mod document;
mod piece;

pub use document::parse;
