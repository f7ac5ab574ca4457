//! Where binders and parts close: the holes that were made meanwhile are run, over a function that proves a goal by a block.
//! docs/language.md, Elaboration.
#![tactic(auto)]

mod closing;

pub use closing::{closed, closed_at};
