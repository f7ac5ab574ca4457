//! Texts as rows of tests write them.
#![tactic(auto)]

mod escape;
mod fault;

pub use escape::{bytes, shown};
pub use fault::RowFault;
