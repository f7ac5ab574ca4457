//! Branches: the constants that the body of a command adds, all of them children of its name.
#![tactic(auto)]

mod branch;

pub use branch::{Branch, BranchFault};
