//! The resolution of instances: the term of the least tree of candidates.
#![tactic(auto)]

mod attempt;
mod candidate;
mod search;
mod synth;
mod unified;
mod walk;

pub use synth::{Resolution, resolve_among};
