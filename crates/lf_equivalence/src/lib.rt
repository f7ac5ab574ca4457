//! Injectivity of constructors as equations of propositions, with their proofs: docs/language.md, Realized constants.
#![tactic(auto)]

mod equations;
mod parts;
mod proving;
mod rebuilding;
mod rests;

pub use proving::equivalence;
