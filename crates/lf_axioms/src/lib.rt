//! The axioms that a constant reaches: docs/language.md, Realized constants.
#![tactic(auto)]

mod answer;
mod detail;
mod halt;
mod item;
mod order;
mod slots;
mod turn;
mod walk;

pub use answer::{ReachedAxioms, reached};
