//! Statements that constructors are injective, with their proofs: docs/language.md, Realized constants.
#![tactic(auto)]

mod conjunctions;
mod opening;
mod primes;
mod proving;
mod selecting;
mod terms;

pub use conjunctions::{conjoined, conjunction};
pub use opening::{Constructor, Field, Sides, sides_of};
pub use proving::{field_proofs, injectivity};
