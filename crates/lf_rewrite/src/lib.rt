//! Rewriting as a matter of terms alone: docs/language.md, Proof items.
#![tactic(auto)]

mod parts;
mod places;

pub use parts::motive;
pub use places::places_for;
