//! Induction and cases on a local: a step of a proof that reads no written term and doesn't unify.
#![tactic(auto)]

pub mod calls;
mod cases;
mod induction;
mod limit;
mod motive;
mod target;

pub use induction::induct;
pub use motive::with_motive;
