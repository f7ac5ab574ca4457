//! Equations of definitions by recursion, one for each constructor: docs/language.md, Realized constants.
#![tactic(auto)]

mod case;
mod equation;
mod fields;
mod putting;
mod recursion;

pub use case::Defined;
pub use equation::case_equation;
