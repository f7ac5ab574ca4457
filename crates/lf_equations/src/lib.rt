//! Definitions by equations, as definitions without code: the tests of the alternatives in their order, and the term that
//! they make. Alternatives and faults are values that the code keeps as well.
#![tactic(auto)]

mod alternative;
mod fault;

pub use alternative::Case;
pub use fault::EquationFault;
