//! What elaboration means, as definitions without code: scopes, metavariables, the unifier, terms, blocks of proof
//! items, realized constants, and the axioms that a constant reaches. What is changed, what waits, references and
//! variables are values that the code keeps as well.
#![tactic(auto)]

mod change;
mod hole;
mod reference;
mod variable;

pub use change::Change;
pub use hole::Hole;
pub use reference::Reference;
pub use variable::Variable;
