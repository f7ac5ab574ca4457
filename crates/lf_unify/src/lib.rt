//! Whether two terms can be made equal, and the assignments of metavariables that make them so.
#![tactic(auto)]

mod call;
mod change;
mod cx;
mod form;
mod levels;
mod pattern;
mod reading;
mod unifier;

pub use call::unify;
pub use cx::UnifyCx;
pub use unifier::unify as unify_within;
