//! Scopes: what the commands before a place have opened and declared for it.
#![tactic(auto)]

mod chain;
mod declared;
mod holding;
mod names;
mod scope;

pub use lf_elaboration::Variable;
pub use scope::Scope;
