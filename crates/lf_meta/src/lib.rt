//! Metavariables, as the list of their changes.
#![tactic(auto)]

mod assigned;
mod fault;
mod limit;
mod made;
mod metas;
mod put_level;
mod put_term;
mod reach;
mod table;
mod variables;

pub use fault::MetaFault;
pub use metas::Metas;
