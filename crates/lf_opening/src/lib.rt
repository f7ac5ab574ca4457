//! `apply`, `rw` and `unfold` between their nested calls: pis opened by metavariables, goals, the goal rewritten by an equation.
//! docs/language.md, Proof items.
#![tactic(auto)]

mod applying;
mod opened;
mod opening;
mod pis;
mod proving;
mod rewriting;
mod rules;
mod unfolding;

pub use applying::{applied, goals_of};
pub use opened::{Given, Opened, Turn};
pub use opening::{open_all, open_first, with_given};
pub use pis::pis_of;
pub use proving::{first_goal, is_reflexive, proved, reflexive_proof, reflexivity};
pub use rewriting::{first_unified, rewrite_by};
pub use rules::{by_rule, in_prop, proof_sided, sided};
pub use unfolding::unfolding_term;
