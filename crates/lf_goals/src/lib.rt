//! What proof items do between their nested calls: goals and the proofs of them, items that fail, steps, what comes before an item and behind
//! the last one. docs/language.md, Elaboration.
#![tactic(auto)]

mod checking;
mod direct;
mod failing;
mod goal;
mod items;
mod steps;
mod trees;

pub use checking::{goal_pi, own_local, step_proof};
pub use direct::{lambda_applied, lambda_of, sole};
pub use failing::fails_as;
pub use goal::{Goal, are_blocks, plain, plain_goals};
pub use items::{blocks_expected, nothing_left, proved, ready};
pub use steps::{asked_by, eliminate_step, injection_step};
pub use trees::{item_place, rfl_term, start_of};
