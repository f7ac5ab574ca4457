//! The resolution of instances, as definitions without code: which tree answers a goal, and what the walk that finds it
//! costs.
#![tactic(auto)]
