//! What the checker answers, as definitions without code: views, runs and their costs, `whnf` to the test of inductive
//! declarations. The faults are the ones that the code answers with.
#![tactic(auto)]

mod fault;

pub use fault::TypeFault;
