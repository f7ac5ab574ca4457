//! The top call: from the words of the command line and a text to the report.
#![tactic(auto)]

mod axioms;
mod fault;
mod names;
mod parse;
mod report;
mod serial;
mod status;
mod token;
mod typing;

pub use serial::run_serial;
pub use status::Status;
