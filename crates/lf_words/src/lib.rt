//! The words of the command line, by `clap`.
#![tactic(auto)]

mod number;
mod request;
mod values;
mod worked;

pub use request::{Request, requested};
pub use worked::worked_lines;
