//! The work on the head and on the body of a command between its parts: docs/language.md, Commands.
#![tactic(auto)]

mod asking;
mod diagnoses;
mod ending;
mod log;
mod made;
mod plan;
mod ranks;
mod values;

pub use asking::ask_for;
pub use diagnoses::message_of;
pub use ending::{Halted, Judged, PartEnd, begin_part, end_part, refuses};
pub use log::Log;
pub use made::{Header, Made, Valued, with_value, without_value};
pub use plan::{MOST_COMMANDS, Plan, PlanFault};
pub use ranks::rank;
pub use values::{TaskValue, Told, all_told, value_of};
