//! What the heads and bodies of commands do between their calls of elaboration: docs/language.md, Commands.
#![tactic(auto)]

mod branching;
mod declaration;
mod height;
mod kernel;
mod makes;
mod marks;
mod queries;
mod setting;
mod stating;
mod verdict;
mod within;

pub use branching::with_constant;
pub use declaration::{Declaration, Taken, declared, of_groups, taken_by};
pub use height::height_of;
pub use kernel::{add_decl, add_header, add_inductive, normalize};
pub use makes::Constants;
pub use marks::{is_marked, is_marked_with, is_one_marked};
pub use queries::{checked_under, reduced_under};
pub use setting::{MOST_LEVELS, MOST_LEVELS_OF_TYPE, NESTING, Setting};
pub use stating::{Stated, for_value, stated_at};
pub use verdict::{Verdict, verdict_in, verdict_of};
