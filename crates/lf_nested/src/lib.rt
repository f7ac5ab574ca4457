//! What stands between the nested calls of terms, and what stands behind a proof item; and the words and lemmas by which
//! the functions that call each other are told. docs/language.md, Elaboration.
#![tactic(auto)]

mod arguments;
mod behind;
mod given;
mod typing;

pub use arguments::{placed_as, two_terms};
pub use behind::Behind;
pub use given::goals_given;
pub use typing::{sorted, unwritten_domain};
