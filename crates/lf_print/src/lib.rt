//! Terms as text.
#![tactic(auto)]

mod mark;
mod operator;
mod page;
mod piece;
mod printing;

pub use mark::Mark;
pub use operator::{infix_mark, negation, operation, relation};
pub use page::LIMIT;
pub use printing::print;
