//! Texts, the places in them, and what their tokens are.
#![tactic(auto)]

mod frame;
mod nesting;
mod operator;
mod role;
mod text;
mod token;
mod word;

pub use frame::Frame;
pub use nesting::{Count, Enclosure};
pub use operator::{Binding, Op, Side};
pub use role::Role;
pub use text::{LARGEST_TEXT, Text, TextFault};
pub use token::{Token, TokenKind};
pub use word::{Spelling, Word};
