//! The tokens of a text, with the layout tokens.
#![tactic(auto)]

mod characters;
mod kind;
mod law;
mod layout;
mod lexer;
mod nesting;
mod place;
mod scan;
mod shape;
mod stack;
mod words;

pub use law::tokens_cover_the_text;
pub use lexer::tokens;
pub use lf_text::{Role, Spelling, Token, TokenKind, Word};
pub use nesting::nesting_numbers;
