//! The trees of the language, and the definition of its grammar.
#![tactic(auto)]

mod command;
mod leaf;
mod level;
mod pattern;
mod shared;
mod term;

pub use command::{Command, CtorDecl, Decl, FieldDecl, Helper};
pub use leaf::{Ident, Num, SyntaxFault};
pub use level::{LevelNode, LevelTerm};
pub use lf_text::Op;
pub use pattern::{Alternative, Pattern};
pub use shared::Shared;
pub use term::{Binders, Item, ItemNode, LBinder, Rule, Term, TermNode};
