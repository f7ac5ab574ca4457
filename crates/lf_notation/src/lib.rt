//! Names, terms and inductive declarations as tests write them down.
#![tactic(auto)]

mod declaration;
mod reader;
mod unread;
mod writer;

pub use declaration::{Declaration, declared};
pub use reader::{binder, level, levels, name, names, term, terms};
pub use unread::Unread;
pub use writer::{written, written_binder, written_level, written_name};
