//! Words, names and binders: what terms and syntax trees both speak of.
#![tactic(auto)]

mod binder;
mod copied;
mod name;
mod word;

pub use binder::{Binder, BinderKind};
pub use copied::{Copied, copy_all};
pub use name::{Name, same_parts};
pub use word::Word;
