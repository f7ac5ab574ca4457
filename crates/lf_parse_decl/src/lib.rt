//! Commands by recursive descent.
#![tactic(auto)]

mod binders;
mod commands;
mod constructors;
mod definition;
mod equations;
mod fields;
mod head;
mod helper;
mod leaf;
mod patterns;
mod scopes;

pub use binders::{binder, parameters};
pub use commands::command;
pub use constructors::ctors;
pub use equations::alternatives;
pub use fields::fields_option;
pub use helper::helpers;
pub use patterns::pattern;
