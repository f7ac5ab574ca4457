//! The definitions of the fields of structures and classes, between the calls of elaboration: docs/language.md, Commands.
#![tactic(auto)]

mod binders;
mod fields;
mod growing;
mod kernel;
mod naming;
mod owner;
mod taken;

pub use binders::constructor_binders;
pub use growing::{all_fields, push_all};
pub use naming::{constructor_name, field_names, joined, recursor_name};
pub use owner::{Owner, at_parameters, declaring};
pub use taken::{FieldNames, unless_taken};
