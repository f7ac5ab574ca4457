//! Terms by recursive descent.
#![tactic(auto)]

mod build;
mod element;
mod halt;
mod items;
mod level;
mod names;
mod piece;
mod sort;
mod terms;
mod token;

pub use halt::Halt;
pub use names::{
    any_name, any_names, binder_name, binder_names, level_names, named, one, one_part, one_parts,
    optional_name,
};
pub use piece::{Class, Front, Piece, Spot, next, stuck};
pub use terms::{bracket, term, type_option};
pub use token::{some_word, word};
