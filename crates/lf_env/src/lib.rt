//! Views of an environment, and the plain checker as a definition.
#![tactic(auto)]

mod answer;
mod entry;
mod layer;
mod layers;
mod listing;
mod view;

pub use answer::{BodyOf, Lookup};
pub use layers::BASE;
pub use view::View;
