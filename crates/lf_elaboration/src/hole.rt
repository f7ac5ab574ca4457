//! Holes that wait.
use lf_syntax::{Item, Shared};

/// A metavariable that is solved when a binder closes: by the items of a `by` block, or, without items, by an
/// instance of its type.
#[derive(Debug, Drop)]
pub struct Hole {
    pub metavariable: u32,
    pub items: Option<Shared<Item>>,
}
