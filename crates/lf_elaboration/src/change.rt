//! Changes of metavariables.
use lf_core::{Expr, Level};

/// A change of the metavariables of a part. They are numbered in the order in which they are made, those of terms and
/// those of levels each from 0.
#[derive(Debug, Drop)]
pub enum Change {
    /// A metavariable of this type is made for a context of so many locals, by the node at this place, in bytes.
    Made { ty: Expr, locals: u32, at: usize },
    /// A metavariable of levels is made.
    LevelMade,
    /// The metavariable of this number stands for a term.
    Assigned { metavariable: u32, value: Expr },
    /// The metavariable of levels of this number stands for a level.
    LevelAssigned { metavariable: u32, value: Level },
}
