//! Alternatives as they are compiled.
use lf_core::{Expr, Name};
use sqlite_items::Items;

/// An alternative whose names are resolved and whose term is elaborated. In `body` the free variable whose number is the
/// number of the definition's binders is the definition itself, those below are the binders, and the fields follow.
#[derive(Debug, Drop)]
pub struct Case {
    /// The constructor of this case.
    pub constructor: Name,
    /// The names of its fields.
    pub fields: Items<Name>,
    pub body: Expr,
}
