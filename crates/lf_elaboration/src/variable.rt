//! Variables of scopes.
use lf_name::BinderKind;
use lf_syntax::{Ident, Term};

/// A variable of a `variable` command, each of a group by itself.
#[derive(Debug, Drop)]
pub struct Variable {
    pub kind: BinderKind,
    pub name: Ident,
    pub ty: Term,
}
