//! Why alternatives make no term.
use lf_core::Name;

/// The first test that the alternatives of a definition don't pass.
#[derive(Debug, Drop)]
pub enum EquationFault {
    /// The argument isn't of an inductive type without indices, or what the definition gives is of no type.
    NotInductive,
    /// The name is no constructor of the type, or has another number of fields.
    NotACase(Name),
    /// The constructor of this name has an alternative already.
    Twice(Name),
    /// The constructor of this name has no alternative.
    Missing(Name),
    /// In the alternative of this constructor the definition is used otherwise than at a recursive field.
    NotStructural(Name),
}
