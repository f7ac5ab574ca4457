//! Why a term is refused.
use lf_core::{Expr, Name};

/// Why a term or a declaration is refused. Terms stand in the context of the place that is refused.
#[derive(Debug, Drop)]
pub enum TypeFault {
    /// No constant has this name.
    Unknown(Name),
    /// The constant of this name has another number of levels.
    Levels(Name),
    /// A function was wanted, and what stands there has this type.
    NotFunction(Expr),
    /// An argument has the first type, and the second is expected.
    Argument(Expr, Expr),
    /// A type was wanted, and what stands there has this type, which is no sort.
    NotType(Expr),
    /// A value has the first type, and the second is expected.
    Value(Expr, Expr),
    /// A loose bound variable, a metavariable, or a variable that isn't in the context.
    NotClosed,
    /// A structure was wanted, and what is projected has this type.
    NotStructure(Expr),
    /// In the constructor of this name the field, from 1, isn't positive.
    NotPositive(Name, u32),
    /// The constructor of this name doesn't end in its type as it has to.
    BadResult(Name),
    /// In the constructor of this name the level of the field, from 1, is too high.
    LevelTooHigh(Name, u32),
    /// An inductive type's own type isn't pis that end in a sort.
    BadType,
    /// The name is there already, as an entry of this position; 4294967295 is that of the base.
    Duplicate { name: Name, position: u32 },
}
