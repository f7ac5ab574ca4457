//! What is wrong with definitions by equations.
use crate::name_text::Dotted;
use lf_name::Name;
use std::fmt;

/// Why the alternatives of a definition make no term. The texts are those of docs/messages.md, "Definitions by equations".
#[derive(Debug, Drop)]
pub enum EquationError {
    /// The argument isn't of an inductive type without indices, or what the definition gives is of no type.
    NotInductive,
    /// The name is no constructor of the type, or has another number of fields.
    NotACase(Name),
    /// The constructor of this name has an alternative already.
    Twice(Name),
    /// The constructor of this name has no alternative.
    Missing(Name),
    /// In the alternative of this constructor the definition is used otherwise than at a recursive field.
    NotStructural(Name),
}

impl fmt::Display for EquationError {
    ghost use Rattle.std.specs.Prelude.{Some};
    ghost use Rattle.lf_msg.specs.Texts.{equation_text};

    ghost output = { λ e. Some (equation_text e) };

    fn fmt<W: fmt::Write>(&self, f: &mut fmt::Formatter<W>) -> fmt::Result {
        match self {
            Self::NotInductive => f.write_str("not an inductive argument"),
            Self::NotACase(name) => write!(f, "{} is not a case", Dotted(name)),
            Self::Twice(name) => write!(f, "case {} twice", Dotted(name)),
            Self::Missing(name) => write!(f, "missing case {}", Dotted(name)),
            Self::NotStructural(name) => write!(
                f,
                "recursion is not structural in case {}",
                Dotted(name)
            ),
        }
    }
}
