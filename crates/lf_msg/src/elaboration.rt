//! Why a term isn't elaborated.
use crate::name_text::Dotted;
use lf_name::{Name, Word};
use std::fmt;

/// Why a term of the text isn't elaborated. A `Word` is a printed term. The texts are those of docs/messages.md, "Terms".
#[derive(Debug, Drop)]
pub enum ElaborationError {
    /// No local and no constant has this name.
    UnknownIdentifier(Name),
    /// The constant of this name has another number of levels than are written.
    WrongLevelCount(Name),
    /// No level has this name.
    UnknownLevel(Name),
    /// A numeral above 32 in a level.
    LevelAbove32,
    /// A term of another type than the one that its place asks for.
    TypeMismatch { found: Word, expected: Word },
    /// A function was wanted, and what stands there has this type.
    FunctionExpected(Word),
    /// A type was wanted, and what stands there has this type.
    TypeExpected(Word),
    /// A metavariable of terms that nothing determines.
    UndeterminedPlaceholder,
    /// A metavariable of levels that nothing determines.
    UndeterminedLevel,
    /// No instance of this type is found.
    NoInstance(Word),
}

impl fmt::Display for ElaborationError {
    ghost use Rattle.std.specs.Prelude.{Some};
    ghost use Rattle.lf_msg.specs.Texts.{elaboration_text};

    ghost output = { λ e. Some (elaboration_text e) };

    fn fmt<W: fmt::Write>(&self, f: &mut fmt::Formatter<W>) -> fmt::Result {
        match self {
            Self::UnknownIdentifier(name) => write!(f, "unknown identifier {}", Dotted(name)),
            Self::WrongLevelCount(name) => write!(f, "wrong number of levels for {}", Dotted(name)),
            Self::UnknownLevel(name) => write!(f, "unknown level {}", Dotted(name)),
            Self::LevelAbove32 => f.write_str("level above 32"),
            Self::TypeMismatch { found, expected } => {
                write!(
                    f,
                    "type mismatch: has type {} but is expected to have type {}",
                    found.as_str(),
                    expected.as_str()
                )
            }
            Self::FunctionExpected(ty) => write!(
                f,
                "function expected: term has type {}",
                ty.as_str()
            ),
            Self::TypeExpected(ty) => write!(f, "type expected: has type {}", ty.as_str()),
            Self::UndeterminedPlaceholder => f.write_str("cannot determine a placeholder"),
            Self::UndeterminedLevel => f.write_str("cannot determine a level"),
            Self::NoInstance(goal) => write!(f, "failed to synthesize {}", goal.as_str()),
        }
    }
}
