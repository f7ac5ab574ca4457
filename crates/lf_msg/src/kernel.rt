//! Why the kernel refuses.
use crate::name_text::Dotted;
use lf_name::{Name, Word};
use std::fmt;

/// Why the kernel refuses a term or a declaration, but for a name that is there already (`NamingError::Duplicate`). A `Word` is a printed
/// term. The texts are those of docs/messages.md, "Kernel", behind `kernel: `.
#[derive(Debug, Drop)]
pub enum KernelError {
    /// No constant has this name.
    UnknownConstant(Name),
    /// The constant of this name has another number of levels.
    WrongLevelCount(Name),
    /// A function was wanted, and what stands there has this type.
    FunctionExpected(Word),
    /// An argument has another type than the one that the function asks for.
    Argument { found: Word, expected: Word },
    /// A type was wanted, and what stands there has this type.
    TypeExpected(Word),
    /// A value has another type than the stated one.
    Value { found: Word, expected: Word },
    /// A loose bound variable, a metavariable, or a variable that isn't in the context.
    NotClosed,
    /// A structure was wanted, and what is projected has this type.
    StructureExpected(Word),
    /// In this constructor the field, from 1, isn't positive.
    NotPositive { constructor: Name, field: u32 },
    /// The constructor of this name doesn't end in its type as it has to.
    BadResult(Name),
    /// In this constructor the level of the field, from 1, is too high.
    LevelTooHigh { constructor: Name, field: u32 },
    /// An inductive type's own type isn't pis that end in a sort.
    BadType,
}

impl fmt::Display for KernelError {
    ghost use Rattle.std.specs.Prelude.{Some};
    ghost use Rattle.lf_msg.specs.Texts.{kernel_text};

    ghost output = { λ e. Some (kernel_text e) };

    fn fmt<W: fmt::Write>(&self, f: &mut fmt::Formatter<W>) -> fmt::Result {
        match self {
            Self::UnknownConstant(name) => write!(f, "unknown constant {}", Dotted(name)),
            Self::WrongLevelCount(name) => write!(f, "wrong number of levels for {}", Dotted(name)),
            Self::FunctionExpected(ty) => write!(f, "function expected, type is {}", ty.as_str()),
            Self::Argument { found, expected } => {
                let (found, expected) = (found.as_str(), expected.as_str());
                write!(f, "argument has type {found} but {expected} is expected")
            }
            Self::TypeExpected(ty) => write!(f, "type expected, type is {}", ty.as_str()),
            Self::Value { found, expected } => {
                let (found, expected) = (found.as_str(), expected.as_str());
                write!(f, "value has type {found} but {expected} is expected")
            }
            Self::NotClosed => f.write_str("term is not closed"),
            Self::StructureExpected(ty) => write!(f, "structure expected, type is {}", ty.as_str()),
            Self::NotPositive { constructor, field } => {
                let constructor = Dotted(constructor);
                write!(f, "constructor {constructor}, field {field}: not positive")
            }
            Self::BadResult(name) => write!(f, "constructor {}: bad result", Dotted(name)),
            Self::LevelTooHigh { constructor, field } => {
                let constructor = Dotted(constructor);
                write!(
                    f,
                    "constructor {constructor}, field {field}: level too high"
                )
            }
            Self::BadType => f.write_str("bad type"),
        }
    }
}
