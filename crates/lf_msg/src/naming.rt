//! What is wrong with names and scopes.
use crate::name_text::Dotted;
use lf_name::Name;
use std::fmt;

/// What is wrong with a declared name, its level names, a scope or an import. The texts are those of docs/messages.md, "Names and scopes".
#[derive(Debug, Drop)]
pub enum NamingError {
    /// The name is one that is realized when it is asked for.
    Reserved(Name),
    /// The name is there already.
    Duplicate(Name),
    /// More level names than a declaration may have: 8, or 7 for an inductive type.
    TooManyLevelNames { limit: u32 },
    /// A written level name that repeats an earlier one.
    DuplicateLevel(Name),
    /// An `end` whose name isn't that of the innermost scope, or without a scope.
    MismatchedEnd,
    /// An import that is no earlier module.
    UnknownModule(Name),
}

impl fmt::Display for NamingError {
    ghost use Rattle.std.specs.Prelude.{Some};
    ghost use Rattle.lf_msg.specs.Texts.{naming_text};

    ghost output = { λ e. Some (naming_text e) };

    fn fmt<W: fmt::Write>(&self, f: &mut fmt::Formatter<W>) -> fmt::Result {
        match self {
            Self::Reserved(name) => write!(f, "reserved name {}", Dotted(name)),
            Self::Duplicate(name) => write!(f, "duplicate declaration {}", Dotted(name)),
            Self::TooManyLevelNames { limit } => write!(f, "more than {limit} level names"),
            Self::DuplicateLevel(name) => write!(f, "duplicate level {}", Dotted(name)),
            Self::MismatchedEnd => f.write_str("mismatched end"),
            Self::UnknownModule(name) => write!(f, "unknown module {}", Dotted(name)),
        }
    }
}
