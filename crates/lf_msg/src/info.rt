//! What commands ask to be told.
use crate::name_text::{BehindCommas, Dotted};
use lf_name::{Name, Word};
use sqlite_items::Items;
use std::fmt;

/// What a command asks to be told. A `Word` is a printed term. The texts are those of docs/messages.md, "Infos".
#[derive(Debug, Drop)]
pub enum Info {
    /// `#check`: a term and its type.
    Checked { term: Word, ty: Word },
    /// `#reduce`: a normal form.
    Reduced(Word),
    /// `#print axioms`: a constant and the axioms that it reaches, in order.
    Axioms { name: Name, axioms: Items<Name> },
}

/// What is said of a constant that reaches these axioms, behind its name.
#[derive(Clone, Copy)]
struct Reached<'a>(&'a [Name]);

impl fmt::Display for Reached<'_> {
    ghost use Rattle.std.specs.Prelude.{Some};
    ghost use Rattle.lf_msg.specs.Texts.{reached_text};

    ghost output = { λ r. Some (reached_text r.0.now) };

    fn fmt<W: fmt::Write>(&self, f: &mut fmt::Formatter<W>) -> fmt::Result {
        match self.0 {
            [] => f.write_str(" does not depend on any axioms"),
            [first, rest @ ..] => {
                write!(
                    f,
                    " depends on axioms: [{}{}]",
                    Dotted(first),
                    BehindCommas(rest)
                )
            }
        }
    }
}

impl fmt::Display for Info {
    ghost use Rattle.std.specs.Prelude.{Some};
    ghost use Rattle.lf_msg.specs.Texts.{info_text};

    ghost output = { λ a. Some (info_text a) };

    fn fmt<W: fmt::Write>(&self, f: &mut fmt::Formatter<W>) -> fmt::Result {
        match self {
            Self::Checked { term, ty } => write!(f, "{} : {}", term.as_str(), ty.as_str()),
            Self::Reduced(term) => f.write_str(term.as_str()),
            Self::Axioms { name, axioms } => {
                write!(f, "{}{}", Dotted(name), Reached(axioms.as_slice()))
            }
        }
    }
}
