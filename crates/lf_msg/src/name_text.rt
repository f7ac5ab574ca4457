//! Names as they stand in texts.
use lf_name::{Name, Word};
use std::fmt;

/// Parts of a name, each behind a dot.
#[derive(Clone, Copy)]
struct BehindDots<'a>(&'a [Word]);

impl fmt::Display for BehindDots<'_> {
    ghost use Rattle.std.specs.Prelude.{Some, flat_map};
    ghost use Rattle.lf_msg.specs.Names.{behind_dot};

    ghost output = { λ d. Some (flat_map behind_dot d.0.now) };

    fn fmt<W: fmt::Write>(&self, f: &mut fmt::Formatter<W>) -> fmt::Result {
        'parts: for part in self.0 {
            write!(f, ".{}", part.as_str())?;
        }
        Ok(())
    }
}

/// A name with its parts joined by dots.
#[derive(Clone, Copy)]
pub(crate) struct Dotted<'a>(pub &'a Name);

impl fmt::Display for Dotted<'_> {
    ghost use Rattle.std.specs.Prelude.{Some};
    ghost use Rattle.lf_msg.specs.Names.{dotted};

    ghost output = { λ d. Some (dotted d.0.now) };

    fn fmt<W: fmt::Write>(&self, f: &mut fmt::Formatter<W>) -> fmt::Result {
        match self.0.parts() {
            [] => Ok(()),
            [first, rest @ ..] => write!(f, "{}{}", first.as_str(), BehindDots(rest)),
        }
    }
}

/// Names, each behind a comma and a space.
#[derive(Clone, Copy)]
pub(crate) struct BehindCommas<'a>(pub &'a [Name]);

impl fmt::Display for BehindCommas<'_> {
    ghost use Rattle.std.specs.Prelude.{Some, flat_map};
    ghost use Rattle.lf_msg.specs.Names.{behind_comma};

    ghost output = { λ l. Some (flat_map behind_comma l.0.now) };

    fn fmt<W: fmt::Write>(&self, f: &mut fmt::Formatter<W>) -> fmt::Result {
        'names: for name in self.0 {
            write!(f, ", {}", Dotted(name))?;
        }
        Ok(())
    }
}
