//! Messages.
ghost use Rattle.std.specs.Prelude.{◌≡◌, IfOk};
ghost use Rattle.lf_msg.specs.Texts.{message_of};

use crate::diagnostic::Diagnostic;
use lf_base::NoMemory;
use lf_name::Word;
use std::alloc::Global;
use std::fmt;

/// How grave a message is, written `error`, `warning` or `info`.
#[derive(Clone, Copy, Debug, PartialEq, Eq)]
pub enum Severity {
    /// Something is refused.
    Error,
    /// Something is accepted, and should be looked at.
    Warning,
    /// An answer.
    Info,
}

impl fmt::Display for Severity {
    ghost use Rattle.std.specs.Prelude.{Some};
    ghost use Rattle.lf_msg.specs.Texts.{severity_text};

    ghost output = { λ s. Some (severity_text s) };

    fn fmt<W: fmt::Write>(&self, f: &mut fmt::Formatter<W>) -> fmt::Result {
        f.write_str(match self {
            Self::Error => "error",
            Self::Warning => "warning",
            Self::Info => "info",
        })
    }
}

/// A message at a place of the text, in bytes.
#[derive(Debug, Drop)]
pub struct Message {
    pub at: usize,
    pub severity: Severity,
    pub text: Word,
}

impl Message {
    /// The message that says this at a place of the text.
    pub fn new(alloc: Global, at: usize, diagnostic: &Diagnostic) -> Result<Message, NoMemory>
        ensures { IfOk result (λ m. m ≡ message_of at diagnostic.now) }
    {
        Ok(Message {
            at,
            severity: diagnostic.severity(),
            text: diagnostic.text(alloc)?,
        })
    }

    /// An equal message.
    pub fn copy(&self, alloc: Global) -> Result<Message, NoMemory>
        ensures { IfOk result (λ m. m ≡ self.now) }
    {
        Ok(Message {
            at: self.at,
            severity: self.severity,
            text: self.text.copy(alloc)?,
        })
    }
}
