//! What messages say.
ghost use Rattle.std.specs.Prelude.{◌≡◌, IfOk};
ghost use Rattle.lf_msg.specs.Texts.{text_of, severity_of};

use crate::elaboration::ElaborationError;
use crate::equation::EquationError;
use crate::info::Info;
use crate::kernel::KernelError;
use crate::message::Severity;
use crate::naming::NamingError;
use crate::proof::ProofError;
use crate::syntax::SyntaxError;
use lf_base::NoMemory;
use lf_name::Word;
use std::alloc::Global;
use std::fmt;

/// What a message says, with the parts of its text: every message of a report is one of these. docs/messages.md lists them with their
/// texts and says when each comes.
#[derive(Debug, Drop)]
pub enum Diagnostic {
    /// A command doesn't derive from the grammar.
    Syntax(SyntaxError),
    /// A declared name, its level names, a scope or an import is wrong.
    Naming(NamingError),
    /// A term isn't elaborated.
    Elaboration(ElaborationError),
    /// A block of proof items proves nothing.
    Proof(ProofError),
    /// The kernel refuses a term or a declaration.
    Kernel(KernelError),
    /// The alternatives of a definition make no term.
    Equation(EquationError),
    /// A `structure` or `class` that is admitted as an inductive type and is no structure.
    NotAStructure,
    /// A part needs more units, nesting or depth than it has.
    BudgetSpent,
    /// A constant rests on `sorry`, and no error says so.
    UsesSorry,
    /// What a command asks to be told.
    Info(Info),
}

impl fmt::Display for Diagnostic {
    ghost use Rattle.std.specs.Prelude.{Some};

    ghost output = { λ d. Some (text_of d) };

    fn fmt<W: fmt::Write>(&self, f: &mut fmt::Formatter<W>) -> fmt::Result {
        match self {
            Self::Syntax(e) => write!(f, "{e}"),
            Self::Naming(e) => write!(f, "{e}"),
            Self::Elaboration(e) => write!(f, "{e}"),
            Self::Proof(e) => write!(f, "{e}"),
            Self::Kernel(e) => write!(f, "kernel: {e}"),
            Self::Equation(e) => write!(f, "{e}"),
            Self::NotAStructure => f.write_str("not a structure"),
            Self::BudgetSpent => f.write_str("budget spent"),
            Self::UsesSorry => f.write_str("declaration uses sorry"),
            Self::Info(e) => write!(f, "{e}"),
        }
    }
}

impl Diagnostic {
    /// How grave it is: an error, but for the warning on `sorry` and for infos.
    pub fn severity(&self) -> Severity
        ensures { result ≡ severity_of self.now }
    {
        match self {
            Self::Syntax(_)
            | Self::Naming(_)
            | Self::Elaboration(_)
            | Self::Proof(_)
            | Self::Kernel(_)
            | Self::Equation(_)
            | Self::NotAStructure
            | Self::BudgetSpent => Severity::Error,
            Self::UsesSorry => Severity::Warning,
            Self::Info(_) => Severity::Info,
        }
    }

    /// Its text, that of docs/messages.md with the parts put in.
    pub fn text(&self, alloc: Global) -> Result<Word, NoMemory>
        ensures { IfOk result (λ text. text ≡ text_of self.now) }
    {
        let text = self.to_string(alloc)?;
        Word::new(alloc, text.as_str())
    }
}
