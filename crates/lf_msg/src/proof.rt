//! Why a block of proof items fails.
use lf_name::Word;
use std::fmt;

/// A proof item that fails under its own name, which is its first word.
#[derive(Clone, Copy, Debug)]
pub enum ProofItem {
    Intro,
    Assumption,
    Rw,
    Unfold,
    Induction,
    Cases,
    Injection,
}

impl fmt::Display for ProofItem {
    ghost use Rattle.std.specs.Prelude.{Some};
    ghost use Rattle.lf_msg.specs.Texts.{item_text};

    ghost output = { λ item. Some (item_text item) };

    fn fmt<W: fmt::Write>(&self, f: &mut fmt::Formatter<W>) -> fmt::Result {
        f.write_str(match self {
            Self::Intro => "intro",
            Self::Assumption => "assumption",
            Self::Rw => "rw",
            Self::Unfold => "unfold",
            Self::Induction => "induction",
            Self::Cases => "cases",
            Self::Injection => "injection",
        })
    }
}

/// Why the items of a `by` block prove nothing. A `Word` is a printed term. The texts are those of docs/messages.md, "Proof items".
#[derive(Debug, Drop)]
pub enum ProofError {
    /// An item stands where no goal is left.
    NoGoals,
    /// So many goals are left, and what follows isn't a block for each.
    BlocksExpected { goals: usize },
    /// The items end, and this goal is left.
    UnsolvedGoal(Word),
    /// The item does nothing with the goal that it has.
    Failed(ProofItem),
}

impl fmt::Display for ProofError {
    ghost use Rattle.std.specs.Prelude.{Some};
    ghost use Rattle.lf_msg.specs.Texts.{proof_text};

    ghost output = { λ e. Some (proof_text e) };

    fn fmt<W: fmt::Write>(&self, f: &mut fmt::Formatter<W>) -> fmt::Result {
        match self {
            Self::NoGoals => f.write_str("no goals"),
            Self::BlocksExpected { goals } => write!(f, "{goals} blocks expected"),
            Self::UnsolvedGoal(goal) => write!(f, "unsolved goal {}", goal.as_str()),
            Self::Failed(item) => write!(f, "{item} failed"),
        }
    }
}
