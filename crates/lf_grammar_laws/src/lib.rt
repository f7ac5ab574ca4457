//! Laws of the grammar of commands: each public function's contract is one of them, and it does nothing.
#![tactic(auto)]

ghost use Rattle.lf_grammar_lemmas.specs.Outcome.{
  OneAnswer,
  MachineAnswers,
  Complete,
  Sound,
  Completable,
  StuckIsLocal,
  OneCommand,
  OneDocument,
  MachineDocument,
  NeverBad,
};
ghost use Rattle.lf_grammar_laws.specs.Laws.{LevelsKept, OperatorsBind};
ghost use Rattle.lf_grammar_laws.specs.Worked.{Worked};

/// A list of tokens is a command with one tree, or bad at one place, or a beginning that ends early: exactly one of these.
pub fn one_answer()
    ensures { OneAnswer }
{}

/// The predictive machine gives this answer, and no other.
pub fn machine_answers()
    ensures { MachineAnswers }
{}

/// What derives from the grammar, the machine reads.
pub fn complete()
    ensures { Complete }
{}

/// What the machine reads derives from the grammar.
pub fn sound()
    ensures { Sound }
{}

/// Tokens that don't stop the machine begin a command.
pub fn completable()
    ensures { Completable }
{}

/// The machine stops at the first token that doesn't belong.
pub fn stuck_is_local()
    ensures { StuckIsLocal }
{}

/// In derived commands operators keep their levels and sides, and heads and arguments are operands.
pub fn levels_kept()
    ensures { LevelsKept }
{}

/// The operators have the levels and sides of the table that the law writes out.
pub fn operators_bind()
    ensures { OperatorsBind }
{}

/// The worked texts have the answers that are written beside them.
pub fn worked()
    ensures { Worked }
{}

/// The tokens of a command are exactly one command, bad ones among them.
pub fn one_command()
    ensures { OneCommand }
{}

/// Each text, by its bytes, has exactly one list of commands.
pub fn one_document()
    ensures { OneDocument }
{}

/// The machine finds the commands of a text.
pub fn machine_document()
    ensures { MachineDocument }
{}

/// No derivation gives a bad command.
pub fn never_bad()
    ensures { NeverBad }
{}
