//! Answers of definitions by equations that are known from elsewhere, as laws by computation.
#![tactic(auto)]

ghost use Rattle.lf_equations_answers.specs.Compiled.{CompiledAnswers};

/// The terms that alternatives make, which the kernel accepts and which compute as written; and the faults of others.
pub fn compiled_answers()
    ensures { CompiledAnswers }
{}
