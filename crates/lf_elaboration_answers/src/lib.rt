//! Answers of elaboration that are known from elsewhere, as laws by computation.
#![tactic(auto)]

ghost use Rattle.lf_elaboration_answers.specs.Forms.{FormAnswers};
ghost use Rattle.lf_elaboration_answers.specs.Items.{ItemAnswers};
ghost use Rattle.lf_elaboration_answers.specs.Realized.{RealizedAnswers};
ghost use Rattle.lf_elaboration_answers.specs.Scopes.{ScopeAnswers};
ghost use Rattle.lf_elaboration_answers.specs.Settled.{SettledAnswers};
ghost use Rattle.lf_elaboration_answers.specs.Worked.{Answers};

/// Metavariables, unification, terms, blocks and proof items on small examples.
pub fn worked_answers()
    ensures { Answers }
{}

/// What is assigned, what an error says and where, and the terms that items make, where the rules leave little room.
pub fn settled_answers()
    ensures { SettledAnswers }
{}

/// What each written form of a term takes and gives, where its errors stand, and what it costs.
pub fn form_answers()
    ensures { FormAnswers }
{}

/// What each proof item looks at and leaves, and where its errors stand.
pub fn item_answers()
    ensures { ItemAnswers }
{}

/// Statements of realized constants, whose proofs the kernel accepts; and the axioms that a constant reaches.
pub fn realized_answers()
    ensures { RealizedAnswers }
{}

/// Scopes, candidates, and the variables and level names that declarations take.
pub fn scope_answers()
    ensures { ScopeAnswers }
{}
