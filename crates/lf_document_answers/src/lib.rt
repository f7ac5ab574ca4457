//! Answers of whole documents that are known from elsewhere, as laws by computation.
#![tactic(auto)]

ghost use Rattle.lf_document_answers.specs.Equations.{EquationAnswers};
ghost use Rattle.lf_document_answers.specs.Headers.{HeaderAnswers};
ghost use Rattle.lf_document_answers.specs.Helpers.{HelperAnswers};
ghost use Rattle.lf_document_answers.specs.Inductives.{InductiveAnswers};
ghost use Rattle.lf_document_answers.specs.Names.{NameAnswers};
ghost use Rattle.lf_document_answers.specs.Parts.{PartAnswers};
ghost use Rattle.lf_document_answers.specs.Queries.{QueryAnswers};
ghost use Rattle.lf_document_answers.specs.Realized.{RealizedAnswers};
ghost use Rattle.lf_document_answers.specs.Structures.{StructureAnswers};
ghost use Rattle.lf_document_answers.specs.Values.{ValueAnswers};

/// Heads, bodies and ranks.
pub fn part_answers()
    ensures { PartAnswers }
{}

/// Names that are there or reserved, level names, scopes, syntax errors.
pub fn name_answers()
    ensures { NameAnswers }
{}

/// Stated types with variables, what refuses them, axioms that rest on `sorry`, units.
pub fn header_answers()
    ensures { HeaderAnswers }
{}

/// Values that fail, definitions without a stated type, warnings, blocks that fail.
pub fn value_answers()
    ensures { ValueAnswers }
{}

/// Helpers: their names, what they see, those that are refused.
pub fn helper_answers()
    ensures { HelperAnswers }
{}

/// Inductive types, and what refuses them.
pub fn inductive_answers()
    ensures { InductiveAnswers }
{}

/// Structures with their projections, classes and instances.
pub fn structure_answers()
    ensures { StructureAnswers }
{}

/// Definitions by equations, and their faults.
pub fn equation_answers()
    ensures { EquationAnswers }
{}

/// Realized constants: which lines they have, and where none is made.
pub fn realized_answers()
    ensures { RealizedAnswers }
{}

/// `variable`, `#check` and `#print axioms`.
pub fn query_answers()
    ensures { QueryAnswers }
{}
