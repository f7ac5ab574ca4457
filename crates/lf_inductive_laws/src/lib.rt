//! Laws on telescopes, recursors and derived environments with inductive declarations: each public function's contract is one of them.
#![tactic(auto)]

ghost use Rattle.lf_inductive_laws.specs.Fields.{AdmissionAsks};
ghost use Rattle.lf_inductive_laws.specs.Growing.{DerivationsGrow};
ghost use Rattle.lf_inductive_laws.specs.Closed.{DerivedIsClosed, DerivedIsRight};
ghost use Rattle.lf_inductive_laws.specs.Declarations.{DerivedIsAsDeclared};
ghost use Rattle.lf_inductive_laws.specs.Ordinary.{NumbersStay};
ghost use Rattle.lf_inductive_laws.specs.Recursors.{RecursorsAreRight};
ghost use Rattle.lf_inductive_laws.specs.Telescopes.{TelescopeLaws};

/// What is opened is closed again, what is closed is opened again, and pis over types are a type.
pub fn telescopes_open_and_close()
    ensures { TelescopeLaws }
{}

/// The recursor of an admitted declaration is closed, and names only the declaration and what it names.
pub fn recursors_are_right()
    ensures { RecursorsAreRight }
{}

/// The constants of a derived environment are closed.
pub fn derived_environments_are_closed()
    ensures { DerivedIsClosed }
{}

/// They name only constants of the environment, at their own levels.
pub fn derived_environments_are_right()
    ensures { DerivedIsRight }
{}

/// What a constant of a derived environment says of an inductive declaration is what the declaration says.
pub fn derived_environments_are_as_declared()
    ensures { DerivedIsAsDeclared }
{}

/// What is stated, checked or introduced is so over each environment that tells at least as much.
pub fn derivations_grow()
    ensures { DerivationsGrow }
{}

/// What admission asks of the levels of fields and of large elimination, said along a constructor's type; which fields are recursive; and
/// that numbers are no proofs.
pub fn admission_asks_of_fields()
    ensures { AdmissionAsks }
{}

/// A derived list that begins with ordinary numbers has ordinary numbers, and no other constants of their names.
pub fn numbers_stay_ordinary()
    ensures { NumbersStay }
{}
