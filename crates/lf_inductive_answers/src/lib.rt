//! Worked answers on inductive declarations: recursors, admission, and reduction by the recursors' rules.
#![tactic(auto)]

ghost use Rattle.lf_inductive_answers.specs.Admissions.{Admissions};
ghost use Rattle.lf_inductive_answers.specs.LeftOut.{LeftOut};
ghost use Rattle.lf_inductive_answers.specs.Needs.{Needs};
ghost use Rattle.lf_inductive_answers.specs.Recursors.{Recursors};
ghost use Rattle.lf_inductive_answers.specs.Reductions.{Reductions};
ghost use Rattle.lf_inductive_answers.specs.Refusals.{Refusals};
ghost use Rattle.lf_inductive_answers.specs.Structures.{Structures};
ghost use Rattle.lf_inductive_answers.specs.Typed.{Typed};

/// Recursors that are known from elsewhere: their types as text, and their rules.
pub fn recursors_of_known_types()
    ensures { Recursors }
{}

/// What is added for declarations that are admitted, and what that costs; into which sorts they eliminate.
pub fn admissions_of_known_types()
    ensures { Admissions }
{}

/// Why declarations are refused, with the names of the binders round the place.
pub fn refusals_of_wrong_declarations()
    ensures { Refusals }
{}

/// What has to be done before a declaration is judged.
pub fn admission_waits()
    ensures { Needs }
{}

/// Weak head and normal forms by the rules of recursors, and where the constructor without fields takes the place of a proof.
pub fn reduction_by_the_rules()
    ensures { Reductions }
{}

/// The checker infers a sort for the types of recursors, and for their rules the types that the constructors ask for.
pub fn recursors_are_typed()
    ensures { Typed }
{}

/// What the checker would accept if two conditions of admission were left out.
pub fn conditions_are_needed()
    ensures { LeftOut }
{}

/// Projections and eta for structures: what is answered, and at what cost.
pub fn projections_of_known_structures()
    ensures { Structures }
{}
