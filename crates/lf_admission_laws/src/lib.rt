//! Soundness of the test of inductive declarations: each public function's contract is a law.
#![tactic(auto)]

ghost use Rattle.lf_admission_laws.specs.Admission.{AdmissionIsSound};
ghost use Rattle.lf_admission_laws.specs.Elimination.{EliminatesAsAsked};
ghost use Rattle.lf_admission_laws.specs.Forms.{FormTestsAreExact};
ghost use Rattle.lf_admission_laws.specs.Refusals.{RulesKeepOut};
ghost use Rattle.lf_admission_laws.specs.Shallow.{RecursorsAreShallow};

/// A declaration that is accepted eliminates into every sort where it is never a proposition or has no constructor.
pub fn types_eliminate_into_every_sort()
    ensures { EliminatesAsAsked }
{}

/// The tests of form pass just what the rules of admission ask for.
pub fn tests_of_form_are_exact()
    ensures { FormTestsAreExact }
{}

/// The rules of admission keep these worked declarations out, in whatever environment.
pub fn rules_keep_out_wrong_declarations()
    ensures { RulesKeepOut }
{}

/// What `add_inductive` accepts over a derived list, of a declaration that names only the list and its own type, is admitted and keeps the
/// list derived.
pub fn accepted_is_admitted()
    ensures { AdmissionIsSound }
{}

/// The type and the rules of each recursor that is added are at most 1,024 deep.
pub fn recursors_are_shallow()
    ensures { RecursorsAreShallow }
{}
