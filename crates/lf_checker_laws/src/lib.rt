//! Soundness of the plain checker: each public function's contract is a law.
#![tactic(auto)]

ghost use Rattle.lf_checker_laws.specs.Declarations.{AcceptedIsDerived, AcceptedIsFound, DerivedIsClosedList, DerivedSoundness};
ghost use Rattle.lf_checker_laws.specs.Levels.{LevelTestIsExact};
ghost use Rattle.lf_checker_laws.specs.Limits.{LimitsAreKept};
ghost use Rattle.lf_checker_laws.specs.Soundness.{LevelsAreKept, Soundness};

/// The checker's test of levels passes exactly what is the same under every assignment, within its limits.
pub fn level_test_is_exact()
    ensures { LevelTestIsExact }
{}

/// What the checker answers has a derivation: a type of `infer` is a type, terms that are `equal` are equal, and weak head and
/// normal forms are equal to the term. They name no constant of the view outside the list.
pub fn checker_is_sound()
    ensures { Soundness }
{}

/// What the checker gives of a term at levels below n is at levels below n: types, their levels, weak head and normal forms.
pub fn levels_stay_below()
    ensures { LevelsAreKept }
{}

/// A derived list of constants that the view knows is one over which the checker is sound.
pub fn derived_lists_are_closed_lists()
    ensures { DerivedIsClosedList }
{}

/// Over a derived list that the view knows, inductive declarations among it, what the checker answers has a derivation.
pub fn checker_is_sound_over_derived_lists()
    ensures { DerivedSoundness }
{}

/// What `add_header` and `add_decl` accept over a derived list keeps it derived, under a name that is new.
pub fn accepted_is_derived()
    ensures { AcceptedIsDerived }
{}

/// What `infer` accepts names only constants that the view finds; so its names are declared in a list that has what the view finds of them.
pub fn accepted_terms_are_known()
    ensures { AcceptedIsFound }
{}

/// A term of more than 1,024 nodes in depth is never put together, and no variable has a number above 4,294,967,294.
pub fn limits_are_kept()
    ensures { LimitsAreKept }
{}
