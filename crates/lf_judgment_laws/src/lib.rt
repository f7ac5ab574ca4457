//! Laws on equality, typing and derived environments: each public function's contract is one of them.
#![tactic(auto)]

ghost use Rattle.lf_judgment_laws.specs.Growth.{RelationsGrow};
ghost use Rattle.lf_judgment_laws.specs.InScope.{RelationsKeepScope};
ghost use Rattle.lf_judgment_laws.specs.Loose.{CapturingCollapses, PartialCollapses, UnfreshCollapses};
ghost use Rattle.lf_judgment_laws.specs.Names.{OddNumbers, TwiceNamed};
ghost use Rattle.lf_judgment_laws.specs.Numbers.{PureNumbers};
ghost use Rattle.lf_judgment_laws.specs.Propositions.{PropositionsCollapse, StructuresAreNoPropositions};
ghost use Rattle.lf_judgment_laws.specs.Pure.{TypingIsPure};
ghost use Rattle.lf_judgment_laws.specs.Untyped.{UntypedCollapses};

/// Typed terms and their types are in scope, and equality keeps scope.
pub fn relations_keep_scope()
    ensures { RelationsKeepScope }
{}

/// What holds over an environment holds over each that tells at least as much.
pub fn relations_grow_with_the_environment()
    ensures { RelationsGrow }
{}

/// Carneiro's rules, with rules for literals, projections and eta for structures beside his, in which both sides of each equation have a
/// type, imply these; and these imply them where they have the properties that are known of his.
pub fn typing_is_the_pure_one()
    ensures { TypingIsPure }
{}

/// Why bodies are opened by a new variable.
pub fn bodies_opened_by_old_variables_make_all_equal()
    ensures { UnfreshCollapses }
{}

/// Why substitution lifts what it puts in.
pub fn captured_variables_make_all_literals_equal()
    ensures { CapturingCollapses }
{}

/// Why the codomain of a lambda's type is asked to be in scope.
pub fn partial_abstraction_inhabits_every_type()
    ensures { PartialCollapses }
{}

/// Why steps are asked to start from formed terms.
pub fn steps_of_unformed_terms_make_all_equal()
    ensures { UntypedCollapses }
{}

/// Why names are fresh: with two constants of one name, each right over those before it, falsity has a proof.
pub fn names_must_be_fresh()
    ensures { TwiceNamed }
{}

/// Why the base is part of what is believed: where the constants that literals name are others, falsity has a proof.
pub fn numbers_must_be_ordinary()
    ensures { OddNumbers }
{}

/// Why structures are never propositions.
pub fn projections_of_propositions_make_all_numbers_equal()
    ensures { PropositionsCollapse }
{}

/// Structures are never propositions.
pub fn structures_are_never_propositions()
    ensures { StructuresAreNoPropositions }
{}

/// The environments of which `typing_is_the_pure_one` says anything beyond that are those with `Nat`; one is worked.
pub fn pure_typing_speaks_of_numbers()
    ensures { PureNumbers }
{}
