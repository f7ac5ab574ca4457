//! What steps of reduction and structures ask for: the function's contract is the law.
#![tactic(auto)]

ghost use Rattle.lf_step_laws.specs.Whole.{StepsAreWhole};

/// A constant alone steps only as a definition at as many levels as it has; at arguments, but for operations on literals, only as a
/// recursor with all its arguments at a constructor with all of its own; and a type with a field of itself is no structure.
pub fn steps_are_whole()
    ensures { StepsAreWhole }
{}
