//! Laws on definitions by equations: each public function's contract is one of them.
#![tactic(auto)]

ghost use Rattle.lf_equations_laws.specs.Extension.{CompilingExtends};
ghost use Rattle.lf_equations_laws.specs.Shape.{CompilingGivesRecursion};

/// What compiling answers on a view it answers on each view that extends it: the term or the fault, and the units left.
pub fn compiling_is_extended()
    ensures { CompilingExtends }
{}

/// A term that compiling gives is lambdas over the definition's binders and its argument, over the recursor at that
/// argument, with one minor premise for each constructor.
pub fn compiling_gives_a_recursion()
    ensures { CompilingGivesRecursion }
{}
