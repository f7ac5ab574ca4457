//! Laws on what is put in for metavariables: each function's contract is one of them.
#![tactic(auto)]

ghost use Rattle.lf_put_laws.specs.Scope.{AssignmentKeepsAll, AssignmentKeepsScope, StaysSettled, TestIsScope};

/// After an assignment that isn't refused, a term that had, put in, only variables of a context has only those still, in each context that
/// has all locals of the metavariable.
pub fn assignment_keeps_scope()
    ensures { AssignmentKeepsScope }
{}

/// So do all that metavariables stand for and all their types.
pub fn assignment_keeps_all_in_scope()
    ensures { AssignmentKeepsAll }
{}

/// Where the test at the close of a binder finds nothing, what an outer metavariable stands for has, put in, only the variables of the
/// metavariable's own context.
pub fn test_at_close_is_scope()
    ensures { TestIsScope }
{}

/// Nothing is left to put in at the start, and a metavariable that is made leaves it so.
pub fn made_ones_leave_it_settled()
    ensures { StaysSettled }
{}
