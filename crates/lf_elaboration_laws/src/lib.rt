//! Laws on elaboration: each public function's contract is one of them.
#![tactic(auto)]

ghost use Rattle.lf_elaboration_laws.specs.Closed.{BinderDetermines, ClosingDetermines};
ghost use Rattle.lf_elaboration_laws.specs.Enough.{UnifierAgain};
ghost use Rattle.lf_elaboration_laws.specs.Extension.{
  BinderExtends,
  ClosingExtends,
  ProofsExtend,
  RealizingExtends,
  TermsExtend,
  UnifierExtends,
  WalkExtends,
};
ghost use Rattle.lf_elaboration_laws.specs.Keeping.{BinderKeeps, ClosingKeeps, ProofsKeep, TermsKeep};
ghost use Rattle.lf_elaboration_laws.specs.Needs.{
  BinderWaits,
  ClosingWaits,
  ProofsWait,
  RealizingWaits,
  TermsWait,
  UnifierWaits,
  WalkWants,
};
ghost use Rattle.lf_elaboration_laws.specs.Once.{ClosingRunsEach, ProofsAddNone, TermsAdd};
ghost use Rattle.lf_elaboration_laws.specs.Reached.{WalkMeetsReaching};
ghost use Rattle.lf_elaboration_laws.specs.Unifier.{UnifierIsCalm};

/// What the unifier answers on a view it answers on each view that extends it, units and changes included.
pub fn unifier_is_extended()
    ensures { UnifierExtends }
{}

/// What elaboration of a term answers on a view it answers on each view that extends it, where the resolution of
/// instances does: with the term, the type or the message, the units that are left, the changes, the holes that wait,
/// the names that are asked for and the nodes of blocks.
pub fn terms_are_extended()
    ensures { TermsExtend }
{}

/// The same of a proof by items.
pub fn proofs_are_extended()
    ensures { ProofsExtend }
{}

/// The same of the end of a part.
pub fn closing_is_extended()
    ensures { ClosingExtends }
{}

/// The same of a binder that closes.
pub fn binders_are_extended()
    ensures { BinderExtends }
{}

/// What is made of a realizable name on a view, or that none is made, holds on each view that extends it.
pub fn realizing_is_extended()
    ensures { RealizingExtends }
{}

/// The axioms that a constant is found to reach on a view are those on each view that extends it, in the same order,
/// where no two entries of a view have one name.
pub fn walk_is_extended()
    ensures { WalkExtends }
{}

/// Where the walk from a constant ends, it has listed the axioms that the constant reaches, in the order of the view.
pub fn walk_meets_reaching()
    ensures { WalkMeetsReaching }
{}

/// What the walk waits for is an open branch of the view, or a realizable name that has no answer there.
pub fn walk_waits_for_the_view()
    ensures { WalkWants }
{}

/// What the unifier waits for is an open branch of the view, or a realizable name that has no answer there.
pub fn unifier_waits_for_the_view()
    ensures { UnifierWaits }
{}

/// The same of what elaboration of a term waits for, where the resolution of instances waits for nothing else.
pub fn terms_wait_for_the_view()
    ensures { TermsWait }
{}

/// The same of a proof by items.
pub fn proofs_wait_for_the_view()
    ensures { ProofsWait }
{}

/// The same of the end of a part.
pub fn closing_waits_for_the_view()
    ensures { ClosingWaits }
{}

/// The same of a binder that closes.
pub fn binders_wait_for_the_view()
    ensures { BinderWaits }
{}

/// What the making of a realizable name waits for is an open branch of the view, or another such name without an answer.
pub fn realizing_waits_for_the_view()
    ensures { RealizingWaits }
{}

/// After false, and after a spent budget, the changes are as before, after true they begin with those before; the
/// unifier never answers with an error.
pub fn false_changes_nothing()
    ensures { UnifierIsCalm }
{}

/// Whatever elaboration of a term answers, the changes, the names that are asked for and the nodes of blocks begin with
/// those before: what was there is there still, so undoing to its number of changes gives the state before.
pub fn terms_keep_what_was()
    ensures { TermsKeep }
{}

/// The same of a proof by items.
pub fn proofs_keep_what_was()
    ensures { ProofsKeep }
{}

/// The same of the end of a part.
pub fn closing_keeps_what_was()
    ensures { ClosingKeeps }
{}

/// The same of a binder that closes.
pub fn binders_keep_what_was()
    ensures { BinderKeeps }
{}

/// Where a part has ended, each metavariable from the given number on stands for a term, and each of levels from the
/// given number on for a level.
pub fn closing_determines_all()
    ensures { ClosingDetermines }
{}

/// Where a binder has closed, each metavariable from the given number on stands for a term, and none of an outer
/// context for one that speaks of a variable outside of its context.
pub fn binders_determine_all()
    ensures { BinderDetermines }
{}

/// Whatever elaboration of a term answers, the holes that waited wait still, in their order, before those that it made,
/// whose metavariables are new.
pub fn terms_take_no_hole()
    ensures { TermsAdd }
{}

/// A proof by items leaves the holes that waited, and no other.
pub fn proofs_leave_no_hole()
    ensures { ProofsAddNone }
{}

/// A close runs each block that was made from the given number on once, with a node for each; none of them waits
/// behind it, and the others wait still.
pub fn closing_runs_each_block_once()
    ensures { ClosingRunsEach }
{}

/// What the unifier answers with some nesting and some units it answers with more, and the units that are left are as
/// many more; only where it gives up may it answer otherwise.
pub fn more_is_enough_to_unify()
    ensures { UnifierAgain }
{}
