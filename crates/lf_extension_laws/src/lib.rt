//! Laws on how the plain checker reads a view, and on its answers: each public function's contract is one of them.
#![tactic(auto)]

ghost use Rattle.lf_extension_laws.specs.Calm.{OnlyInferenceRefuses};
ghost use Rattle.lf_extension_laws.specs.Enough.{MoreIsEnough};
ghost use Rattle.lf_extension_laws.specs.Extension.{ExtensionLaw};
ghost use Rattle.lf_extension_laws.specs.Needs.{CheckerWaits};

/// What the checker answers on a view it answers on each view that extends it, units included.
pub fn checker_is_extended()
    ensures { ExtensionLaw }
{}

/// `whnf`, `equal` and `normalize` never answer with a refusal.
pub fn only_inference_refuses()
    ensures { OnlyInferenceRefuses }
{}

/// What the checker and the calls for headers and values wait for is an open branch of the view, or a realizable name
/// that has no answer there.
pub fn checker_waits_for_the_view()
    ensures { CheckerWaits }
{}

/// What the checker answers with some nesting and some units it answers with more, and the units that are left are as
/// many more; only where it gives up may it answer otherwise.
pub fn more_is_enough()
    ensures { MoreIsEnough }
{}
