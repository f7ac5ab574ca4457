//! Laws on the resolution of instances: each public function's contract is one of them.
#![tactic(auto)]

ghost use Rattle.lf_resolution_laws.specs.Extension.{ResolutionExtends};
ghost use Rattle.lf_resolution_laws.specs.Least.{WalkFindsLeast};
ghost use Rattle.lf_resolution_laws.specs.Needs.{ResolutionWaits};

/// What resolution answers on a view it answers on each view that extends it, units included.
pub fn resolution_is_extended()
    ensures { ResolutionExtends }
{}

/// What resolution waits for is an open branch of the view, or a realizable name that has no answer there.
pub fn resolution_waits_for_the_view()
    ensures { ResolutionWaits }
{}

/// Where the walk ends with a term it is that of the least tree, and where it ends with none there is none.
pub fn walk_finds_least()
    ensures { WalkFindsLeast }
{}
