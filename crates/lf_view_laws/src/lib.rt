//! A view extends each with fewer branches joined and fewer answers kept: the function's contract is the law.
#![tactic(auto)]

ghost use Rattle.lf_view_laws.specs.Fuller.{FullerViews};
ghost use Rattle.lf_view_laws.specs.Worked.{WorkedViews};

/// The fuller of two views extends the other, also as both are at each position; and what calls make of both, a join or an answer in the
/// fuller one alone, and one that the other makes later, leaves it the fuller.
pub fn fuller_views_extend()
    ensures { FullerViews }
{}

/// A worked view with a branch open, and one in which it is joined and a name is answered: what they find, and that the second is fuller.
pub fn worked_views_are_fuller()
    ensures { WorkedViews }
{}
