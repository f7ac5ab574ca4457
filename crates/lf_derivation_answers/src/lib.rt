//! A worked list of items that meets what the law on accepted lists asks.
#![tactic(auto)]

ghost use Rattle.lf_derivation_answers.specs.Worked.{WorkedList};

/// A list in which a header was judged before its helper, and a later item in a view that knows neither, meets all that is asked.
pub fn a_worked_list_is_reported()
    ensures { WorkedList }
{}
