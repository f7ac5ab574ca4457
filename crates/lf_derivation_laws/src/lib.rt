//! Lists of constants that were accepted one by one, each over a view of its own: the function's contract is the law.
#![tactic(auto)]

ghost use Rattle.lf_derivation_laws.specs.Lists.{MadeIsNew, OwnNames, ReadingGrows, ReportedIsDerived, ShownIsRead, StandingNames};

/// A list is derived whose items were each accepted over a view of its own: a header in an earlier view than its value, and items in
/// views that don't know all that stands before them.
pub fn accepted_lists_are_derived()
    ensures { ReportedIsDerived }
{}

/// What is asked of a term's names, where they all stand before it.
pub fn standing_names_are_asked()
    ensures { StandingNames }
{}

/// A view finds constants under their own names.
pub fn views_find_by_name()
    ensures { OwnNames }
{}

/// What is asked of a view over a list, from what it finds of each item.
pub fn reading_grows_item_by_item()
    ensures { ReadingGrows }
{}

/// What is asked of a view over a list, where the view shows what a document makes.
pub fn views_read_what_they_show()
    ensures { ShownIsRead }
{}

/// What is made, and isn't in a list yet, has names that are new there.
pub fn what_is_made_is_new()
    ensures { MadeIsNew }
{}
