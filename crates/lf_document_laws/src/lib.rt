//! Laws on documents: each public function's contract is one of them.
#![tactic(auto)]

ghost use Rattle.lf_document_laws.specs.Extension.{
  AxiomsReachedExtend,
  BodiesExtend,
  CommandsExtend,
  HeadsExtend,
  RealValuesExtend,
  ValuesExtend,
};
ghost use Rattle.lf_document_laws.specs.Needs.{NeedsHaveLowerRank, TasksLast, ValuesWait};

use lf_resolution_laws::resolution_waits_for_the_view;

/// What a head gives over a view it gives over each view that tells more, by the forms of commands.
pub fn heads_are_extended()
    ensures { HeadsExtend }
{}

/// The same of `#print axioms`, where no two entries have one name.
pub fn axioms_reached_are_extended()
    ensures { AxiomsReachedExtend }
{}

/// A task that is kept has the same value, with the names that stand in what it makes.
pub fn values_are_extended()
    ensures { ValuesExtend }
{}

/// What is realized over a view is realized over each view that tells more.
pub fn real_values_are_extended()
    ensures { RealValuesExtend }
{}

/// What a body gives for a header over a view it gives over each view that tells more, helpers and messages included,
/// where the command's position isn't an earlier one for the view.
pub fn bodies_are_extended()
    ensures { BodiesExtend }
{}

/// The value of each command's head, and that of its body for a header, are the same over a view that tells more.
pub fn commands_are_extended()
    ensures { CommandsExtend }
{}

/// What a head or a body waits for is what the command's view needs, whatever helpers and constants the command adds to
/// it; and where it ends what was told before it is told still.
pub fn tasks_wait_for_the_view()
    ensures { TasksLast }
{
    resolution_waits_for_the_view();
}

/// The same of the values of heads, bodies and realized constants, with the names that stand in what is made.
pub fn values_wait_for_the_view()
    ensures { ValuesWait }
{
    resolution_waits_for_the_view();
}

/// The task that a head, a body or a realized constant waits for has a lower rank, over the view at its position, where
/// no branch is open of the base.
pub fn needs_have_lower_rank()
    ensures { NeedsHaveLowerRank }
{
    resolution_waits_for_the_view();
}
