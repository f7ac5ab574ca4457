//! Names that are new.
ghost use Rattle.std.specs.Prelude.{◌≡◌};
ghost use Rattle.lf_checker.specs.Checker as spec;
ghost use Rattle.lf_checker.specs.Run.{gives};
ghost use Rattle.lf_checker.specs.View.{there_of};
ghost use Rattle.lf_steps.specs.Runs.{Runs, Calm};

use lf_checker::TypeFault;
use lf_core::{Name, TaskKey};
use lf_env::{Lookup, View};
use lf_steps::{Halt, need, refusal};
use std::alloc::Global;

/// Goes on where no entry has this name. Refused with the entry's position where one has; where an open branch may still
/// give one, its body is needed first.
#[tactic(auto, using(crate::proofs::Places::placed_there, crate::proofs::Places::unplaced_there))]
pub fn unless_there(alloc: Global, view: &View, units: &mut u64, name: &Name) -> Result<(), Halt>
    ensures value { Runs (spec.unless_there name.now (there_of view.now name.now) (gives (tt {0})) units.old) result units.new }
    ensures calm { Calm result }
{
    if let Some((position, _)) = view.placed(name) {
        let name = name.copy(alloc)?;
        let fault = TypeFault::Duplicate { name, position };
        return Err(Halt::Refused(refusal(alloc, fault)));
    }
    match view.lookup(name) {
        Lookup::NeedBody(position) => Err(need(units, TaskKey::Body(position))),
        Lookup::Found(_) => Ok(()),
        Lookup::Absent => Ok(()),
        Lookup::NeedReal => Ok(()),
    }
}
