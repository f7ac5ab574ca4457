//! Headers: a name and a type.
ghost use Rattle.std.specs.Prelude.{◌≡◌, ◌≤◌, []};
ghost use Rattle.lf_checker.specs.Calls.{checked};
ghost use Rattle.lf_checker.specs.Checker as spec;
ghost use Rattle.lf_checker.specs.Checker.{calls};
ghost use Rattle.lf_checker.specs.Infer.{sort_of};
ghost use Rattle.lf_kernel.specs.Checked as own;
ghost use Rattle.lf_steps.specs.Runs.{Runs, Rose};

use crate::closed::is_closed;
use crate::fresh::unless_there;
use lf_base::Stop;
use lf_check::{Cx, Mode, sort_of};
use lf_checker::TypeFault;
use lf_core::{Expr, Level, Name};
use lf_steps::{Halt, refusal};

// Behind the test of what is closed.
#[tactic(auto, using(lf_steps::proofs::Runs::halts))]
fn new_header<P: Stop>(
    cx: Cx<'_>,
    units: &mut u64,
    stop: &mut P,
    name: &Name,
    ty: &Expr,
) -> Result<Level, Halt>
    ensures value { Runs (own.behind_name cx.entry.view.now name.now (sort_of (calls cx.entry.view.now cx.entry.depth) checked [] ty.now) units.old) result
        units.new }
    ensures count { P.stops stop.old ≤ P.stops stop.new }
    ensures rose { Rose result (P.stops stop.old) (P.stops stop.new) }
{
    unless_there(cx.alloc, cx.view, units, name)?;
    let mut locals = Vec::new(cx.alloc);
    sort_of(cx, &mut locals, units, stop, Mode::Checked, ty)
}

/// The level of the sort of a stated type, whose name is new, within a run.
#[tactic(auto, using(crate::proofs::Places::there_runs))]
pub fn header<P: Stop>(
    cx: Cx<'_>,
    units: &mut u64,
    stop: &mut P,
    name: &Name,
    ty: &Expr,
) -> Result<Level, Halt>
    ensures value { Runs (spec.add_header cx.entry.view.now cx.entry.depth name.now ty.now units.old) result units.new }
    ensures count { P.stops stop.old ≤ P.stops stop.new }
    ensures rose { Rose result (P.stops stop.old) (P.stops stop.new) }
{
    if !is_closed(ty) {
        return Err(Halt::Refused(refusal(cx.alloc, TypeFault::NotClosed)));
    }
    new_header(cx, units, stop, name, ty)
}
