//! Constants with a value: definitions and theorems.
ghost use Rattle.std.specs.Prelude.{◌≡◌, ◌≤◌, Some};
ghost use Rattle.lf_checker.specs.Checker as spec;
ghost use Rattle.lf_kernel.specs.Checked as own;
ghost use Rattle.lf_steps.specs.Runs.{Runs, Rose, Calm};

use crate::closed::{is_closed, is_value_closed};
use crate::fresh::unless_there;
use crate::height::height_of;
use lf_base::Stop;
use lf_check::{Cx, Mode, equal_within, infer_within};
use lf_checker::TypeFault;
use lf_core::{ConstInfo, Expr};
use lf_env::View;
use lf_steps::{Halt, refusal};
use std::alloc::Global;

// The height of a value that fits its type, and a refusal of one that doesn't.
fn fitting(
    alloc: Global,
    view: &View,
    units: &mut u64,
    fits: bool,
    has: Expr,
    ty: &Expr,
    value: &Expr,
) -> Result<u32, Halt>
    ensures value { Runs (own.fitting view.now fits has ty.now value.now units.old) result units.new }
    ensures calm { Calm result }
{
    if fits {
        drop(has);
        height_of(alloc, view, units, value)
    } else {
        let fault = TypeFault::Value(has, ty.copy(alloc)?);
        Err(Halt::Refused(refusal(alloc, fault)))
    }
}

#[tactic(auto, using(lf_steps::proofs::Runs::halts))]
fn value_height<P: Stop>(
    cx: Cx<'_>,
    units: &mut u64,
    stop: &mut P,
    ty: &Expr,
    value: &Expr,
) -> Result<u32, Halt>
    ensures value { Runs (spec.check_value cx.entry.view.now cx.entry.depth ty.now (Some value.now) units.old) result units.new }
    ensures count { P.stops stop.old ≤ P.stops stop.new }
    ensures rose { Rose result (P.stops stop.old) (P.stops stop.new) }
{
    let mut locals = Vec::new(cx.alloc);
    let has = infer_within(cx, &mut locals, units, stop, Mode::Checked, value)?;
    let fits = equal_within(cx, &mut locals, units, stop, &has, ty)?;
    fitting(cx.alloc, cx.view, units, fits, has, ty, value)
}

fn check_value<P: Stop>(
    cx: Cx<'_>,
    units: &mut u64,
    stop: &mut P,
    ty: &Expr,
    value: &Option<Expr>,
) -> Result<u32, Halt>
    ensures value { Runs (spec.check_value cx.entry.view.now cx.entry.depth ty.now value.now units.old) result units.new }
    ensures count { P.stops stop.old ≤ P.stops stop.new }
    ensures rose { Rose result (P.stops stop.old) (P.stops stop.new) }
{
    match value {
        Some(value) => value_height(cx, units, stop, ty, value),
        None => Ok(0),
    }
}

// Behind the test of what is closed.
#[tactic(auto, using(lf_steps::proofs::Runs::halts))]
fn new_decl<P: Stop>(
    cx: Cx<'_>,
    units: &mut u64,
    stop: &mut P,
    info: &ConstInfo,
) -> Result<u32, Halt>
    ensures value { Runs (own.behind_name cx.entry.view.now info.now.name (spec.check_value cx.entry.view.now cx.entry.depth info.now.ty info.now.value)
        units.old) result units.new }
    ensures count { P.stops stop.old ≤ P.stops stop.new }
    ensures rose { Rose result (P.stops stop.old) (P.stops stop.new) }
{
    unless_there(cx.alloc, cx.view, units, &info.name)?;
    check_value(cx, units, stop, &info.ty, &info.value)
}

/// The height of a constant whose name is new and whose value fits its type, within a run.
#[tactic(auto, using(crate::proofs::Places::there_runs))]
pub fn decl<P: Stop>(
    cx: Cx<'_>,
    units: &mut u64,
    stop: &mut P,
    info: &ConstInfo,
) -> Result<u32, Halt>
    ensures value { Runs (spec.add_decl cx.entry.view.now cx.entry.depth info.now units.old) result units.new }
    ensures count { P.stops stop.old ≤ P.stops stop.new }
    ensures rose { Rose result (P.stops stop.old) (P.stops stop.new) }
{
    if !(is_closed(&info.ty) && is_value_closed(&info.value)) {
        return Err(Halt::Refused(refusal(cx.alloc, TypeFault::NotClosed)));
    }
    new_decl(cx, units, stop, info)
}
