//! The steps as calls of their own, over the checker's view, context, budget and stop.
ghost use Rattle.std.specs.Prelude.{◌≡◌, ◌≤◌};
ghost use Rattle.lf_checker.specs.Checker.{calls};
ghost use Rattle.lf_check.specs.Answers.{Answers, StopsOnly};
ghost use Rattle.lf_elaboration.specs.Injection as injection;
ghost use Rattle.lf_elaboration.specs.Step as spec;

use crate::goal::assumption as assumption_within;
use crate::injection::inject as inject_within;
use crate::step::Step;
use lf_base::Stop;
use lf_check::{CheckCx, Cx, ended};
use lf_checker::TypeFault;
use lf_core::{Ans, Expr};
use std::alloc::Global;

/// The number of the latest local whose type is equal to the goal, or None.
/// Done with the value, or Refused, with the units that the definition leaves; Out exactly where units, nesting or depth
/// don't suffice; Need exactly where the definition's first read that can't be answered yet stands; Stopped only where
/// the count of stops rose; or NoMemory. After all but Done and Refused no units are left.
#[tactic(auto, using(lf_check::proofs::Ends::ends_answers))]
pub fn assumption<P: Stop>(
    alloc: Global,
    cx: &mut CheckCx<'_, P>,
    goal: &Expr,
) -> Ans<Option<u32>, TypeFault>
    ensures value { Answers (spec.assumption (calls cx.old.view.now cx.old.budget.depth) cx.old.locals.items goal.now cx.old.budget.units) result
        cx.new.budget.units cx.new.opened.items }
    ensures kept { cx.new.locals.items ≡ cx.old.locals.items }
    ensures nesting { cx.new.budget.depth ≡ cx.old.budget.depth }
    ensures count { P.stops cx.old.stop.now ≤ P.stops cx.new.stop.now }
    ensures stops { StopsOnly result (P.stops cx.old.stop.now) (P.stops cx.new.stop.now) }
{
    let inner = Cx {
        alloc,
        view: cx.view,
        depth: cx.budget.depth,
    };
    let mut left = cx.budget.units;
    let given = assumption_within(inner, &mut cx.locals, &mut left, cx.stop, goal);
    cx.budget.units = 0;
    cx.opened = Vec::new(alloc);
    match given {
        Ok(local) => {
            cx.budget.units = left;
            Ans::Done(local)
        }
        Err(halt) => ended(&mut cx.opened, &mut cx.budget.units, halt, left),
    }
}

/// Injection on the local of number `local`, of the type `ty`, on this goal, as `inject` says.
/// Done with the value, or Refused, with the units that the definition leaves; Out exactly where units, nesting or depth
/// don't suffice; Need exactly where the definition's first read that can't be answered yet stands; Stopped only where
/// the count of stops rose; or NoMemory. After all but Done and Refused no units are left.
#[tactic(auto, using(lf_check::proofs::Ends::ends_answers))]
pub fn inject<P: Stop>(
    alloc: Global,
    cx: &mut CheckCx<'_, P>,
    goal: &Expr,
    local: u32,
    ty: &Expr,
) -> Ans<Option<Step>, TypeFault>
    ensures value { Answers (injection.inject cx.old.view.now (calls cx.old.view.now cx.old.budget.depth) cx.old.locals.items goal.now local ty.now
        cx.old.budget.units) result cx.new.budget.units cx.new.opened.items }
    ensures kept { cx.new.locals.items ≡ cx.old.locals.items }
    ensures nesting { cx.new.budget.depth ≡ cx.old.budget.depth }
    ensures count { P.stops cx.old.stop.now ≤ P.stops cx.new.stop.now }
    ensures stops { StopsOnly result (P.stops cx.old.stop.now) (P.stops cx.new.stop.now) }
{
    let inner = Cx {
        alloc,
        view: cx.view,
        depth: cx.budget.depth,
    };
    let mut left = cx.budget.units;
    let given = inject_within(inner, &mut cx.locals, &mut left, cx.stop, goal, local, ty);
    cx.budget.units = 0;
    cx.opened = Vec::new(alloc);
    match given {
        Ok(step) => {
            cx.budget.units = left;
            Ans::Done(step)
        }
        Err(halt) => ended(&mut cx.opened, &mut cx.budget.units, halt, left),
    }
}
