//! Induction as a call of its own, over the checker's view, context, budget and stop.
ghost use Rattle.std.specs.Prelude.{◌≡◌, ◌≤◌};
ghost use Rattle.lf_checker.specs.Checker.{calls};
ghost use Rattle.lf_check.specs.Answers.{Answers, StopsOnly};
ghost use Rattle.lf_elaboration.specs.Induction as spec;

use crate::induction::induct as induct_within;
use lf_base::Stop;
use lf_check::{CheckCx, Cx, ended};
use lf_checker::TypeFault;
use lf_core::{Ans, Expr, Level};
use lf_items::Step;
use std::alloc::Global;

/// Induction on the local of number `local`, of the type `ty`, on a goal whose sort has the level `sort`, as `induct` says.
/// Done with the value, or Refused, with the units that the definition leaves; Out exactly where units, nesting or depth
/// don't suffice; Need exactly where the definition's first read that can't be answered yet stands; Stopped only where
/// the count of stops rose; or NoMemory. After all but Done and Refused no units are left.
#[tactic(auto, using(lf_check::proofs::Ends::ends_answers))]
pub fn induct<P: Stop>(
    alloc: Global,
    cx: &mut CheckCx<'_, P>,
    goal: &Expr,
    sort: &Level,
    local: u32,
    ty: &Expr,
    hyps: bool,
) -> Ans<Option<Step>, TypeFault>
    ensures value { Answers (spec.induct cx.old.view.now (calls cx.old.view.now cx.old.budget.depth) cx.old.locals.items goal.now sort.now local ty.now hyps
        cx.old.budget.units) result cx.new.budget.units cx.new.opened.items }
    ensures kept { cx.new.locals.items ≡ cx.old.locals.items }
    ensures nesting { cx.new.budget.depth ≡ cx.old.budget.depth }
    ensures count { P.stops cx.old.stop.now ≤ P.stops cx.new.stop.now }
    ensures stops { StopsOnly result (P.stops cx.old.stop.now) (P.stops cx.new.stop.now) }
{
    let inner = Cx {
        alloc,
        view: cx.view,
        depth: cx.budget.depth,
    };
    let mut left = cx.budget.units;
    let locals = &mut cx.locals;
    let given = induct_within(
        inner, locals, &mut left, cx.stop, goal, sort, local, ty, hyps,
    );
    cx.budget.units = 0;
    cx.opened = Vec::new(alloc);
    match given {
        Ok(step) => {
            cx.budget.units = left;
            Ans::Done(step)
        }
        Err(halt) => ended(&mut cx.opened, &mut cx.budget.units, halt, left),
    }
}
