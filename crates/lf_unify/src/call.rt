//! The call of the unifier, over a view, a context, a budget and a stop.
ghost use Rattle.std.specs.Prelude.{◌≡◌, ◌≤◌, []};
ghost use Rattle.lf_check.specs.Answers.{StopsOnly};
ghost use Rattle.lf_elaboration.specs.Unifier as spec;
ghost use Rattle.lf_unify.specs.Answers.{Answers, Keeps};

use crate::cx::UnifyCx;
use crate::unifier::unify as unify_within;
use lf_base::Stop;
use lf_check::{CheckCx, Cx};
use lf_checker::TypeFault;
use lf_core::{Ans, Expr};
use lf_meta::Metas;
use lf_steps::Halt;
use std::alloc::Global;

/// Whether two terms can be made equal. It is never refused.
/// Done with the definition's answer, units and changes; Out exactly where units, nesting or depth don't suffice; Need
/// exactly where the definition's first read that can't be answered yet stands; Stopped only where the count of stops
/// rose; or NoMemory. After all but Done no units are left, and after all but Done(true) the metavariables are as before.
pub fn unify<P: Stop>(
    alloc: Global,
    cx: &mut CheckCx<'_, P>,
    metas: &mut Metas,
    a: &Expr,
    b: &Expr,
) -> Ans<bool, TypeFault>
    ensures value { Answers (spec.unify cx.old.view.now cx.old.budget.depth cx.old.locals.items a.now b.now cx.old.budget.units metas.old) result
        cx.new.budget.units metas.new }
    ensures metas { Keeps result metas.old metas.new }
    ensures kept { cx.new.locals.items ≡ cx.old.locals.items }
    ensures opened { cx.new.opened.items ≡ [] }
    ensures nesting { cx.new.budget.depth ≡ cx.old.budget.depth }
    ensures count { P.stops cx.old.stop.now ≤ P.stops cx.new.stop.now }
    ensures stops { StopsOnly result (P.stops cx.old.stop.now) (P.stops cx.new.stop.now) }
{
    let inner = UnifyCx {
        check: Cx {
            alloc,
            view: cx.view,
            depth: cx.budget.depth,
        },
        floor: metas.mark(),
    };
    let mut left = cx.budget.units;
    let given = unify_within(inner, &mut cx.locals, &mut left, metas, cx.stop, a, b);
    cx.budget.units = 0;
    cx.opened = Vec::new(alloc);
    match given {
        Ok(same) => {
            cx.budget.units = left;
            Ans::Done(same)
        }
        // nothing is refused: where the checker would, it is out
        Err(Halt::Refused(refused)) => {
            drop(refused);
            Ans::Out
        }
        Err(Halt::Out) => Ans::Out,
        Err(Halt::Need(key)) => Ans::Need(key),
        Err(Halt::Stopped) => Ans::Stopped,
        Err(Halt::NoMemory) => Ans::NoMemory,
    }
}
