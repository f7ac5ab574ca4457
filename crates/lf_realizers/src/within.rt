//! Calls of the kernel within a run.
ghost use Rattle.std.specs.Prelude.{◌≡◌, ◌≤◌};
ghost use Rattle.lf_checker.specs.Checker as spec;
ghost use Rattle.lf_steps.specs.Runs.{Runs, Rose};
ghost use Rattle.lf_realizers.specs.Values.{Returned};

use lf_base::Stop;
use lf_check::CheckCx;
use lf_checker::TypeFault;
use lf_core::{Ans, ConstInfo, Expr, Level, Name};
use lf_kernel::{add_decl, add_header};
use lf_steps::{Halt, Refused};
use std::alloc::Global;
use std::mem::replace;

// The answer of a call, with the names of the binders that were opened round a refusal.
fn returned<T>(answer: Ans<T, TypeFault>, opened: Vec<Name>) -> Result<T, Halt>
    ensures { Returned answer opened.items result }
{
    match answer {
        Ans::Done(value) => {
            drop(opened);
            Ok(value)
        }
        Ans::Refused(fault) => Err(Halt::Refused(Refused { fault, opened })),
        Ans::Out => {
            drop(opened);
            Err(Halt::Out)
        }
        Ans::Need(key) => {
            drop(opened);
            Err(Halt::Need(key))
        }
        Ans::Stopped => {
            drop(opened);
            Err(Halt::Stopped)
        }
        Ans::NoMemory => {
            drop(opened);
            Err(Halt::NoMemory)
        }
    }
}

/// The level of the sort of a stated type whose name is new, as the kernel's `add_header` answers.
#[tactic(auto, using(crate::proofs::Returns::runs, crate::proofs::Returns::rose))]
pub fn header<P: Stop>(
    alloc: Global,
    cx: &mut CheckCx<'_, P>,
    name: &Name,
    ty: &Expr,
) -> Result<Level, Halt>
    ensures value { Runs (spec.add_header cx.old.view.now cx.old.budget.depth name.now ty.now cx.old.budget.units) result cx.new.budget.units }
    ensures view { cx.new.view.now ≡ cx.old.view.now }
    ensures kept { cx.new.locals.items ≡ cx.old.locals.items }
    ensures nesting { cx.new.budget.depth ≡ cx.old.budget.depth }
    ensures count { P.stops cx.old.stop.now ≤ P.stops cx.new.stop.now }
    ensures rose { Rose result (P.stops cx.old.stop.now) (P.stops cx.new.stop.now) }
{
    let view = cx.view;
    let answer = add_header(alloc, cx, name, ty);
    cx.view = view;
    let opened = replace(&mut cx.opened, Vec::new(alloc));
    returned(answer, opened)
}

/// The height of a constant whose name is new and whose value fits its type, as the kernel's `add_decl` answers.
#[tactic(auto, using(crate::proofs::Returns::runs, crate::proofs::Returns::rose))]
pub fn decl<P: Stop>(alloc: Global, cx: &mut CheckCx<'_, P>, info: &ConstInfo) -> Result<u32, Halt>
    ensures value { Runs (spec.add_decl cx.old.view.now cx.old.budget.depth info.now cx.old.budget.units) result cx.new.budget.units }
    ensures view { cx.new.view.now ≡ cx.old.view.now }
    ensures kept { cx.new.locals.items ≡ cx.old.locals.items }
    ensures nesting { cx.new.budget.depth ≡ cx.old.budget.depth }
    ensures count { P.stops cx.old.stop.now ≤ P.stops cx.new.stop.now }
    ensures rose { Rose result (P.stops cx.old.stop.now) (P.stops cx.new.stop.now) }
{
    let view = cx.view;
    let answer = add_decl(alloc, cx, info);
    cx.view = view;
    let opened = replace(&mut cx.opened, Vec::new(alloc));
    returned(answer, opened)
}
