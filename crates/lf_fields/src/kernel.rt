//! The kernel's tests within a run. They aren't asked to stop meanwhile: the units bound them.
ghost use Rattle.std.specs.Prelude.{◌≡◌, None, IfOk};
ghost use Rattle.lf_checker.specs.Checker as spec;
ghost use Rattle.lf_checker.specs.View.{placed_of};
ghost use Rattle.lf_steps.specs.Runs.{Runs, Calm};
ghost use Rattle.lf_fields.specs.Returned.{Returned};

use lf_base::{Budget, NeverStop};
use lf_check::{CheckCx, Cx};
use lf_checker::TypeFault;
use lf_core::{Ans, ConstInfo, Expr, Level, Name};
use lf_kernel::{add_decl, add_header};
use lf_steps::{Halt, Refused};

// The answer of a call, with the names of the binders that were opened round a refusal.
fn returned<T>(answer: Ans<T, TypeFault>, opened: Vec<Name>) -> Result<T, Halt>
    ensures { Returned answer opened.items result }
{
    match answer {
        Ans::Done(value) => {
            drop(opened);
            Ok(value)
        }
        Ans::Refused(fault) => Err(Halt::Refused(Refused { fault, opened })),
        Ans::Out => {
            drop(opened);
            Err(Halt::Out)
        }
        Ans::Need(key) => {
            drop(opened);
            Err(Halt::Need(key))
        }
        Ans::Stopped => {
            drop(opened);
            Err(Halt::Stopped)
        }
        Ans::NoMemory => {
            drop(opened);
            Err(Halt::NoMemory)
        }
    }
}

// What a call of the kernel is over.
fn over<'a>(cx: Cx<'a>, units: u64, never: &'a mut NeverStop) -> CheckCx<'a, NeverStop>
    ensures view { result.view.now ≡ cx.entry.view.now }
    ensures units { result.budget.units ≡ units }
    ensures depth { result.budget.depth ≡ cx.entry.depth }
{
    CheckCx {
        view: cx.view,
        locals: Vec::new(cx.alloc),
        opened: Vec::new(cx.alloc),
        budget: Budget {
            units,
            depth: cx.depth,
        },
        stop: never,
    }
}

// What is left of a call of the kernel.
fn ended<T>(
    cx: CheckCx<'_, NeverStop>,
    units: &mut u64,
    answer: Ans<T, TypeFault>,
) -> Result<T, Halt>
    ensures returned { Returned answer cx.entry.opened.items result }
    ensures units { units.new ≡ cx.entry.budget.units }
{
    let CheckCx {
        locals,
        opened,
        budget,
        ..
    } = cx;
    drop(locals);
    *units = budget.units;
    returned(answer, opened)
}

// The level of the sort of a stated type, the name of which is new.
#[tactic(auto, using(crate::proofs::Returns::runs, crate::proofs::Returns::calm))]
fn tested(cx: Cx<'_>, units: &mut u64, name: &Name, ty: &Expr) -> Result<Level, Halt>
    ensures value { Runs (spec.add_header cx.entry.view.now cx.entry.depth name.now ty.now units.old) result units.new }
    ensures calm { Calm result }
{
    let mut never = NeverStop;
    let mut inner = over(cx, *units, &mut never);
    let answer = add_header(cx.alloc, &mut inner, name, ty);
    ended(inner, units, answer)
}

/// The level of the sort of a stated type, as the kernel's `add_header` answers; no entry has this name then.
#[tactic(auto, using(crate::proofs::Fresh::header_new))]
pub fn header(cx: Cx<'_>, units: &mut u64, name: &Name, ty: &Expr) -> Result<Level, Halt>
    ensures value { Runs (spec.add_header cx.entry.view.now cx.entry.depth name.now ty.now units.old) result units.new }
    ensures new { IfOk result (λ _. placed_of cx.entry.view.now name.now ≡ None) }
    ensures calm { Calm result }
{
    let level = tested(cx, units, name, ty)?;
    Ok(level)
}

/// The height of a constant, as the kernel's `add_decl` answers.
#[tactic(auto, using(crate::proofs::Returns::runs, crate::proofs::Returns::calm))]
pub fn decl(cx: Cx<'_>, units: &mut u64, info: &ConstInfo) -> Result<u32, Halt>
    ensures value { Runs (spec.add_decl cx.entry.view.now cx.entry.depth info.now units.old) result units.new }
    ensures calm { Calm result }
{
    let mut never = NeverStop;
    let mut inner = over(cx, *units, &mut never);
    let answer = add_decl(cx.alloc, &mut inner, info);
    ended(inner, units, answer)
}
