//! The kernel's calls within a run. They aren't asked to stop meanwhile: the units bound them.
ghost use Rattle.std.specs.Prelude.{◌≡◌};
ghost use Rattle.lf_checker.specs.Admission as admission;
ghost use Rattle.lf_checker.specs.Checker as checker;
ghost use Rattle.lf_heads.specs.Returned.{Returned};
ghost use Rattle.lf_steps.specs.Runs.{Runs, RunsAs, Calm};

use lf_base::{Budget, NeverStop};
use lf_check::{CheckCx, Cx};
use lf_checker::TypeFault;
use lf_core::{Ans, ConstInfo, Expr, IndDecl, Level, Name};
use lf_kernel::{add_decl, add_header, add_inductive};
use lf_steps::{Halt, Refused};

// The answer of a call, with the names of the binders that were opened round a refusal.
fn returned<T>(answer: Ans<T, TypeFault>, opened: Vec<Name>) -> Result<T, Halt>
    ensures { Returned answer opened.items result }
{
    match answer {
        Ans::Done(value) => {
            drop(opened);
            Ok(value)
        }
        Ans::Refused(fault) => Err(Halt::Refused(Refused { fault, opened })),
        Ans::Out => {
            drop(opened);
            Err(Halt::Out)
        }
        Ans::Need(key) => {
            drop(opened);
            Err(Halt::Need(key))
        }
        Ans::Stopped => {
            drop(opened);
            Err(Halt::Stopped)
        }
        Ans::NoMemory => {
            drop(opened);
            Err(Halt::NoMemory)
        }
    }
}

// What a call of the kernel is over.
fn over<'a>(cx: Cx<'a>, units: u64, never: &'a mut NeverStop) -> CheckCx<'a, NeverStop>
    ensures view { result.view.now ≡ cx.entry.view.now }
    ensures units { result.budget.units ≡ units }
    ensures depth { result.budget.depth ≡ cx.entry.depth }
{
    CheckCx {
        view: cx.view,
        locals: Vec::new(cx.alloc),
        opened: Vec::new(cx.alloc),
        budget: Budget {
            units,
            depth: cx.depth,
        },
        stop: never,
    }
}

// What is left of a call of the kernel.
fn ended<T>(
    cx: CheckCx<'_, NeverStop>,
    units: &mut u64,
    answer: Ans<T, TypeFault>,
) -> Result<T, Halt>
    ensures returned { Returned answer cx.entry.opened.items result }
    ensures units { units.new ≡ cx.entry.budget.units }
{
    let CheckCx {
        locals,
        opened,
        budget,
        ..
    } = cx;
    drop(locals);
    *units = budget.units;
    returned(answer, opened)
}

/// The level of the sort of a stated type whose name is new.
#[tactic(auto, using(crate::proofs::Returns::calm))]
pub fn header(cx: Cx<'_>, units: &mut u64, name: &Name, ty: &Expr) -> Result<Level, Halt>
    ensures value { Runs (checker.add_header cx.entry.view.now cx.entry.depth name.now ty.now units.old) result units.new }
    ensures calm { Calm result }
{
    let mut never = NeverStop;
    let mut kernel = over(cx, *units, &mut never);
    let answer = add_header(cx.alloc, &mut kernel, name, ty);
    ended(kernel, units, answer)
}

/// The height of a constant whose name is new and whose value fits its type.
#[tactic(auto, using(crate::proofs::Returns::calm))]
pub fn decl(cx: Cx<'_>, units: &mut u64, info: &ConstInfo) -> Result<u32, Halt>
    ensures value { Runs (checker.add_decl cx.entry.view.now cx.entry.depth info.now units.old) result units.new }
    ensures calm { Calm result }
{
    let mut never = NeverStop;
    let mut kernel = over(cx, *units, &mut never);
    let answer = add_decl(cx.alloc, &mut kernel, info);
    ended(kernel, units, answer)
}

/// The constants that an inductive declaration adds.
#[tactic(auto, using(crate::proofs::Returns::calm))]
pub fn inductive(cx: Cx<'_>, units: &mut u64, decl: &IndDecl) -> Result<Vec<ConstInfo>, Halt>
    ensures value { RunsAs (λ v. v.items) (admission.add_inductive cx.entry.view.now cx.entry.depth decl.now units.old) result units.new }
    ensures calm { Calm result }
{
    let mut never = NeverStop;
    let mut kernel = over(cx, *units, &mut never);
    let answer = add_inductive(cx.alloc, &mut kernel, decl);
    ended(kernel, units, answer)
}
