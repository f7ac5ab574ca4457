//! What the kernel accepts of a statement with its proof.
ghost use Rattle.std.specs.Prelude.{◌≡◌, ◌≤◌, Some, IfOk};
ghost use Rattle.lf_elaboration.specs.Statement as spec;
ghost use Rattle.lf_steps.specs.Runs.{RunsAs, Rose};
ghost use Rattle.lf_telescope.specs.Values.{statement};

use crate::within::{decl, header};
use lf_base::Stop;
use lf_check::CheckCx;
use lf_core::{ConstInfo, ConstKind, Detail, Name, NoMemory, copy_all};
use lf_steps::Halt;
use lf_telescope::Statement;
use std::alloc::Global;

// The theorem of this statement, at height 0.
fn theorem(
    alloc: Global,
    name: &Name,
    levels: &[Name],
    of: Statement,
) -> Result<ConstInfo, NoMemory>
    ensures { IfOk result (λ c. c ≡ spec.theorem name.now levels.now (statement of) 0) }
{
    let Statement { ty, proof } = of;
    Ok(ConstInfo {
        name: name.copy(alloc)?,
        kind: ConstKind::Theorem,
        levels: copy_all(alloc, levels)?,
        ty,
        value: Some(proof),
        height: 0,
        detail: Detail::Plain,
    })
}

/// The theorem of this name and these level parameters, with the height that the kernel gives it. Refused, Out and Need
/// where the definition is.
#[tactic(auto, using(lf_steps::proofs::Runs::halts))]
pub fn accepted<P: Stop>(
    alloc: Global,
    cx: &mut CheckCx<'_, P>,
    name: &Name,
    levels: &[Name],
    of: Statement,
) -> Result<ConstInfo, Halt>
    ensures value { RunsAs (λ c. Some c)
        (spec.accepted cx.old.view.now cx.old.budget.depth name.now levels.now (Some (statement of)) cx.old.budget.units) result cx.new.budget.units }
    ensures view { cx.new.view.now ≡ cx.old.view.now }
    ensures kept { cx.new.locals.items ≡ cx.old.locals.items }
    ensures nesting { cx.new.budget.depth ≡ cx.old.budget.depth }
    ensures count { P.stops cx.old.stop.now ≤ P.stops cx.new.stop.now }
    ensures rose { Rose result (P.stops cx.old.stop.now) (P.stops cx.new.stop.now) }
{
    let level = header(alloc, cx, name, &of.ty)?;
    drop(level);
    let mut info = theorem(alloc, name, levels, of)?;
    let height = decl(alloc, cx, &info)?;
    info.height = height;
    Ok(info)
}
