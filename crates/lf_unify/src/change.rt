//! What is assigned, and what is taken back.
ghost use Rattle.std.specs.Prelude.{◌≡◌, ◌≤◌, ℕ, length, take};
ghost use Rattle.lf_elaboration.specs.Run as spec;
ghost use Rattle.lf_steps.specs.Runs.{Calm};
ghost use Rattle.lf_unify.specs.Runs.{Runs};

use lf_core::{Expr, Level};
use lf_meta::{MetaFault, Metas};
use lf_steps::Halt;

/// Whether the metavariable is assigned this term.
#[tactic(auto, using(crate::proofs::Floor::take_push))]
pub fn assign(floor: usize, metas: &mut Metas, m: u32, value: Expr) -> Result<bool, Halt>
    requires { floor ≤ length metas.old }
    ensures value { (u : ℕ) → Runs (spec.assign m value u metas.old) result u metas.new }
    ensures floor { floor ≤ length metas.new }
    ensures below { take floor metas.new ≡ take floor metas.old }
    ensures calm { Calm result }
{
    if metas.value(m).is_some() {
        drop(value);
        return Ok(false);
    }
    match metas.assign(m, value) {
        Ok(()) => Ok(true),
        Err(MetaFault::Occurs | MetaFault::Scope(_)) => Ok(false),
        Err(MetaFault::NoMemory) => Err(Halt::NoMemory),
    }
}

/// Whether the metavariable of levels is assigned this level.
#[tactic(auto, using(crate::proofs::Floor::take_push))]
pub fn assign_level(floor: usize, metas: &mut Metas, m: u32, value: &Level) -> Result<bool, Halt>
    requires { floor ≤ length metas.old }
    ensures value { (u : ℕ) → Runs (spec.assign_level m value.now u metas.old) result u metas.new }
    ensures floor { floor ≤ length metas.new }
    ensures below { take floor metas.new ≡ take floor metas.old }
    ensures calm { Calm result }
{
    if metas.level_value(m).is_some() {
        return Ok(false);
    }
    let value = value.copy(metas.alloc())?;
    match metas.assign_level(m, value) {
        Ok(()) => Ok(true),
        Err(MetaFault::Scope(_) | MetaFault::Occurs) => Ok(false),
        Err(MetaFault::NoMemory) => Err(Halt::NoMemory),
    }
}
