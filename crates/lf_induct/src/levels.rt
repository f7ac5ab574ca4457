//! Tests of levels: whether one is at most another, within the limits of the test.
ghost use Rattle.std.specs.Prelude.{◌≡◌, false, IfOk};
ghost use Rattle.lf_core.specs.Term.{level_zero};
ghost use Rattle.lf_core.specs.Summary.{level_has_metavariable};
ghost use Rattle.lf_checker.specs.LevelTest as test;
ghost use Rattle.lf_checker.specs.Admission as spec;

use lf_core::{Level, NoMemory};
use lf_level::{LevelFault, leq};
use lf_steps::is_same;
use lf_subst::DEEPEST;
use std::alloc::Global;

// For levels without metavariables: with more than 8 parameters or a greater depth none is known to be at most the other.
#[tactic(auto, using(crate::proofs::Orders::tested_is, crate::proofs::Orders::too_many, crate::proofs::Orders::left_deep, crate::proofs::Orders::right_deep, lf_steps::proofs::LevelTests::no_metavariable))]
fn is_tested(alloc: Global, l: &Level, m: &Level) -> Result<bool, NoMemory>
    requires left { level_has_metavariable l.now ≡ false }
    requires right { level_has_metavariable m.now ≡ false }
    ensures { IfOk result (λ b. b ≡ test.is_at_most l.now m.now) }
{
    if l.depth() > DEEPEST {
        return Ok(false);
    }
    if m.depth() > DEEPEST {
        return Ok(false);
    }
    match leq(alloc, l, m) {
        Ok(known) => Ok(known),
        Err(LevelFault::TooMany) => Ok(false),
        Err(LevelFault::NoMemory) => Err(NoMemory),
    }
}

/// Whether the first level is at most the second; with a metavariable, whether they are the same tree.
#[tactic(auto, using(crate::proofs::Orders::left_meta, crate::proofs::Orders::right_meta))]
fn is_at_most(alloc: Global, l: &Level, m: &Level) -> Result<bool, NoMemory>
    ensures { IfOk result (λ b. b ≡ test.is_at_most l.now m.now) }
{
    if l.has_metavariable() || m.has_metavariable() {
        return Ok(l.is(m));
    }
    is_tested(alloc, l, m)
}

/// Whether the level is that of propositions.
pub fn is_zero(alloc: Global, level: &Level) -> Result<bool, NoMemory>
    ensures { IfOk result (λ b. b ≡ test.is_same level.now level_zero) }
{
    let zero = Level::zero(alloc)?;
    is_same(alloc, level, &zero)
}

/// Whether a field of the level `l` is low enough in a type of the level `wanted`.
pub fn is_low(alloc: Global, l: &Level, wanted: &Level) -> Result<bool, NoMemory>
    ensures { IfOk result (λ b. b ≡ spec.is_low l.now wanted.now) }
{
    if is_zero(alloc, wanted)? {
        return Ok(true);
    }
    is_at_most(alloc, l, wanted)
}

/// Whether the level is never that of propositions.
pub fn is_never_zero(alloc: Global, level: &Level) -> Result<bool, NoMemory>
    ensures { IfOk result (λ b. b ≡ spec.is_never_zero level.now) }
{
    let one = Level::succ(alloc, Level::zero(alloc)?)?;
    is_at_most(alloc, &one, level)
}
