//! Whether levels are the same, within the limits of the test.
ghost use Rattle.std.specs.Prelude.{◌≡◌, false, IfOk};
ghost use Rattle.lf_core.specs.Term.{level_zero};
ghost use Rattle.lf_rules.specs.Structure.{result_level};
ghost use Rattle.lf_core.specs.Summary.{level_has_metavariable};
ghost use Rattle.lf_checker.specs.LevelTest as spec;
ghost use Rattle.lf_checker.specs.Whnf as whnf;
ghost use Rattle.lf_checker.specs.Equal as equal;

use lf_core::{Expr, ExprNode, Level, NoMemory};
use lf_level::LevelFault;
use lf_subst::DEEPEST;
use std::alloc::Global;

// For levels without metavariables: more than 8 parameters or a greater depth is not the same.
#[tactic(auto, using(crate::proofs::LevelTests::tested_is, crate::proofs::LevelTests::too_many, crate::proofs::LevelTests::left_deep, crate::proofs::LevelTests::right_deep, crate::proofs::LevelTests::no_metavariable))]
fn is_tested(alloc: Global, l: &Level, m: &Level) -> Result<bool, NoMemory>
    requires left { level_has_metavariable l.now ≡ false }
    requires right { level_has_metavariable m.now ≡ false }
    ensures { IfOk result (λ b. b ≡ spec.is_same l.now m.now) }
{
    if l.depth() > DEEPEST {
        return Ok(false);
    }
    if m.depth() > DEEPEST {
        return Ok(false);
    }
    match lf_level::same(alloc, l, m) {
        Ok(same) => Ok(same),
        Err(LevelFault::TooMany) => Ok(false),
        Err(LevelFault::NoMemory) => Err(NoMemory),
    }
}

/// Whether the levels are the same; with a metavariable, whether they are the same tree.
#[tactic(auto, using(crate::proofs::LevelTests::left_meta, crate::proofs::LevelTests::right_meta))]
pub fn is_same(alloc: Global, l: &Level, m: &Level) -> Result<bool, NoMemory>
    ensures { IfOk result (λ b. b ≡ spec.is_same l.now m.now) }
{
    if l.has_metavariable() || m.has_metavariable() {
        return Ok(l.is(m));
    }
    is_tested(alloc, l, m)
}

/// Whether two lists of levels are the same, place by place.
pub fn are_same(alloc: Global, ls: &[Level], ms: &[Level]) -> Result<bool, NoMemory>
    ensures { IfOk result (λ b. b ≡ spec.are_same ls.now ms.now) }
{
    match ls {
        [] => Ok(ms.is_empty()),
        [l, ls @ ..] => match ms {
            [] => Ok(false),
            [m, ms @ ..] => {
                if is_same(alloc, l, m)? {
                    are_same(alloc, ls, ms)
                } else {
                    Ok(false)
                }
            }
        },
    }
}

fn is_zero(alloc: Global, level: &Level) -> Result<bool, NoMemory>
    ensures { IfOk result (λ b. b ≡ spec.is_same level.now level_zero) }
{
    let zero = Level::zero(alloc)?;
    is_same(alloc, level, &zero)
}

/// Whether the level of the sort in which a type of pis ends is that of `Prop`.
pub fn is_prop_level(alloc: Global, ty: &Expr) -> Result<bool, NoMemory>
    ensures { IfOk result (λ b. b ≡ whnf.is_prop_level (result_level ty.now)) }
{
    match ty.node() {
        ExprNode::Sort(level) => is_zero(alloc, level),
        ExprNode::Pi(_, _, body) => is_prop_level(alloc, body),
        _ => Ok(false),
    }
}

/// Whether the term is `Prop`.
pub fn is_prop(alloc: Global, term: &Expr) -> Result<bool, NoMemory>
    ensures { IfOk result (λ b. b ≡ equal.is_prop term.now) }
{
    match term.node() {
        ExprNode::Sort(level) => is_zero(alloc, level),
        _ => Ok(false),
    }
}
