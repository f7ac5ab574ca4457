//! Whether levels can be made the same.
ghost use Rattle.std.specs.Prelude.{◌≡◌, ◌<◌, ◌≤◌, ◌-◌, length, take};
ghost use Rattle.lf_elaboration.specs.LevelUnifier as spec;
ghost use Rattle.lf_steps.specs.Runs.{Calm};
ghost use Rattle.lf_unify.specs.Runs.{Runs};
ghost use Rattle.lf_unify.specs.Tower as tower;

use crate::change::assign_level;
use lf_core::{Level, LevelNode};
use lf_meta::Metas;
use lf_steps::{Halt, is_same, out};
use std::alloc::Global;

/// What stays the same while two levels are unified.
#[derive(Clone, Copy)]
pub struct LevelCx {
    pub alloc: Global,
    pub floor: usize,
    /// How deep levels may still be nested.
    pub left: u64,
}

impl LevelCx {
    // For the parts of a level.
    fn inner(self) -> LevelCx
        requires { 0 < self.left }
        ensures floor { result.floor ≡ self.floor }
        ensures left { result.left ≡ self.left - 1 }
    {
        LevelCx {
            alloc: self.alloc,
            floor: self.floor,
            left: self.left - 1,
        }
    }
}

// Two levels, with their assigned metavariables put in first.
#[cycle(level)]
#[tactic(auto, using(crate::proofs::Nesting::level_none, crate::proofs::Nesting::level_some))]
fn unify_level_within(
    cx: LevelCx,
    units: &mut u64,
    metas: &mut Metas,
    l: &Level,
    m: &Level,
) -> Result<bool, Halt>
    requires { cx.floor ≤ length metas.old }
    ensures value { Runs (tower.unify_level_within cx.left l.now m.now units.old metas.old) result units.new metas.new }
    ensures floor { cx.floor ≤ length metas.new }
    ensures below { take cx.floor metas.new ≡ take cx.floor metas.old }
    ensures calm { Calm result }
{
    if cx.left == 0 {
        return Err(out(units));
    }
    let l = metas.put_in_level(l)?;
    let m = metas.put_in_level(m)?;
    let same = level_rule(cx.inner(), units, metas, &l, &m);
    drop(l);
    drop(m);
    same
}

// Without metavariables they are compared.
#[cycle(level)]
#[tactic(auto, unfolding(crate::specs::Tower::level_rule, crate::specs::Tower::by_level_form))]
fn level_rule(
    cx: LevelCx,
    units: &mut u64,
    metas: &mut Metas,
    l: &Level,
    m: &Level,
) -> Result<bool, Halt>
    requires { cx.floor ≤ length metas.old }
    ensures value { Runs (tower.level_rule cx.left l.now m.now units.old metas.old) result units.new metas.new }
    ensures floor { cx.floor ≤ length metas.new }
    ensures below { take cx.floor metas.new ≡ take cx.floor metas.old }
    ensures calm { Calm result }
{
    if l.has_metavariable() || m.has_metavariable() {
        by_level_form(cx, units, metas, l, m)
    } else {
        Ok(is_same(cx.alloc, l, m)?)
    }
}

// A metavariable is assigned, the left one first.
#[cycle(level)]
#[tactic(auto, unfolding(crate::specs::Tower::by_level_form, crate::specs::Tower::by_level_parts))]
fn by_level_form(
    cx: LevelCx,
    units: &mut u64,
    metas: &mut Metas,
    l: &Level,
    m: &Level,
) -> Result<bool, Halt>
    requires { cx.floor ≤ length metas.old }
    ensures value { Runs (tower.by_level_form cx.left l.now m.now units.old metas.old) result units.new metas.new }
    ensures floor { cx.floor ≤ length metas.new }
    ensures below { take cx.floor metas.new ≡ take cx.floor metas.old }
    ensures calm { Calm result }
{
    match (l.node(), m.node()) {
        (LevelNode::Meta(j), LevelNode::Meta(k)) => {
            if *j == *k {
                Ok(true)
            } else {
                assign_level(cx.floor, metas, *j, m)
            }
        }
        (LevelNode::Meta(j), _) => assign_level(cx.floor, metas, *j, m),
        (_, LevelNode::Meta(k)) => assign_level(cx.floor, metas, *k, l),
        _ => by_level_parts(cx, units, metas, l, m),
    }
}

// Successors and equal forms by their parts.
#[cycle(level)]
#[tactic(auto, unfolding(crate::specs::Tower::by_level_parts, crate::specs::Tower::both_levels, crate::specs::Tower::unify_level_within))]
fn by_level_parts(
    cx: LevelCx,
    units: &mut u64,
    metas: &mut Metas,
    l: &Level,
    m: &Level,
) -> Result<bool, Halt>
    requires { cx.floor ≤ length metas.old }
    ensures value { Runs (tower.by_level_parts cx.left l.now m.now units.old metas.old) result units.new metas.new }
    ensures floor { cx.floor ≤ length metas.new }
    ensures below { take cx.floor metas.new ≡ take cx.floor metas.old }
    ensures calm { Calm result }
{
    match (l.node(), m.node()) {
        (LevelNode::Succ(l), LevelNode::Succ(m)) => unify_level_within(cx, units, metas, l, m),
        (LevelNode::Max(l, j), LevelNode::Max(m, k)) => by_both(cx, units, metas, l, j, m, k),
        (LevelNode::Imax(l, j), LevelNode::Imax(m, k)) => by_both(cx, units, metas, l, j, m, k),
        _ => Ok(false),
    }
}

// The parts of two levels, in order: the first of each, and then the second.
#[cycle(level)]
#[tactic(auto, using(crate::proofs::Runs::halts), unfolding(crate::specs::Tower::both_levels))]
fn by_both(
    cx: LevelCx,
    units: &mut u64,
    metas: &mut Metas,
    l: &Level,
    j: &Level,
    m: &Level,
    k: &Level,
) -> Result<bool, Halt>
    requires { cx.floor ≤ length metas.old }
    ensures value { Runs (tower.both_levels cx.left l.now j.now m.now k.now units.old metas.old) result units.new metas.new }
    ensures floor { cx.floor ≤ length metas.new }
    ensures below { take cx.floor metas.new ≡ take cx.floor metas.old }
    ensures calm { Calm result }
{
    if unify_level_within(cx, units, metas, l, m)? {
        unify_level_within(cx, units, metas, j, k)
    } else {
        Ok(false)
    }
}

/// Two levels. It costs nothing.
#[tactic(auto, unfolding(crate::specs::Tower::unify_level, lf_checker::specs::Whnf::turn_limit))]
pub fn unify_level(
    alloc: Global,
    floor: usize,
    units: &mut u64,
    metas: &mut Metas,
    l: &Level,
    m: &Level,
) -> Result<bool, Halt>
    requires { floor ≤ length metas.old }
    ensures value { Runs (tower.unify_level l.now m.now units.old metas.old) result units.new metas.new }
    ensures floor { floor ≤ length metas.new }
    ensures below { take floor metas.new ≡ take floor metas.old }
    ensures calm { Calm result }
{
    let cx = LevelCx {
        alloc,
        floor,
        left: u64::MAX,
    };
    unify_level_within(cx, units, metas, l, m)
}

/// Two lists of levels, place by place.
#[tactic(auto, using(crate::proofs::Runs::halts), unfolding(crate::specs::Tower::unify_level, crate::specs::Tower::unify_level_within))]
pub fn unify_levels(
    alloc: Global,
    floor: usize,
    units: &mut u64,
    metas: &mut Metas,
    ls: &[Level],
    ms: &[Level],
) -> Result<bool, Halt>
    requires { floor ≤ length metas.old }
    ensures value { Runs (spec.unify_levels ls.now ms.now units.old metas.old) result units.new metas.new }
    ensures floor { floor ≤ length metas.new }
    ensures below { take floor metas.new ≡ take floor metas.old }
    ensures calm { Calm result }
{
    match ls {
        [] => match ms {
            [] => Ok(true),
            [_m, _ms @ ..] => Ok(false),
        },
        [l, ls @ ..] => match ms {
            [] => Ok(false),
            [m, ms @ ..] => {
                if unify_level(alloc, floor, units, metas, l, m)? {
                    unify_levels(alloc, floor, units, metas, ls, ms)
                } else {
                    Ok(false)
                }
            }
        },
    }
}
