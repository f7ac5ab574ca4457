//! The order and the sameness of levels.
ghost use Rattle.std.specs.Prelude.{◌≡◌, ◌↔◌, ◌≤◌, All, length, IfOk, IsTrue};
ghost use Rattle.lf_core.specs.Level.{Leq, Same};
ghost use Rattle.lf_core.specs.Size.{level_depth};
ghost use Rattle.lf_core.specs.Substitution.{level_substitute};
ghost use Rattle.lf_level.specs.Answer.{Answers};
ghost use Rattle.lf_level.specs.Parameters.{HasNoMetavariable, parameters_of};
ghost use Rattle.lf_level.specs.Decision.{Lists};
ghost use Rattle.lf_level.specs.Lanes.{HoldsAt, all_trials};

use crate::fault::LevelFault;
use crate::parameters::collect;
use crate::tried::{holds_at_all, push_trials};
use lf_core::{Level, NoMemory};
use sqlite_items::Items;
use std::alloc::Global;

// Whether the levels are equal (`both`), or the first is at most the second, in all that is tried.
#[tactic(auto, using(crate::proofs::Tried_values::trials_small))]
fn holds(alloc: Global, both: bool, u: &Level, v: &Level, names: &[u32]) -> Result<bool, NoMemory>
    requires left { level_depth u.now ≤ 1024 }
    requires right { level_depth v.now ≤ 1024 }
    requires room { length names.now ≤ 8 }
    ensures { IfOk result (λ b. IsTrue b ↔ All (HoldsAt both u.now v.now names.now) (all_trials names.now)) }
{
    let mut tried = Vec::new(alloc);
    push_trials(&mut tried, names, [0; 8], 0, true)?;
    Ok(holds_at_all(both, u, v, names, tried.as_slice()))
}

// The distinct parameters of the two levels.
fn parameters(alloc: Global, u: &Level, v: &Level) -> Result<Items<u32>, LevelFault>
    ensures { Lists u.now v.now result }
{
    let mut seen = Items::new(alloc);
    collect(u, &mut seen)?;
    collect(v, &mut seen)?;
    Ok(seen)
}

/// Whether `u` is at most `v` under every assignment of natural numbers to the parameters. `TooMany`
/// exactly where the two have more than 8 distinct parameters together.
pub fn leq(alloc: Global, u: &Level, v: &Level) -> Result<bool, LevelFault>
    requires left { HasNoMetavariable u.now }
    requires right { HasNoMetavariable v.now }
    requires left_depth { level_depth u.now ≤ 1024 }
    requires right_depth { level_depth v.now ≤ 1024 }
    ensures { Answers Leq u.now v.now result }
{
    let names = parameters(alloc, u, v)?;
    if u.is(v) {
        return Ok(true);
    }
    let names = names.as_slice();
    Ok(holds(alloc, false, u, v, names)?)
}

/// Whether `u` and `v` have the same value under every assignment of natural numbers to the parameters.
/// `TooMany` exactly where the two have more than 8 distinct parameters together.
pub fn same(alloc: Global, u: &Level, v: &Level) -> Result<bool, LevelFault>
    requires left { HasNoMetavariable u.now }
    requires right { HasNoMetavariable v.now }
    requires left_depth { level_depth u.now ≤ 1024 }
    requires right_depth { level_depth v.now ≤ 1024 }
    ensures { Answers Same u.now v.now result }
{
    let names = parameters(alloc, u, v)?;
    if u.is(v) {
        return Ok(true);
    }
    let names = names.as_slice();
    Ok(holds(alloc, true, u, v, names)?)
}

/// `u` with an argument for each parameter. A parameter past the arguments stays.
pub fn subst(alloc: Global, u: &Level, args: &[Level]) -> Result<Level, NoMemory>
    ensures { IfOk result (λ t. t ≡ level_substitute args.now u.now) }
{
    u.substitute(alloc, args)
}
