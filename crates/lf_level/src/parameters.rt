//! The parameters of levels.
ghost use Rattle.std.specs.Prelude.{◌≤◌, ◌↔◌, ◌∷◌, [], IsTrue, length};
ghost use Rattle.lf_level.specs.Parameters.{HasNoMetavariable, occurrences};
ghost use Rattle.lf_level.specs.Decision.{Collects};

use crate::fault::LevelFault;
use lf_core::{Level, LevelNode};
use sqlite_items::Items;

/// The most distinct parameters that are compared.
pub const MOST: usize = 8;

/// Whether no metavariable stands in the level. It takes constant time, as that is kept beside the level.
#[tactic(auto, using(crate::proofs::Metavariables::has_none, crate::proofs::Metavariables::tells_none))]
pub fn has_no_metavariable(level: &Level) -> bool
    ensures { IsTrue result ↔ HasNoMetavariable level.now }
{
    !level.has_metavariable()
}

// Puts a parameter behind `seen`, where it isn't there.
fn see(parameter: u32, seen: &mut Items<u32>) -> Result<(), LevelFault>
    requires { length seen.old ≤ 8 }
    ensures { Collects seen.old (parameter ∷ []) result seen.new }
{
    if seen.as_slice().contains(&parameter) {
        return Ok(());
    }
    if seen.len() >= MOST {
        return Err(LevelFault::TooMany);
    }
    seen.push(parameter)?;
    Ok(())
}

/// Puts the parameters of `level` behind `seen`, each once, and stops at more than 8.
pub fn collect(level: &Level, seen: &mut Items<u32>) -> Result<(), LevelFault>
    requires { length seen.old ≤ 8 }
    ensures { Collects seen.old (occurrences level.now) result seen.new }
{
    match level.node() {
        LevelNode::Zero | LevelNode::Meta(_) => Ok(()),
        LevelNode::Succ(l) => collect(l, seen),
        LevelNode::Max(l, m) | LevelNode::Imax(l, m) => {
            collect(l, seen)?;
            collect(m, seen)
        }
        LevelNode::Param(k) => see(*k, seen),
    }
}
