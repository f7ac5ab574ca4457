//! Levels with their assigned metavariables put in.
ghost use Rattle.std.specs.Prelude.{◌≡◌, map};
ghost use Rattle.lf_elaboration.specs.Metavariables as spec;
ghost use Rattle.lf_meta.specs.Limited.{PutsLevel, PutsSides, AddsLevels};

use crate::limit::{Limit, PutFault};
use crate::metas::Metas;
use crate::reach::Reach;
use lf_core::{Level, LevelNode};
use sqlite_items::Items;

// A level of two parts with these beside each other.
#[cycle(level)]
fn put_both(
    metas: &Metas,
    reach: Reach,
    limit: Limit,
    left: &Level,
    right: &Level,
) -> Result<(Level, Level), PutFault>
    ensures { PutsSides limit (spec.level_with (spec.level_at metas.now reach.chain) left.now)
        (spec.level_with (spec.level_at metas.now reach.chain) right.now) result }
{
    let left = put_level(metas, reach, limit.inner(0)?, left)?;
    let right = put_level(metas, reach, limit.inner(left.node_count())?, right)?;
    Ok((left, right))
}

// The level that a metavariable stands for.
#[cycle(level)]
#[tactic(auto, using(crate::proofs::Heads::level_none, crate::proofs::Heads::level_some))]
fn put_assigned(metas: &Metas, reach: Reach, limit: Limit, number: u32) -> Result<Level, PutFault>
    ensures { PutsLevel limit (spec.level_at metas.now reach.chain number) result }
{
    match metas.level_value(number) {
        None => limit.level(metas.alloc(), &Level::meta(metas.alloc(), number)?),
        Some(value) => put_level(metas, reach.next()?, limit, value),
    }
}

/// A level with its assigned metavariables put in. One without metavariables is handed back.
#[cycle(level)]
#[tactic(auto, using(crate::proofs::Heads::level_without))]
pub fn put_level(
    metas: &Metas,
    reach: Reach,
    limit: Limit,
    level: &Level,
) -> Result<Level, PutFault>
    ensures { PutsLevel limit (spec.level_with (spec.level_at metas.now reach.chain) level.now) result }
{
    let alloc = metas.alloc();
    if !level.has_metavariable() {
        return limit.level(alloc, level);
    }
    match level.node() {
        LevelNode::Zero | LevelNode::Param(_) => limit.level(alloc, level),
        LevelNode::Meta(k) => put_assigned(metas, reach, limit, *k),
        LevelNode::Succ(l) => {
            let l = put_level(metas, reach.inner()?, limit.inner(0)?, l)?;
            Ok(Level::succ(alloc, l)?)
        }
        LevelNode::Max(l, m) => {
            let (l, m) = put_both(metas, reach.inner()?, limit, l, m)?;
            Ok(Level::max(alloc, l, m)?)
        }
        LevelNode::Imax(l, m) => {
            let (l, m) = put_both(metas, reach.inner()?, limit, l, m)?;
            Ok(Level::imax(alloc, l, m)?)
        }
    }
}

/// These levels with their assigned metavariables put in, behind those of `all`.
pub fn put_levels(
    metas: &Metas,
    reach: Reach,
    limit: Limit,
    levels: &[Level],
    all: &mut Items<Level>,
) -> Result<(), PutFault>
    ensures { AddsLevels limit all.old (map (spec.level_with (spec.level_at metas.now reach.chain)) levels.now) result all.new }
{
    match levels {
        [] => Ok(()),
        [l, ls @ ..] => {
            let l = put_level(metas, reach, limit, l)?;
            let rest = limit.beside(l.node_count())?;
            all.push(l)?;
            put_levels(metas, reach, rest, ls, all)
        }
    }
}
