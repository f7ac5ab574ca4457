//! References of levels.
ghost use Rattle.std.specs.Prelude.{◌≡◌, ◌++◌, OnOk};
ghost use Rattle.lf_syntax.specs.Tree.{levels_of};
ghost use Rattle.lf_elaboration.specs.References.{level_references, levels_references, optional_level};

use lf_base::NoMemory;
use lf_elaboration::Reference;
use lf_syntax::{LevelNode, LevelTerm};
use std::alloc::Global;

/// Adds the references of a level.
#[cycle(level)]
fn level_references(
    alloc: Global,
    level: &LevelTerm,
    all: &mut Vec<Reference>,
) -> Result<(), NoMemory>
    ensures { OnOk result (all.new.items ≡ all.old.items ++ level_references level.now) }
{
    match level.node() {
        LevelNode::Num(_) => Ok(()),
        LevelNode::Name(x) => {
            all.push(Reference::Level(x.name.copy(alloc)?))?;
            Ok(())
        }
        LevelNode::Plus { base, .. } => level_references(alloc, base, all),
        LevelNode::Max { parts, .. } => levels_references(alloc, parts.as_slice(), all),
        LevelNode::Imax { left, right, .. } => {
            level_references(alloc, left, all)?;
            level_references(alloc, right, all)
        }
    }
}

/// Adds the references of levels, in order.
#[cycle(level)]
pub(crate) fn levels_references(
    alloc: Global,
    levels: &[LevelTerm],
    all: &mut Vec<Reference>,
) -> Result<(), NoMemory>
    ensures { OnOk result (all.new.items ≡ all.old.items ++ levels_references (levels_of levels.now)) }
{
    for level in levels {
        level_references(alloc, level, all)?;
    }
    Ok(())
}

/// Adds the references of a level, where there is one.
pub(crate) fn optional_level(
    alloc: Global,
    level: &Option<LevelTerm>,
    all: &mut Vec<Reference>,
) -> Result<(), NoMemory>
    ensures { OnOk result (all.new.items ≡ all.old.items ++ optional_level level.now) }
{
    match level {
        None => Ok(()),
        Some(level) => level_references(alloc, level, all),
    }
}
