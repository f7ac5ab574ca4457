ghost use Rattle.std.specs.Prelude.{◌≡◌, IfOk};
ghost use Rattle.lf_syntax.specs.Node.{level_tree};

use crate::leaf::{Ident, Num};
use lf_base::NoMemory;
use std::alloc::Global;
use std::marker::Model;
use std::sync::Arc;

/// A universe level as it is written. Contracts see the plain tree `LevelTree`.
#[cycle(level)]
#[derive(Debug, Drop)]
pub struct LevelTerm {
    node: Arc<LevelNode>,
}

/// The forms of levels; parentheses leave no node.
#[cycle(level)]
#[derive(Debug, Drop)]
pub enum LevelNode {
    Num(Num),
    Name(Ident),
    /// `base + add`.
    Plus {
        at: usize,
        base: LevelTerm,
        add: Num,
    },
    /// `max` of two parts or more.
    Max {
        at: usize,
        parts: Vec<LevelTerm>,
    },
    Imax {
        at: usize,
        left: LevelTerm,
        right: LevelTerm,
    },
}

impl Model for LevelTerm {
    ghost use Rattle.lf_syntax.specs.Tree.{LevelTree};
    ghost use Rattle.lf_syntax.specs.Codes.{coded_level};

    ghost Value = { LevelTree };

    ghost coded = { coded_level };

    ghost use Rattle.lf_syntax.specs.Size.{level_size};
    ghost use Rattle.lf_syntax.specs.Node.{level_tree};
    ghost use Rattle.std.specs.Arc.{arc_value};

    ghost view = { λ l. level_tree (arc_value l.node) };

    ghost size = { level_size };

    ghost use Rattle.lf_syntax.specs.Falls.{level_falls};

    ghost size_decreases = { λ l h. level_falls l };
}

impl LevelTerm {
    /// The level of this form; `NoMemory` is its one fault.
    pub fn of(alloc: Global, node: LevelNode) -> Result<LevelTerm, NoMemory>
        ensures { IfOk result (λ l. l ≡ level_tree node) }
    {
        Ok(LevelTerm {
            node: Arc::new(alloc, node)?,
        })
    }

    /// The form of the level, with its parts.
    pub fn node(&self) -> &LevelNode
        ensures { level_tree result.now ≡ self.now }
    {
        &self.node
    }

    /// The same level; copies share their nodes.
    pub fn copy(&self, _alloc: Global) -> Result<LevelTerm, NoMemory>
        ensures { IfOk result (λ l. l ≡ self.now) }
    {
        Ok(LevelTerm {
            node: Arc::try_clone(&self.node)?,
        })
    }
}
