//! Universe levels, as shared trees.
ghost use Rattle.std.specs.Prelude.{◌≡◌, ◌↔◌, IsTrue, false, IfOk, IfSome};
ghost use Rattle.lf_core.specs.Term.{level_zero, level_succ, level_max, level_imax, level_param, level_meta};
ghost use Rattle.lf_core.specs.Same.{same_universe};
ghost use Rattle.lf_core.specs.Node.{universe_of};
ghost use Rattle.lf_core.specs.Size as size;
ghost use Rattle.lf_core.specs.Summary.{OfLevel, level_has_metavariable, level_has_parameter};
ghost use Rattle.lf_core.specs.Substitution.{level_substitute};

use crate::summary::LevelSummary;
use lf_base::NoMemory;
use lf_name::Copied;
use std::alloc::Global;
use std::marker::Model;
use std::sync::Arc;

/// A universe level, which contracts see as the plain tree `Universe`. Copies share their nodes.
#[cycle(level)]
#[derive(Debug, Drop)]
pub struct Level {
    kept: Arc<KeptLevel>,
}

/// A level's form, and beside it what is kept.
#[cycle(level)]
#[derive(Debug, Drop)]
pub struct KeptLevel {
    node: LevelNode,
    summary: LevelSummary,
}

/// The forms of levels. `Param(k)` is the k-th name of the declaration's list, `Meta(k)` a metavariable.
#[cycle(level)]
#[derive(Debug, Drop)]
pub enum LevelNode {
    Zero,
    Succ(Level),
    Max(Level, Level),
    Imax(Level, Level),
    Param(u32),
    Meta(u32),
}

impl Model for Level {
    ghost use Rattle.std.specs.Prelude.{◌≡◌};
    ghost use Rattle.lf_core.specs.Term.{Universe};
    ghost use Rattle.lf_core.specs.Codes.{coded_universe};

    ghost Value = { Universe };

    ghost coded = { coded_universe };

    ghost use Rattle.lf_core.specs.Size.{level_node_count};
    ghost use Rattle.lf_core.specs.Summary.{OfLevel};
    ghost use Rattle.lf_core.specs.Node.{universe_of};
    ghost use Rattle.std.specs.Arc.{arc_value};

    ghost view = { λ l. universe_of (arc_value l.kept).node };

    ghost invariant = { λ l. OfLevel (arc_value l.kept).summary (universe_of (arc_value l.kept).node) };

    ghost size = { level_node_count };
}

// What is kept beside this form.
fn summarize(node: &LevelNode) -> Option<LevelSummary>
    ensures { IfSome result (λ s. OfLevel s (universe_of node.now)) }
{
    match node {
        LevelNode::Zero => Some(LevelSummary {
            nodes: 1,
            depth: 1,
            metavariable: false,
            parameter: false,
        }),
        LevelNode::Succ(l) => {
            let l = l.summary();
            Some(LevelSummary {
                nodes: l.nodes.checked_add(1)?,
                depth: l.depth.checked_add(1)?,
                metavariable: l.metavariable,
                parameter: l.parameter,
            })
        }
        LevelNode::Max(l, m) | LevelNode::Imax(l, m) => {
            let l = l.summary();
            let m = m.summary();
            Some(LevelSummary {
                nodes: l.nodes.checked_add(m.nodes)?.checked_add(1)?,
                depth: l.depth.max(m.depth).checked_add(1)?,
                metavariable: l.metavariable || m.metavariable,
                parameter: l.parameter || m.parameter,
            })
        }
        LevelNode::Param(_) => Some(LevelSummary {
            nodes: 1,
            depth: 1,
            metavariable: false,
            parameter: true,
        }),
        LevelNode::Meta(_) => Some(LevelSummary {
            nodes: 1,
            depth: 1,
            metavariable: true,
            parameter: false,
        }),
    }
}

impl Level {
    /// The level of this form. `NoMemory` also where its nodes pass a u64 or its depth a u32.
    pub fn of(alloc: Global, node: LevelNode) -> Result<Level, NoMemory>
        ensures { IfOk result (λ t. t ≡ universe_of node) }
    {
        match summarize(&node) {
            Some(summary) => Ok(Level {
                kept: Arc::new(alloc, KeptLevel { node, summary })?,
            }),
            None => {
                drop(node);
                Err(NoMemory)
            }
        }
    }

    /// The form of the level, with its parts.
    pub fn node(&self) -> &LevelNode
        ensures { universe_of result.now ≡ self.now }
    {
        &self.kept.node
    }

    // What is kept beside the form.
    fn summary(&self) -> LevelSummary
        ensures { OfLevel result self.now }
    {
        self.kept.summary
    }

    /// Whether a metavariable stands in the level.
    pub fn has_metavariable(&self) -> bool
        ensures { result ≡ level_has_metavariable self.now }
    {
        self.summary().metavariable
    }

    /// Whether a parameter stands in the level.
    pub fn has_parameter(&self) -> bool
        ensures { result ≡ level_has_parameter self.now }
    {
        self.summary().parameter
    }

    /// The number of nodes.
    pub fn node_count(&self) -> u64
        ensures { result ≡ size.level_node_count self.now }
    {
        self.summary().nodes
    }

    /// The number of nodes on the longest path.
    pub fn depth(&self) -> u32
        ensures { result ≡ size.level_depth self.now }
    {
        self.summary().depth
    }

    /// Level 0.
    pub fn zero(alloc: Global) -> Result<Level, NoMemory>
        ensures { IfOk result (λ t. t ≡ level_zero) }
    {
        Level::of(alloc, LevelNode::Zero)
    }

    /// `l + 1`.
    pub fn succ(alloc: Global, l: Level) -> Result<Level, NoMemory>
        ensures { IfOk result (λ t. t ≡ level_succ l) }
    {
        Level::of(alloc, LevelNode::Succ(l))
    }

    /// `max l m`.
    pub fn max(alloc: Global, l: Level, m: Level) -> Result<Level, NoMemory>
        ensures { IfOk result (λ t. t ≡ level_max l m) }
    {
        Level::of(alloc, LevelNode::Max(l, m))
    }

    /// `imax l m`: 0 where `m` is 0, else the greater.
    pub fn imax(alloc: Global, l: Level, m: Level) -> Result<Level, NoMemory>
        ensures { IfOk result (λ t. t ≡ level_imax l m) }
    {
        Level::of(alloc, LevelNode::Imax(l, m))
    }

    /// The parameter at this place of the declaration.
    pub fn param(alloc: Global, place: u32) -> Result<Level, NoMemory>
        ensures { IfOk result (λ t. t ≡ level_param place) }
    {
        Level::of(alloc, LevelNode::Param(place))
    }

    /// The metavariable of this number.
    pub fn meta(alloc: Global, number: u32) -> Result<Level, NoMemory>
        ensures { IfOk result (λ t. t ≡ level_meta number) }
    {
        Level::of(alloc, LevelNode::Meta(number))
    }

    /// The same level; copies share their nodes. It takes no memory, but a count of owners that is at its end is refused.
    pub fn copy(&self, _alloc: Global) -> Result<Level, NoMemory>
        ensures { IfOk result (λ t. t ≡ self.now) }
    {
        Ok(Level {
            kept: Arc::try_clone(&self.kept)?,
        })
    }

    /// This level with an argument for each parameter. A parameter past the arguments stays, and a level without
    /// parameters is handed back.
    #[tactic(auto, using(crate::proofs::Unchanged::level_unchanged))]
    pub fn substitute(&self, alloc: Global, args: &[Level]) -> Result<Level, NoMemory>
        ensures { IfOk result (λ t. t ≡ level_substitute args.now self.now) }
    {
        if !self.has_parameter() {
            return self.copy(alloc);
        }
        match self.node() {
            LevelNode::Zero => Level::zero(alloc),
            LevelNode::Succ(l) => Level::succ(alloc, l.substitute(alloc, args)?),
            LevelNode::Max(l, m) => {
                let l = l.substitute(alloc, args)?;
                Level::max(alloc, l, m.substitute(alloc, args)?)
            }
            LevelNode::Imax(l, m) => {
                let l = l.substitute(alloc, args)?;
                Level::imax(alloc, l, m.substitute(alloc, args)?)
            }
            LevelNode::Param(k) => match args.get(*k as usize) {
                Some(arg) => arg.copy(alloc),
                None => Level::param(alloc, *k),
            },
            LevelNode::Meta(k) => Level::meta(alloc, *k),
        }
    }

    // Whether the same is kept beside the two, as it is beside equal levels.
    #[tactic(auto, using(crate::proofs::Trees::levels_apart))]
    fn may_be(&self, other: &Level) -> bool
        ensures apart { (self.now ≡ other.now) → IsTrue result }
        ensures tested { result ≡ false → same_universe self.now other.now ≡ false }
    {
        self.summary().is(other.summary())
    }

    /// Whether the two levels are the same tree. Levels of which something else is kept aren't walked.
    pub fn is(&self, other: &Level) -> bool
        ensures exact { IsTrue result ↔ (self.now ≡ other.now) }
        ensures same { result ≡ same_universe self.now other.now }
    {
        self.may_be(other)
            && match (self.node(), other.node()) {
                (LevelNode::Zero, LevelNode::Zero) => true,
                (LevelNode::Succ(l), LevelNode::Succ(m)) => l.is(m),
                (LevelNode::Max(l, m), LevelNode::Max(j, k)) => l.is(j) && m.is(k),
                (LevelNode::Imax(l, m), LevelNode::Imax(j, k)) => l.is(j) && m.is(k),
                (LevelNode::Param(j), LevelNode::Param(k)) => *j == *k,
                (LevelNode::Meta(j), LevelNode::Meta(k)) => *j == *k,
                _ => false,
            }
    }
}

impl Copied for Level {
    fn copied(&self, alloc: Global) -> Result<Level, NoMemory> {
        self.copy(alloc)
    }
}
