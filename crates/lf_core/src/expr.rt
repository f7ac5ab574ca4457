//! Terms, as shared trees.
ghost use Rattle.std.specs.Prelude.{◌≡◌, ◌↔◌, ◌<◌, ◌^◌, IsTrue, false, IfOk, IfSome, IsSome};
ghost use Rattle.lf_core.specs.Term.{bound, free, meta, sort, const, app, lam, pi, letin, lit, proj};
ghost use Rattle.lf_core.specs.Scope.{Scoped};
ghost use Rattle.lf_core.specs.Size as size;
ghost use Rattle.lf_core.specs.Summary.{
  OfTerm,
  loose_bound,
  free_bound,
  has_metavariable,
  has_level_metavariable,
  has_parameter,
  levels_have_metavariable,
  levels_have_parameter,
};
ghost use Rattle.lf_core.specs.Same.{same, same_universes};
ghost use Rattle.lf_core.specs.ExprNode.{term_of};

use crate::level::Level;
use crate::summary::Summary;
use lf_base::NoMemory;
use lf_name::{Binder, Copied, Name};
use sqlite_items::Items;
use std::alloc::Global;
use std::marker::Model;
use std::sync::Arc;

/// A term, which contracts see as the plain tree `Term`. Copies share their nodes.
#[cycle(expr)]
#[derive(Debug, Drop)]
pub struct Expr {
    kept: Arc<KeptTerm>,
}

/// A term's form, and beside it what is kept.
#[cycle(expr)]
#[derive(Debug, Drop)]
pub struct KeptTerm {
    node: ExprNode,
    summary: Summary,
}

/// The forms of terms. `Bound` is a loose or bound variable by its de Bruijn index, `Free(k)` the k-th of the
/// context, `Meta` a metavariable, `Lit` a literal of `Nat`; `Let` has type, value and body; `Proj` has the name of a
/// structure, the place of one of its fields from 0, and a term of it.
#[cycle(expr)]
#[derive(Debug, Drop)]
pub enum ExprNode {
    Bound(u32),
    Free(u32),
    Meta(u32),
    Sort(Level),
    Const(Name, Items<Level>),
    App(Expr, Expr),
    Lam(Binder, Expr, Expr),
    Pi(Binder, Expr, Expr),
    Let(Binder, Expr, Expr, Expr),
    Lit(u128),
    Proj(Name, u32, Expr),
}

impl Model for Expr {
    ghost use Rattle.std.specs.Prelude.{◌≡◌};
    ghost use Rattle.lf_core.specs.Term.{Term};
    ghost use Rattle.lf_core.specs.Codes.{coded_term};

    ghost Value = { Term };

    ghost coded = { coded_term };

    ghost use Rattle.lf_core.specs.Size.{node_count};
    ghost use Rattle.lf_core.specs.Summary.{OfTerm};
    ghost use Rattle.lf_core.specs.ExprNode.{term_of};
    ghost use Rattle.std.specs.Arc.{arc_value};

    ghost view = { λ t. term_of (arc_value t.kept).node };

    ghost invariant = { λ t. OfTerm (arc_value t.kept).summary (term_of (arc_value t.kept).node) };

    ghost size = { node_count };
}

/// Whether the two lists are the same trees, place by place.
pub fn same_levels(a: &[Level], b: &[Level]) -> bool
    ensures exact { IsTrue result ↔ (a.now ≡ b.now) }
    ensures same { result ≡ same_universes a.now b.now }
{
    match a {
        [] => match b {
            [] => true,
            [_y, _ys @ ..] => false,
        },
        [x, xs @ ..] => match b {
            [] => false,
            [y, ys @ ..] => x.is(y) && same_levels(xs, ys),
        },
    }
}

/// The number of nodes of all the levels; None exactly where it is no u64.
pub fn levels_count(levels: &[Level]) -> Option<u64>
    ensures fits { IsSome result ↔ size.levels_node_count levels.now < 2 ^ 64 }
    ensures count { IfSome result (λ n. n ≡ size.levels_node_count levels.now) }
{
    match levels {
        [] => Some(0),
        [l, ls @ ..] => l.node_count().checked_add(levels_count(ls)?),
    }
}

/// The depth of the deepest of the levels; 0 where there is none.
pub fn levels_longest(levels: &[Level]) -> u32
    ensures { result ≡ size.levels_depth levels.now }
{
    match levels {
        [] => 0,
        [l, ls @ ..] => l.depth().max(levels_longest(ls)),
    }
}

fn any_metavariable(levels: &[Level]) -> bool
    ensures { result ≡ levels_have_metavariable levels.now }
{
    match levels {
        [] => false,
        [l, ls @ ..] => l.has_metavariable() || any_metavariable(ls),
    }
}

fn any_parameter(levels: &[Level]) -> bool
    ensures { result ≡ levels_have_parameter levels.now }
{
    match levels {
        [] => false,
        [l, ls @ ..] => l.has_parameter() || any_parameter(ls),
    }
}

// What is kept beside a term with no parts.
const LEAF: Summary = Summary {
    nodes: 1,
    depth: 1,
    loose: 0,
    free: 0,
    metavariable: false,
    level_metavariable: false,
    parameter: false,
};

// What is kept beside this form.
fn summarize(node: &ExprNode) -> Option<Summary>
    ensures { IfSome result (λ s. OfTerm s (term_of node.now)) }
{
    match node {
        ExprNode::Bound(i) => Some(Summary {
            loose: i.checked_add(1)?,
            ..LEAF
        }),
        ExprNode::Free(k) => Some(Summary {
            free: k.checked_add(1)?,
            ..LEAF
        }),
        ExprNode::Meta(_) => Some(Summary {
            metavariable: true,
            ..LEAF
        }),
        ExprNode::Sort(l) => Some(Summary {
            nodes: l.node_count().checked_add(1)?,
            depth: l.depth().checked_add(1)?,
            level_metavariable: l.has_metavariable(),
            parameter: l.has_parameter(),
            ..LEAF
        }),
        ExprNode::Const(_, ls) => Some(Summary {
            nodes: levels_count(ls.as_slice())?.checked_add(1)?,
            depth: levels_longest(ls.as_slice()).checked_add(1)?,
            level_metavariable: any_metavariable(ls.as_slice()),
            parameter: any_parameter(ls.as_slice()),
            ..LEAF
        }),
        ExprNode::App(f, a) => {
            let f = f.summary();
            let a = a.summary();
            Some(Summary {
                nodes: f.nodes.checked_add(a.nodes)?.checked_add(1)?,
                depth: f.depth.max(a.depth).checked_add(1)?,
                loose: f.loose.max(a.loose),
                free: f.free.max(a.free),
                metavariable: f.metavariable || a.metavariable,
                level_metavariable: f.level_metavariable || a.level_metavariable,
                parameter: f.parameter || a.parameter,
            })
        }
        ExprNode::Lam(_, a, b) | ExprNode::Pi(_, a, b) => {
            let a = a.summary();
            let b = b.summary();
            Some(Summary {
                nodes: a.nodes.checked_add(b.nodes)?.checked_add(1)?,
                depth: a.depth.max(b.depth).checked_add(1)?,
                loose: a.loose.max(b.loose.saturating_sub(1)),
                free: a.free.max(b.free),
                metavariable: a.metavariable || b.metavariable,
                level_metavariable: a.level_metavariable || b.level_metavariable,
                parameter: a.parameter || b.parameter,
            })
        }
        ExprNode::Let(_, a, v, b) => {
            let a = a.summary();
            let v = v.summary();
            let b = b.summary();
            Some(Summary {
                nodes: a
                    .nodes
                    .checked_add(v.nodes)?
                    .checked_add(b.nodes)?
                    .checked_add(1)?,
                depth: a.depth.max(v.depth.max(b.depth)).checked_add(1)?,
                loose: a.loose.max(v.loose.max(b.loose.saturating_sub(1))),
                free: a.free.max(v.free.max(b.free)),
                metavariable: a.metavariable || (v.metavariable || b.metavariable),
                level_metavariable: a.level_metavariable
                    || (v.level_metavariable || b.level_metavariable),
                parameter: a.parameter || (v.parameter || b.parameter),
            })
        }
        ExprNode::Lit(_) => Some(LEAF),
        ExprNode::Proj(_, _, t) => {
            let t = t.summary();
            Some(Summary {
                nodes: t.nodes.checked_add(1)?,
                depth: t.depth.checked_add(1)?,
                ..t
            })
        }
    }
}

impl Expr {
    /// The term of this form. `NoMemory` also where its nodes pass a u64 or its depth a u32.
    pub fn of(alloc: Global, node: ExprNode) -> Result<Expr, NoMemory>
        ensures { IfOk result (λ t. t ≡ term_of node) }
    {
        match summarize(&node) {
            Some(summary) => Ok(Expr {
                kept: Arc::new(alloc, KeptTerm { node, summary })?,
            }),
            None => {
                drop(node);
                Err(NoMemory)
            }
        }
    }

    /// The form of the term, with its parts.
    pub fn node(&self) -> &ExprNode
        ensures { term_of result.now ≡ self.now }
    {
        &self.kept.node
    }

    // What is kept beside the form.
    fn summary(&self) -> Summary
        ensures { OfTerm result self.now }
    {
        self.kept.summary
    }

    /// The number of nodes, levels' nodes included.
    pub fn node_count(&self) -> u64
        ensures { result ≡ size.node_count self.now }
    {
        self.summary().nodes
    }

    /// The number of nodes on the longest path, levels' nodes included.
    pub fn depth(&self) -> u32
        ensures { result ≡ size.depth self.now }
    {
        self.summary().depth
    }

    /// One more than the greatest loose bound variable; 0 where none is loose.
    pub fn loose_bound(&self) -> u32
        ensures { result ≡ loose_bound self.now }
    {
        self.summary().loose
    }

    /// One more than the greatest free variable; 0 where there is none.
    pub fn free_bound(&self) -> u32
        ensures { result ≡ free_bound self.now }
    {
        self.summary().free
    }

    /// Whether a metavariable of terms stands in the term.
    pub fn has_metavariable(&self) -> bool
        ensures { result ≡ has_metavariable self.now }
    {
        self.summary().metavariable
    }

    /// Whether a metavariable of levels stands in the term.
    pub fn has_level_metavariable(&self) -> bool
        ensures { result ≡ has_level_metavariable self.now }
    {
        self.summary().level_metavariable
    }

    /// Whether a level parameter stands in the term.
    pub fn has_parameter(&self) -> bool
        ensures { result ≡ has_parameter self.now }
    {
        self.summary().parameter
    }

    /// Whether each loose bound variable is below `under`, each free one below `context`, and there is no metavariable
    /// of terms. It takes constant time, as what it reads is kept.
    #[tactic(auto, using(crate::proofs::Scopes::scoped_by, crate::proofs::Scopes::scoped_loose, crate::proofs::Scopes::scoped_free, crate::proofs::Scopes::scoped_complete))]
    pub fn is_scoped(&self, under: u32, context: u32) -> bool
        ensures { IsTrue result ↔ Scoped under context self.now }
    {
        if self.loose_bound() > under || self.free_bound() > context {
            return false;
        }
        !self.has_metavariable()
    }

    /// The variable of the binder `index` binders out.
    pub fn bound(alloc: Global, index: u32) -> Result<Expr, NoMemory>
        ensures { IfOk result (λ t. t ≡ bound index) }
    {
        Expr::of(alloc, ExprNode::Bound(index))
    }

    /// The variable at this place of the context.
    pub fn free(alloc: Global, place: u32) -> Result<Expr, NoMemory>
        ensures { IfOk result (λ t. t ≡ free place) }
    {
        Expr::of(alloc, ExprNode::Free(place))
    }

    /// The metavariable of this number.
    pub fn meta(alloc: Global, number: u32) -> Result<Expr, NoMemory>
        ensures { IfOk result (λ t. t ≡ meta number) }
    {
        Expr::of(alloc, ExprNode::Meta(number))
    }

    /// `Sort level`.
    pub fn sort(alloc: Global, level: Level) -> Result<Expr, NoMemory>
        ensures { IfOk result (λ t. t ≡ sort level) }
    {
        Expr::of(alloc, ExprNode::Sort(level))
    }

    /// The constant of this name at these levels.
    pub fn constant(alloc: Global, name: Name, levels: Items<Level>) -> Result<Expr, NoMemory>
        ensures { IfOk result (λ t. t ≡ const name levels) }
    {
        Expr::of(alloc, ExprNode::Const(name, levels))
    }

    /// `f a`.
    pub fn app(alloc: Global, f: Expr, a: Expr) -> Result<Expr, NoMemory>
        ensures { IfOk result (λ t. t ≡ app f a) }
    {
        Expr::of(alloc, ExprNode::App(f, a))
    }

    /// `fun (x : a) => b`.
    pub fn lam(alloc: Global, x: Binder, a: Expr, b: Expr) -> Result<Expr, NoMemory>
        ensures { IfOk result (λ t. t ≡ lam x a b) }
    {
        Expr::of(alloc, ExprNode::Lam(x, a, b))
    }

    /// `∀ (x : a), b`.
    pub fn pi(alloc: Global, x: Binder, a: Expr, b: Expr) -> Result<Expr, NoMemory>
        ensures { IfOk result (λ t. t ≡ pi x a b) }
    {
        Expr::of(alloc, ExprNode::Pi(x, a, b))
    }

    /// `let x : a := v; b`.
    pub fn let_in(alloc: Global, x: Binder, a: Expr, v: Expr, b: Expr) -> Result<Expr, NoMemory>
        ensures { IfOk result (λ t. t ≡ letin x a v b) }
    {
        Expr::of(alloc, ExprNode::Let(x, a, v, b))
    }

    /// The literal of `Nat`.
    pub fn lit(alloc: Global, number: u128) -> Result<Expr, NoMemory>
        ensures { IfOk result (λ t. t ≡ lit number) }
    {
        Expr::of(alloc, ExprNode::Lit(number))
    }

    /// The field of this place, from 0, of `t` as one of the structure.
    pub fn proj(alloc: Global, structure: Name, field: u32, t: Expr) -> Result<Expr, NoMemory>
        ensures { IfOk result (λ p. p ≡ proj structure field t) }
    {
        Expr::of(alloc, ExprNode::Proj(structure, field, t))
    }

    // Whether the same is kept beside the two, as it is beside equal terms.
    #[tactic(auto, using(crate::proofs::Trees::terms_apart))]
    fn may_be(&self, other: &Expr) -> bool
        ensures apart { (self.now ≡ other.now) → IsTrue result }
        ensures tested { result ≡ false → same self.now other.now ≡ false }
    {
        self.summary().is(other.summary())
    }

    /// Whether the two terms are the same tree, binder names and kinds included. Terms of which something else is
    /// kept aren't walked.
    pub fn is(&self, other: &Expr) -> bool
        ensures exact { IsTrue result ↔ (self.now ≡ other.now) }
        ensures same { result ≡ same self.now other.now }
    {
        self.may_be(other)
            && match (self.node(), other.node()) {
                (ExprNode::Bound(j), ExprNode::Bound(k)) => *j == *k,
                (ExprNode::Free(j), ExprNode::Free(k)) => *j == *k,
                (ExprNode::Meta(j), ExprNode::Meta(k)) => *j == *k,
                (ExprNode::Sort(l), ExprNode::Sort(m)) => l.is(m),
                (ExprNode::Const(c, ls), ExprNode::Const(d, ms)) => {
                    c.is(d) && same_levels(ls.as_slice(), ms.as_slice())
                }
                (ExprNode::App(f, a), ExprNode::App(g, b)) => f.is(g) && a.is(b),
                (ExprNode::Lam(x, a, b), ExprNode::Lam(y, c, d)) => x.is(y) && a.is(c) && b.is(d),
                (ExprNode::Pi(x, a, b), ExprNode::Pi(y, c, d)) => x.is(y) && a.is(c) && b.is(d),
                (ExprNode::Let(x, a, v, b), ExprNode::Let(y, c, w, d)) => {
                    x.is(y) && a.is(c) && v.is(w) && b.is(d)
                }
                (ExprNode::Lit(m), ExprNode::Lit(n)) => *m == *n,
                (ExprNode::Proj(r, i, t), ExprNode::Proj(s, j, u)) => r.is(s)
                    && *i == *j
                    && t.is(u),
                _ => false,
            }
    }

    /// The same term; copies share their nodes. It takes no memory, but a count of owners that is at its end is refused.
    pub fn copy(&self, _alloc: Global) -> Result<Expr, NoMemory>
        ensures { IfOk result (λ t. t ≡ self.now) }
    {
        Ok(Expr {
            kept: Arc::try_clone(&self.kept)?,
        })
    }
}

impl Copied for Expr {
    fn copied(&self, alloc: Global) -> Result<Expr, NoMemory> {
        self.copy(alloc)
    }
}
