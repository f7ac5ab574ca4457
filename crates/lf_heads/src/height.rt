//! Heights of definitions.
ghost use Rattle.std.specs.Prelude.{◌≡◌};
ghost use Rattle.lf_checker.specs.Calls.{see as seen_in};
ghost use Rattle.lf_checker.specs.Checker as spec;
ghost use Rattle.lf_steps.specs.Runs.{Runs, Calm};
ghost use Rattle.lf_steps.specs.Values as values;

use lf_core::{Expr, ExprNode, Name};
use lf_env::View;
use lf_steps::{Body, Halt, Seen, known_body, need, see};
use std::alloc::Global;

fn body_height(units: &mut u64, body: Body<'_>) -> Result<u32, Halt>
    ensures value { Runs (spec.body_height (values.body body.entry) units.old) result units.new }
    ensures calm { Calm result }
{
    match body {
        Body::Value(_, height) => Ok(height),
        Body::Opaque => Ok(0),
        Body::Unresolved(key) => Err(need(units, key)),
    }
}

// The height of a constant that is a definition, and 0 for others.
fn seen_height(alloc: Global, view: &View, units: &mut u64, name: &Name) -> Result<u32, Halt>
    ensures value { Runs (spec.seen_height view.now name.now (seen_in view.now name.now) units.old) result units.new }
    ensures calm { Calm result }
{
    match see(alloc, view, name)? {
        Seen::Known(info) => body_height(units, known_body(view, name, info)),
        Seen::Unknown => Ok(0),
        Seen::Missing(key) => Err(need(units, key)),
    }
}

// The greatest height of the definitions in a term, read from the left. As deep as the term.
#[tactic(auto, using(lf_steps::proofs::Runs::halts))]
fn greatest_height(alloc: Global, view: &View, units: &mut u64, term: &Expr) -> Result<u32, Halt>
    ensures value { Runs (spec.greatest_height view.now term.now units.old) result units.new }
    ensures calm { Calm result }
{
    match term.node() {
        ExprNode::Const(name, _) => seen_height(alloc, view, units, name),
        ExprNode::App(f, a) => {
            let g = greatest_height(alloc, view, units, f)?;
            let h = greatest_height(alloc, view, units, a)?;
            Ok(g.max(h))
        }
        ExprNode::Lam(_, ty, body) | ExprNode::Pi(_, ty, body) => {
            let g = greatest_height(alloc, view, units, ty)?;
            let h = greatest_height(alloc, view, units, body)?;
            Ok(g.max(h))
        }
        ExprNode::Let(_, ty, value, body) => {
            let g = greatest_height(alloc, view, units, ty)?;
            let h = greatest_height(alloc, view, units, value)?;
            let i = greatest_height(alloc, view, units, body)?;
            Ok(g.max(h.max(i)))
        }
        ExprNode::Proj(_, _, inner) => greatest_height(alloc, view, units, inner),
        ExprNode::Bound(_)
        | ExprNode::Free(_)
        | ExprNode::Meta(_)
        | ExprNode::Sort(_)
        | ExprNode::Lit(_) => Ok(0),
    }
}

/// The height of a definition of this value: one more than the greatest of the definitions in it, at most 4294967295.
/// Needs what the first definition whose body isn't known waits for.
#[tactic(auto, using(lf_steps::proofs::Runs::halts))]
pub fn height_of(alloc: Global, view: &View, units: &mut u64, value: &Expr) -> Result<u32, Halt>
    ensures value { Runs (spec.height_of view.now value.now units.old) result units.new }
    ensures calm { Calm result }
{
    let greatest = greatest_height(alloc, view, units, value)?;
    Ok(greatest.saturating_add(1))
}
