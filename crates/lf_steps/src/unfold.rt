//! Definitions unfolded at the head of a term.
ghost use Rattle.std.specs.Prelude.{◌≡◌, true, Some, option_map};
ghost use Rattle.lf_checker.specs.View.{lookup_of, body_of, found};
ghost use Rattle.lf_checker.specs.Whnf as whnf;
ghost use Rattle.lf_checker.specs.Equal as spec;
ghost use Rattle.lf_steps.specs.Runs.{Runs, RunsAs, Calm};
ghost use Rattle.lf_steps.specs.Values as values;

use crate::halt::{Halt, need};
use crate::meter::levels_before;
use crate::recursor::Progress;
use crate::seen::{Body, Seen, known_body, see};
use crate::spine::{arguments, head};
use lf_core::{ConstInfo, Expr, ExprNode, Level, Name};
use lf_env::View;
use std::alloc::Global;

/// Whether two terms are equal; or the two that are to be compared in their place; or that no rule decides.
#[derive(Debug, Drop)]
pub enum Verdict {
    Decided(bool),
    Again(Expr, Expr),
    Undecided,
}

/// A definition's value and height.
#[derive(Clone, Copy)]
pub struct Definition<'a> {
    pub value: &'a Expr,
    pub height: u32,
}

/// The constant `name` of the view, unfolded before these arguments where it is a definition.
pub fn unfold_head(
    alloc: Global,
    view: &View,
    units: &mut u64,
    name: &Name,
    info: &ConstInfo,
    levels: &[Level],
    arguments: &[Expr],
) -> Result<Progress, Halt>
    requires { lookup_of view.now name.now ≡ found info.now }
    ensures value { RunsAs values.progress (whnf.delta_turn view.now true name.now levels.now arguments.now units.old) result units.new }
    ensures calm { Calm result }
{
    match known_body(view, name, info) {
        Body::Value(value, _height) => {
            let term = levels_before(alloc, units, levels, value, arguments)?;
            Ok(Progress::Next(term))
        }
        Body::Opaque => Ok(Progress::Stays),
        Body::Unresolved(key) => Err(need(units, key)),
    }
}

fn of_body<'a>(units: &mut u64, body: Body<'a>) -> Result<Option<Definition<'a>>, Halt>
    ensures value { RunsAs (option_map values.definition) (spec.of_body (values.body body.entry) units.old) result units.new }
    ensures calm { Calm result }
{
    match body {
        Body::Value(value, height) => Ok(Some(Definition { value, height })),
        Body::Opaque => Ok(None),
        Body::Unresolved(key) => Err(need(units, key)),
    }
}

/// The definition that heads a term, with as many levels as it takes.
fn definition_of<'a>(
    alloc: Global,
    view: &'a View,
    units: &mut u64,
    head: &Expr,
) -> Result<Option<Definition<'a>>, Halt>
    ensures value { RunsAs (option_map values.definition) (spec.definition_of view.now head.now units.old) result units.new }
    ensures calm { Calm result }
{
    match head.node() {
        ExprNode::Const(name, levels) => match see(alloc, view, name)? {
            Seen::Known(info) => {
                if levels.len() == info.levels.len() {
                    of_body(units, known_body(view, name, info))
                } else {
                    Ok(None)
                }
            }
            Seen::Unknown => Ok(None),
            Seen::Missing(key) => Err(need(units, key)),
        },
        _ => Ok(None),
    }
}

fn levels_of(head: &Expr) -> &[Level]
    ensures { result.now ≡ spec.levels_of head.now }
{
    match head.node() {
        ExprNode::Const(_, levels) => levels.as_slice(),
        _ => &[],
    }
}

// The term with the definition at its head unfolded.
fn unfolded(
    alloc: Global,
    units: &mut u64,
    term: &Expr,
    definition: Definition<'_>,
) -> Result<Expr, Halt>
    ensures value { Runs (spec.unfolded term.now (values.definition definition.entry) units.old) result units.new }
    ensures calm { Calm result }
{
    let arguments = arguments(alloc, term)?;
    let levels = levels_of(head(term));
    levels_before(alloc, units, levels, definition.value, arguments.as_slice())
}

fn unfold_both(
    alloc: Global,
    units: &mut u64,
    a: &Expr,
    b: &Expr,
    d: Definition<'_>,
    e: Definition<'_>,
) -> Result<Verdict, Halt>
    ensures value { RunsAs values.verdict (spec.by_height a.now b.now (Some (values.definition d.entry)) (Some (values.definition e.entry)) units.old) result
        units.new }
    ensures calm { Calm result }
{
    if d.height < e.height {
        let b = unfolded(alloc, units, b, e)?;
        return Ok(Verdict::Again(a.copy(alloc)?, b));
    }
    if e.height < d.height {
        let a = unfolded(alloc, units, a, d)?;
        return Ok(Verdict::Again(a, b.copy(alloc)?));
    }
    let a = unfolded(alloc, units, a, d)?;
    let b = unfolded(alloc, units, b, e)?;
    Ok(Verdict::Again(a, b))
}

fn by_height(
    alloc: Global,
    units: &mut u64,
    a: &Expr,
    b: &Expr,
    left: Option<Definition<'_>>,
    right: Option<Definition<'_>>,
) -> Result<Verdict, Halt>
    ensures value { RunsAs values.verdict (spec.by_height a.now b.now (option_map values.definition left.entry) (option_map values.definition right.entry)
        units.old) result units.new }
    ensures calm { Calm result }
{
    match left {
        Some(d) => match right {
            Some(e) => unfold_both(alloc, units, a, b, d, e),
            None => {
                let a = unfolded(alloc, units, a, d)?;
                Ok(Verdict::Again(a, b.copy(alloc)?))
            }
        },
        None => match right {
            Some(e) => {
                let b = unfolded(alloc, units, b, e)?;
                Ok(Verdict::Again(a.copy(alloc)?, b))
            }
            None => Ok(Verdict::Undecided),
        },
    }
}

/// The two terms with the definition of greater height at a head unfolded, at equal heights both.
pub fn by_unfolding(
    alloc: Global,
    view: &View,
    units: &mut u64,
    a: &Expr,
    b: &Expr,
) -> Result<Verdict, Halt>
    ensures value { RunsAs values.verdict (spec.by_unfolding view.now a.now b.now units.old) result units.new }
    ensures calm { Calm result }
{
    let left = definition_of(alloc, view, units, head(a))?;
    let right = definition_of(alloc, view, units, head(b))?;
    by_height(alloc, units, a, b, left, right)
}
