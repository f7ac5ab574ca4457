//! Injection on an equation of two applications of one constructor.
ghost use Rattle.std.specs.Prelude.{◌≡◌, ◌≤◌, ◌++◌, ◌∷◌, [], Some, None, IfOk, drop};
ghost use Rattle.lf_core.specs.Term.{free};
ghost use Rattle.lf_core.specs.Spine as spine;
ghost use Rattle.lf_checker.specs.Calls.{see, known};
ghost use Rattle.lf_checker.specs.Checker.{calls};
ghost use Rattle.lf_checker.specs.Extends.{shape_of};
ghost use Rattle.lf_elaboration.specs.Forms as forms;
ghost use Rattle.lf_elaboration.specs.Identifiers.{is_realized};
ghost use Rattle.lf_elaboration.specs.Injection as spec;
ghost use Rattle.lf_items.specs.Values as values;
ghost use Rattle.lf_steps.specs.Runs.{Runs, Rose, Calm};

use crate::codomain::codomain_at;
use crate::equation::{Equation, as_equation};
use crate::form::{Instance, as_constant};
use crate::lists::{behind, first, push_all};
use crate::names::injectivity_of;
use crate::rewriting::explicit;
use crate::step::Step;
use lf_base::Stop;
use lf_check::{Cx, whnf_within};
use lf_core::{ConstInfo, Detail, Expr, Level, Name, NoMemory, copy_all, same_levels};
use lf_env::View;
use lf_steps::{Halt, Seen, apply, arguments, at_levels, head, need, put, see};
use std::alloc::Global;

fn same_trees(a: &[Expr], b: &[Expr]) -> bool
    ensures { result ≡ spec.same_trees a.now b.now }
{
    match a {
        [] => match b {
            [] => true,
            [_y, _ys @ ..] => false,
        },
        [x, xs @ ..] => match b {
            [] => false,
            [y, ys @ ..] => x.is(y) && same_trees(xs, ys),
        },
    }
}

// Whether the constants are one constructor at one list of levels, at all its arguments, with the same parameters.
fn built_alike(
    left: Instance<'_>,
    right: Instance<'_>,
    xs: &[Expr],
    ys: &[Expr],
    detail: &Detail,
) -> bool
    ensures { result ≡ spec.built_alike (values.instance left.entry) (values.instance right.entry) xs.now ys.now detail.now }
{
    match detail {
        Detail::Ctor { params, fields, .. } => {
            let count = *params as usize + *fields as usize;
            left.name.is(right.name)
                && (same_levels(left.levels, right.levels)
                    && (xs.len() == count
                        && (ys.len() == count
                            && same_trees(
                                first(*params as usize, xs),
                                first(*params as usize, ys),
                            ))))
        }
        Detail::Plain | Detail::Ind { .. } | Detail::Rec { .. } => false,
    }
}

fn params_in(detail: &Detail) -> u32
    ensures { result ≡ spec.params_in detail.now }
{
    match detail {
        Detail::Ctor { params, .. } => *params,
        Detail::Plain | Detail::Ind { .. } | Detail::Rec { .. } => 0,
    }
}

// The arguments of the constant that says so: those of the left side, the fields of the right side, the local.
fn given(
    alloc: Global,
    params: u32,
    local: u32,
    xs: &[Expr],
    ys: &[Expr],
) -> Result<Vec<Expr>, NoMemory>
    ensures { IfOk result (λ all. all.items ≡ xs.now ++ (drop params ys.now ++ free local ∷ [])) }
{
    let mut all = Vec::new(alloc);
    push_all(&mut all, xs)?;
    push_all(&mut all, behind(params as usize, ys))?;
    all.push(Expr::free(alloc, local)?)?;
    Ok(all)
}

// The step to the goal behind what the sides say of each other, which `proof` proves by the constant of this name.
fn step_by(alloc: Global, name: Name, goal: Expr, proof: Expr) -> Result<Step, NoMemory>
    ensures { IfOk result (λ s. s ≡ record { head = None; goals = goal ∷ []; pads = None ∷ []; tail = proof ∷ []; asked = Some name }) }
{
    let mut goals = Vec::new(alloc);
    goals.push(goal)?;
    let mut pads = Vec::new(alloc);
    pads.push(None)?;
    let mut tail = Vec::new(alloc);
    tail.push(proof)?;
    Ok(Step {
        head: None,
        goals,
        pads,
        tail,
        asked: Some(name),
    })
}

#[tactic(auto, using(lf_steps::proofs::Runs::halts))]
fn injected(
    alloc: Global,
    units: &mut u64,
    name: Name,
    goal: &Expr,
    levels: &[Level],
    xs: &[Expr],
    said: &Expr,
) -> Result<Option<Step>, Halt>
    ensures value { Runs (spec.injected name goal.now levels.now xs.now (Some said.now) units.old) result units.new }
    ensures calm { Calm result }
{
    let binder = explicit(alloc, "a")?;
    let over = Expr::pi(alloc, binder, said.copy(alloc)?, goal.copy(alloc)?)?;
    let over = put(units, over)?;
    let constant = Expr::constant(alloc, name.copy(alloc)?, copy_all(alloc, levels)?)?;
    let proof = put(units, apply(alloc, constant, xs)?)?;
    Ok(Some(step_by(alloc, name, over, proof)?))
}

fn is_made(view: &View, name: &Name) -> bool
    ensures { result ≡ is_realized view.now name.now }
{
    match view.placed(name) {
        Some(_) => false,
        None => true,
    }
}

// By the constant that says so, which has to have been made.
#[tactic(auto, using(lf_steps::proofs::Runs::halts))]
fn by_constant(
    alloc: Global,
    view: &View,
    units: &mut u64,
    goal: &Expr,
    name: Name,
    levels: &[Level],
    xs: &[Expr],
    info: &ConstInfo,
) -> Result<Option<Step>, Halt>
    ensures value { Runs (spec.when_made (is_realized view.now name) goal.now name levels.now xs.now info.now.ty units.old) result units.new }
    ensures calm { Calm result }
{
    if !is_made(view, &name) {
        return Ok(None);
    }
    let ty = at_levels(alloc, units, levels, &info.ty)?;
    let said = codomain_at(alloc, units, xs, &ty);
    drop(ty);
    match said? {
        None => Ok(None),
        Some(said) => {
            let step = injected(alloc, units, name, goal, levels, xs, &said);
            drop(said);
            step
        }
    }
}

fn by_injectivity(
    alloc: Global,
    view: &View,
    units: &mut u64,
    goal: &Expr,
    name: Name,
    levels: &[Level],
    xs: &[Expr],
) -> Result<Option<Step>, Halt>
    ensures value { Runs (spec.by_injectivity view.now goal.now name levels.now xs.now (see view.now name) units.old) result units.new }
    ensures calm { Calm result }
{
    match see(alloc, view, &name)? {
        Seen::Known(info) => by_constant(alloc, view, units, goal, name, levels, xs, info),
        Seen::Unknown => Ok(None),
        Seen::Missing(key) => Err(need(units, key)),
    }
}

// Of two constants at these arguments, of which the left is known.
fn by_built(
    alloc: Global,
    view: &View,
    units: &mut u64,
    goal: &Expr,
    local: u32,
    left: Instance<'_>,
    right: Instance<'_>,
    xs: &[Expr],
    ys: &[Expr],
    info: &ConstInfo,
) -> Result<Option<Step>, Halt>
    ensures value { Runs (spec.by_constructors view.now goal.now local (values.instance left.entry) (values.instance right.entry) xs.now ys.now
        (known (shape_of info.now)) units.old) result units.new }
    ensures calm { Calm result }
{
    if !built_alike(left, right, xs, ys, &info.detail) {
        return Ok(None);
    }
    let all = given(alloc, params_in(&info.detail), local, xs, ys)?;
    let name = injectivity_of(alloc, left.name)?;
    let step = by_injectivity(alloc, view, units, goal, name, left.levels, all.as_slice());
    drop(all);
    step
}

fn by_constructors(
    alloc: Global,
    view: &View,
    units: &mut u64,
    goal: &Expr,
    local: u32,
    left: Instance<'_>,
    right: Instance<'_>,
    xs: &[Expr],
    ys: &[Expr],
) -> Result<Option<Step>, Halt>
    ensures value { Runs (spec.by_constructors view.now goal.now local (values.instance left.entry) (values.instance right.entry) xs.now ys.now
        (see view.now left.entry.name.now) units.old) result units.new }
    ensures calm { Calm result }
{
    match see(alloc, view, left.name)? {
        Seen::Known(info) => by_built(alloc, view, units, goal, local, left, right, xs, ys, info),
        Seen::Unknown => Ok(None),
        Seen::Missing(key) => Err(need(units, key)),
    }
}

// By the weak head forms of the sides.
fn by_sides(
    alloc: Global,
    view: &View,
    units: &mut u64,
    goal: &Expr,
    local: u32,
    a: &Expr,
    b: &Expr,
) -> Result<Option<Step>, Halt>
    ensures value { Runs (spec.by_sides view.now goal.now local (forms.as_constant (spine.head_of a.now)) (forms.as_constant (spine.head_of b.now))
        (spine.arguments_of a.now) (spine.arguments_of b.now) units.old) result units.new }
    ensures calm { Calm result }
{
    match as_constant(head(a)) {
        None => Ok(None),
        Some(left) => match as_constant(head(b)) {
            None => Ok(None),
            Some(right) => {
                let xs = arguments(alloc, a)?;
                let ys = arguments(alloc, b)?;
                let (x, y) = (xs.as_slice(), ys.as_slice());
                let step = by_constructors(alloc, view, units, goal, local, left, right, x, y);
                drop(xs);
                drop(ys);
                step
            }
        },
    }
}

#[tactic(auto, using(lf_steps::proofs::Runs::halts))]
fn by_equation<P: Stop>(
    cx: Cx<'_>,
    locals: &mut Vec<Expr>,
    units: &mut u64,
    stop: &mut P,
    goal: &Expr,
    local: u32,
    equation: &Equation,
) -> Result<Option<Step>, Halt>
    ensures value { Runs (spec.by_equation cx.entry.view.now (calls cx.entry.view.now cx.entry.depth) locals.old.items goal.now local (Some equation.now)
        units.old) result units.new }
    ensures kept { locals.new.items ≡ locals.old.items }
    ensures count { P.stops stop.old ≤ P.stops stop.new }
    ensures rose { Rose result (P.stops stop.old) (P.stops stop.new) }
{
    let a = whnf_within(cx, locals, units, stop, true, &equation.left)?;
    let b = whnf_within(cx, locals, units, stop, true, &equation.right)?;
    let step = by_sides(cx.alloc, cx.view, units, goal, local, &a, &b);
    drop(a);
    drop(b);
    step
}

/// Injection on the local of number `local`, of the type `ty`: where that is an equation whose sides are one constructor at
/// one list of levels, at all its arguments and with the same trees as parameters, the goal becomes what the sides say of
/// each other, and then the goal. None exactly where it is no such equation, or where the constant `inj` of the constructor
/// isn't one that was made. Refused and Stopped are those of the weak head forms of the type and the sides; Out where units,
/// nesting or depth don't suffice; Need exactly where the definition's first read that can't be answered yet stands.
#[tactic(auto, using(lf_steps::proofs::Runs::halts))]
pub fn inject<P: Stop>(
    cx: Cx<'_>,
    locals: &mut Vec<Expr>,
    units: &mut u64,
    stop: &mut P,
    goal: &Expr,
    local: u32,
    ty: &Expr,
) -> Result<Option<Step>, Halt>
    ensures value { Runs (spec.inject cx.entry.view.now (calls cx.entry.view.now cx.entry.depth) locals.old.items goal.now local ty.now units.old) result
        units.new }
    ensures kept { locals.new.items ≡ locals.old.items }
    ensures count { P.stops stop.old ≤ P.stops stop.new }
    ensures rose { Rose result (P.stops stop.old) (P.stops stop.new) }
{
    let form = whnf_within(cx, locals, units, stop, true, ty)?;
    let equation = as_equation(cx.alloc, &form);
    drop(form);
    match equation? {
        None => Ok(None),
        Some(equation) => {
            let step = by_equation(cx, locals, units, stop, goal, local, &equation);
            drop(equation);
            step
        }
    }
}
