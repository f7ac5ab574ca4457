//! What the head of a term asks for, before any nested call.
ghost use Rattle.std.specs.Prelude.{◌≡◌, ◌∷◌, []};
ghost use Rattle.lf_checker.specs.Calls.{see as spec_see};
ghost use Rattle.lf_check.specs.Tower as tower;
ghost use Rattle.lf_checker.specs.View.{lookup_of, found};
ghost use Rattle.lf_core.specs.Substitution.{instantiate};
ghost use Rattle.lf_checker.specs.Run.{made_before};
ghost use Rattle.lf_checker.specs.Whnf.{delta_turn as spec_delta};
ghost use Rattle.lf_steps.specs.Runs.{RunsAs, Calm};
ghost use Rattle.lf_steps.specs.Values as values;
ghost use Rattle.lf_check.specs.Steps as steps;
ghost use Rattle.lf_check.specs.Values as own;

use lf_core::{ConstInfo, Detail, Expr, ExprNode, Level, Name};
use lf_env::View;
use lf_lit::operation;
use lf_steps::{
    Halt, Progress, Recursor, Seen, arguments, head, instance_before, is_succ_name, need, see,
    shared, unfold_head,
};
use std::alloc::Global;

/// What the head of a term asks for: nothing more; a recursor's rule, at these levels, with the place of its major
/// premise among the arguments; an operation on two numbers; or the field of a projection before these arguments.
#[derive(Drop)]
pub enum Step<'a> {
    Ready(Progress),
    Recurse(&'a [Level], Recursor<'a>, usize, Vec<Expr>),
    Operate(&'a Name, Expr, Expr),
    Project(&'a Name, u32, &'a Expr, Vec<Expr>),
}

// The constant unfolded, where that is wanted.
fn unfolded<'a>(
    alloc: Global,
    view: &View,
    units: &mut u64,
    delta: bool,
    name: &Name,
    info: &ConstInfo,
    levels: &[Level],
    arguments: &[Expr],
) -> Result<Step<'a>, Halt>
    requires { lookup_of view.now name.now ≡ found info.now }
    ensures value { RunsAs own.step (steps.readied (spec_delta view.now delta name.now levels.now arguments.now) units.old) result units.new }
    ensures calm { Calm result }
{
    if delta {
        let turned = unfold_head(alloc, view, units, name, info, levels, arguments)?;
        Ok(Step::Ready(turned))
    } else {
        Ok(Step::Ready(Progress::Stays))
    }
}

// The constant before one argument, without levels.
fn one_argument<'a>(
    alloc: Global,
    view: &View,
    units: &mut u64,
    delta: bool,
    name: &Name,
    info: &ConstInfo,
    argument: &Expr,
    arguments: &[Expr],
) -> Result<Step<'a>, Halt>
    requires found { lookup_of view.now name.now ≡ found info.now }
    requires one { arguments.now ≡ argument.now ∷ [] }
    ensures value { RunsAs own.step (steps.literal_step name.now [] (argument.now ∷ []) (spec_delta view.now delta name.now [] (argument.now ∷ [])) units.old)
        result units.new }
    ensures calm { Calm result }
{
    match argument.node() {
        ExprNode::Lit(number) => {
            if is_succ_name(name) {
                match number.checked_add(1) {
                    Some(next) => Ok(Step::Ready(Progress::Ends(Expr::lit(alloc, next)?))),
                    None => unfolded(alloc, view, units, delta, name, info, &[], arguments),
                }
            } else {
                unfolded(alloc, view, units, delta, name, info, &[], arguments)
            }
        }
        _ => unfolded(alloc, view, units, delta, name, info, &[], arguments),
    }
}

fn two_arguments<'a>(
    alloc: Global,
    view: &View,
    units: &mut u64,
    delta: bool,
    name: &'a Name,
    info: &ConstInfo,
    x: &Expr,
    y: &Expr,
    arguments: &[Expr],
) -> Result<Step<'a>, Halt>
    requires found { lookup_of view.now name.now ≡ found info.now }
    requires two { arguments.now ≡ x.now ∷ y.now ∷ [] }
    ensures value { RunsAs own.step (steps.literal_step name.now [] (x.now ∷ y.now ∷ []) (spec_delta view.now delta name.now [] (x.now ∷ y.now ∷ []))
        units.old) result units.new }
    ensures calm { Calm result }
{
    if operation(name).is_some() {
        Ok(Step::Operate(name, x.copy(alloc)?, y.copy(alloc)?))
    } else {
        unfolded(alloc, view, units, delta, name, info, &[], arguments)
    }
}

fn literal_step<'a>(
    alloc: Global,
    view: &View,
    units: &mut u64,
    delta: bool,
    name: &'a Name,
    info: &ConstInfo,
    levels: &[Level],
    arguments: &[Expr],
) -> Result<Step<'a>, Halt>
    requires found { lookup_of view.now name.now ≡ found info.now }
    ensures value { RunsAs own.step (steps.literal_step name.now levels.now arguments.now (spec_delta view.now delta name.now levels.now arguments.now)
        units.old) result units.new }
    ensures calm { Calm result }
{
    match levels {
        [] => match arguments {
            [x] => one_argument(alloc, view, units, delta, name, info, x, arguments),
            [x, y] => two_arguments(alloc, view, units, delta, name, info, x, y, arguments),
            _ => unfolded(alloc, view, units, delta, name, info, levels, arguments),
        },
        [_, ..] => unfolded(alloc, view, units, delta, name, info, levels, arguments),
    }
}

fn detail_step<'a>(
    alloc: Global,
    view: &View,
    units: &mut u64,
    delta: bool,
    name: &'a Name,
    info: &'a ConstInfo,
    levels: &'a [Level],
    arguments: Vec<Expr>,
) -> Result<Step<'a>, Halt>
    requires found { lookup_of view.now name.now ≡ found info.now }
    ensures value { RunsAs own.step (steps.detail_step view.now delta name.now levels.now arguments.items info.now.detail units.old) result units.new }
    ensures calm { Calm result }
{
    match &info.detail {
        Detail::Rec {
            ind,
            params,
            minors,
            indices,
            rules,
        } => {
            let recursor = Recursor {
                ind,
                params: *params,
                minors: *minors,
                indices: *indices,
                rules: rules.as_slice(),
            };
            let at = shared(recursor) + *indices as usize;
            Ok(Step::Recurse(levels, recursor, at, arguments))
        }
        Detail::Plain | Detail::Ind { .. } | Detail::Ctor { .. } => {
            let arguments = arguments.as_slice();
            literal_step(alloc, view, units, delta, name, info, levels, arguments)
        }
    }
}

fn constant_step<'a>(
    alloc: Global,
    view: &'a View,
    units: &mut u64,
    delta: bool,
    name: &'a Name,
    levels: &'a [Level],
    arguments: Vec<Expr>,
) -> Result<Step<'a>, Halt>
    ensures value { RunsAs own.step (steps.constant_step view.now delta name.now levels.now arguments.items (spec_see view.now name.now) units.old) result
        units.new }
    ensures calm { Calm result }
{
    match see(alloc, view, name)? {
        Seen::Known(info) => {
            if levels.len() == info.levels.len() {
                detail_step(alloc, view, units, delta, name, info, levels, arguments)
            } else {
                Ok(Step::Ready(Progress::Stays))
            }
        }
        Seen::Unknown => Ok(Step::Ready(Progress::Stays)),
        Seen::Missing(key) => Err(need(units, key)),
    }
}

// A body with `arg` for its variable, before these arguments.
fn next_instance<'a>(
    alloc: Global,
    units: &mut u64,
    body: &Expr,
    arg: &Expr,
    arguments: &[Expr],
) -> Result<Step<'a>, Halt>
    ensures value { RunsAs own.step (steps.next_step (made_before arguments.now (instantiate body.now arg.now)) units.old) result units.new }
    ensures calm { Calm result }
{
    let term = instance_before(alloc, units, body, arg, arguments)?;
    Ok(Step::Ready(Progress::Next(term)))
}

// A lambda before its arguments.
fn applied<'a>(
    alloc: Global,
    units: &mut u64,
    body: &Expr,
    arguments: &[Expr],
) -> Result<Step<'a>, Halt>
    ensures value { RunsAs own.step (steps.lambda_step body.now arguments.now units.old) result units.new }
    ensures calm { Calm result }
{
    match arguments {
        [] => Ok(Step::Ready(Progress::Stays)),
        [a, rest @ ..] => next_instance(alloc, units, body, a, rest),
    }
}

/// What the head of a term asks for. With `delta` a definition there is unfolded. What is made costs its nodes.
#[tactic(auto, unfolding(crate::specs::Tower::head_step))]
pub fn head_step<'a>(
    alloc: Global,
    view: &'a View,
    units: &mut u64,
    delta: bool,
    term: &'a Expr,
) -> Result<Step<'a>, Halt>
    ensures value { RunsAs own.step (tower.head_step view.now delta term.now units.old) result units.new }
    ensures calm { Calm result }
{
    let arguments = arguments(alloc, term)?;
    match head(term).node() {
        ExprNode::Let(_, _, value, body) => {
            next_instance(alloc, units, body, value, arguments.as_slice())
        }
        ExprNode::Lam(_, _, body) => applied(alloc, units, body, arguments.as_slice()),
        ExprNode::Const(name, levels) => {
            constant_step(
                alloc,
                view,
                units,
                delta,
                name,
                levels.as_slice(),
                arguments,
            )
        }
        ExprNode::Proj(structure, field, inner) => {
            Ok(Step::Project(structure, *field, inner, arguments))
        }
        ExprNode::Bound(_)
        | ExprNode::Free(_)
        | ExprNode::Meta(_)
        | ExprNode::Sort(_)
        | ExprNode::App(_, _)
        | ExprNode::Pi(_, _, _)
        | ExprNode::Lit(_) => Ok(Step::Ready(Progress::Stays)),
    }
}
