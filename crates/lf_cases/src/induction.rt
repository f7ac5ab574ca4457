//! Induction and cases on a local.
ghost use Rattle.std.specs.Prelude.{◌≡◌, ◌≤◌, ◌++◌, ◌∷◌, [], Some, IfOk, OnOk, map};
ghost use Rattle.lf_core.specs.Term.{const, free};
ghost use Rattle.lf_core.specs.Spine as spine;
ghost use Rattle.lf_checker.specs.Calls.{see};
ghost use Rattle.lf_checker.specs.Checker.{calls};
ghost use Rattle.lf_elaboration.specs.Forms as forms;
ghost use Rattle.lf_elaboration.specs.Induction as spec;
ghost use Rattle.lf_cases.specs.Parts as parts;
ghost use Rattle.lf_cases.specs.Values as values;
ghost use Rattle.lf_items.specs.Values as items;
ghost use Rattle.lf_steps.specs.Runs.{Runs, Rose, Calm};

use crate::cases::{Cases, cases_for};
use crate::motive::MOTIVE;
use crate::target::{Target, target_of};
use lf_base::Stop;
use lf_check::{Cx, whnf_within};
use lf_core::{Expr, Level, Name, NoMemory};
use lf_env::View;
use lf_items::{
    Front, Step, as_pi, codomain_at, lambdas_like, push_all, push_levels, recursor_path,
};
use lf_steps::{
    Halt, Seen, abstracted, apply, arguments, at_levels, instance, is_same, need, put, see,
};
use sqlite_items::Items;
use std::alloc::Global;

// Whether every sort is allowed, or the goal is a proposition.
fn allows(alloc: Global, target: &Target<'_>, sort: &Level) -> Result<bool, NoMemory>
    ensures { IfOk result (λ b. b ≡ spec.allows (values.target target.now) sort.now) }
{
    if target.large {
        return Ok(true);
    }
    let zero = Level::zero(alloc)?;
    is_same(alloc, sort, &zero)
}

fn recursor_levels(
    alloc: Global,
    target: &Target<'_>,
    sort: &Level,
) -> Result<Items<Level>, NoMemory>
    ensures { IfOk result (λ ls. ls ≡ spec.recursor_levels (values.target target.now) sort.now) }
{
    let mut all = Items::new(alloc);
    if target.large {
        all.push(sort.copy(alloc)?)?;
        push_levels(alloc, &mut all, target.constant.levels)?;
        return Ok(all);
    }
    push_levels(alloc, &mut all, target.constant.levels)?;
    Ok(all)
}

// The goal, abstracted over the indices and then over the local.
#[tactic(auto, using(lf_steps::proofs::Runs::halts))]
fn abstracted_over(
    alloc: Global,
    units: &mut u64,
    indices: &[u32],
    local: u32,
    goal: &Expr,
) -> Result<Expr, Halt>
    ensures value { Runs (spec.abstracted (indices.now ++ local ∷ []) goal.now units.old) result units.new }
    ensures calm { Calm result }
{
    match indices {
        [] => abstracted(alloc, units, goal, local as usize),
        [k, rest @ ..] => {
            let body = abstracted(alloc, units, goal, *k as usize)?;
            let whole = abstracted_over(alloc, units, rest, local, &body);
            drop(body);
            whole
        }
    }
}

// Puts the variables of these numbers behind `all`.
fn push_variables(all: &mut Vec<Expr>, numbers: &[u32]) -> Result<(), NoMemory>
    ensures { OnOk result (all.new.items ≡ all.old.items ++ map (λ k. free k) numbers.now) }
{
    let alloc = *all.allocator();
    match numbers {
        [] => Ok(()),
        [k, rest @ ..] => {
            all.push(Expr::free(alloc, *k)?)?;
            push_variables(all, rest)
        }
    }
}

// The step with this head to these cases.
fn eliminated(
    alloc: Global,
    target: &Target<'_>,
    head: Expr,
    cases: Cases,
) -> Result<Step, NoMemory>
    ensures { IfOk result (λ s. s ≡ spec.eliminated (values.target target.now) head cases) }
{
    let mut tail = Vec::new(alloc);
    push_variables(&mut tail, target.indices.as_slice())?;
    tail.push(Expr::free(alloc, target.local)?)?;
    let Cases { goals, pads } = cases;
    Ok(Step {
        head: Some(head),
        goals,
        pads,
        tail,
        asked: None,
    })
}

// The recursor at its levels, parameters and motive.
fn recursor_at(
    alloc: Global,
    target: &Target<'_>,
    sort: &Level,
    motive: &Expr,
) -> Result<Expr, NoMemory>
    ensures { IfOk result (λ t. t ≡ spine.apply (const (spec.recursor_of (values.target target.now)) (spec.recursor_levels (values.target target.now) sort.now))
        ((values.target target.now).params ++ motive.now ∷ [])) }
{
    let name = recursor_path(alloc, target.constant.name)?;
    let levels = recursor_levels(alloc, target, sort)?;
    let mut given = Vec::new(alloc);
    push_all(&mut given, target.params)?;
    given.push(motive.copy(alloc)?)?;
    let whole = apply(
        alloc,
        Expr::constant(alloc, name, levels)?,
        given.as_slice(),
    );
    drop(given);
    whole
}

fn by_cases(
    alloc: Global,
    units: &mut u64,
    target: &Target<'_>,
    sort: &Level,
    motive: &Expr,
    cases: Option<Cases>,
) -> Result<Option<Step>, Halt>
    ensures value { Runs (spec.by_cases (values.target target.now) sort.now motive.now cases units.old) result units.new }
    ensures calm { Calm result }
{
    match cases {
        None => Ok(None),
        Some(cases) => {
            let head = put(units, recursor_at(alloc, target, sort, motive)?)?;
            Ok(Some(eliminated(alloc, target, head, cases)?))
        }
    }
}

// The motive: lambdas over the binders of the recursor's own, over the goal.
#[tactic(auto, using(lf_steps::proofs::Runs::halts))]
fn motive_over(
    alloc: Global,
    units: &mut u64,
    target: &Target<'_>,
    own: &Expr,
    goal: &Expr,
) -> Result<Expr, Halt>
    ensures value { Runs (parts.motive_over (values.target target.now) own.now goal.now units.old) result units.new }
    ensures calm { Calm result }
{
    let indices = target.indices.as_slice();
    let body = abstracted_over(alloc, units, indices, target.local, goal)?;
    put(units, lambdas_like(alloc, own, body)?)
}

// The cases of the recursor whose type is this behind the binder of the motive.
#[tactic(auto, using(lf_steps::proofs::Runs::halts))]
fn cases_behind(
    alloc: Global,
    view: &View,
    units: &mut u64,
    hyps: bool,
    target: &Target<'_>,
    motive: &Expr,
    body: &Expr,
) -> Result<Option<Cases>, Halt>
    ensures value { Runs (parts.cases_behind view.now hyps (values.target target.now) motive.now body.now units.old) result units.new }
    ensures calm { Calm result }
{
    let number = Expr::meta(alloc, MOTIVE)?;
    let ty = instance(alloc, units, body, &number);
    drop(number);
    let ty = ty?;
    let cases = cases_for(alloc, view, units, hyps, motive, target.constructors, &ty);
    drop(ty);
    cases
}

#[tactic(auto, using(lf_steps::proofs::Runs::halts, crate::proofs::Eliminations::at_motive_is))]
fn at_motive(
    alloc: Global,
    view: &View,
    units: &mut u64,
    goal: &Expr,
    sort: &Level,
    hyps: bool,
    target: &Target<'_>,
    front: Front<'_>,
) -> Result<Option<Step>, Halt>
    ensures value { Runs (spec.at_motive view.now goal.now sort.now hyps (values.target target.now) (Some (items.front front.entry)) units.old) result
        units.new }
    ensures calm { Calm result }
{
    let motive = motive_over(alloc, units, target, front.domain, goal)?;
    let cases = cases_behind(alloc, view, units, hyps, target, &motive, front.body)?;
    let step = by_cases(alloc, units, target, sort, &motive, cases);
    drop(motive);
    step
}

// By the recursor of this type at the target's parameters.
fn at_params(
    alloc: Global,
    view: &View,
    units: &mut u64,
    goal: &Expr,
    sort: &Level,
    hyps: bool,
    target: &Target<'_>,
    ty: Option<Expr>,
) -> Result<Option<Step>, Halt>
    ensures value { Runs (spec.at_motive view.now goal.now sort.now hyps (values.target target.now) (forms.pi_of ty) units.old) result units.new }
    ensures calm { Calm result }
{
    match ty {
        None => Ok(None),
        Some(ty) => {
            let step = match as_pi(&ty) {
                None => Ok(None),
                Some(front) => at_motive(alloc, view, units, goal, sort, hyps, target, front),
            };
            drop(ty);
            step
        }
    }
}

#[tactic(auto, using(lf_steps::proofs::Runs::halts))]
fn by_type(
    alloc: Global,
    view: &View,
    units: &mut u64,
    goal: &Expr,
    sort: &Level,
    hyps: bool,
    target: &Target<'_>,
    ty: &Expr,
) -> Result<Option<Step>, Halt>
    ensures value { Runs (parts.by_type view.now goal.now sort.now hyps (values.target target.now) ty.now units.old) result units.new }
    ensures calm { Calm result }
{
    let levels = recursor_levels(alloc, target, sort)?;
    let own = at_levels(alloc, units, levels.as_slice(), ty)?;
    drop(levels);
    let rest = codomain_at(alloc, units, target.params, &own);
    drop(own);
    at_params(alloc, view, units, goal, sort, hyps, target, rest?)
}

fn by_recursor(
    alloc: Global,
    view: &View,
    units: &mut u64,
    goal: &Expr,
    sort: &Level,
    hyps: bool,
    target: &Target<'_>,
) -> Result<Option<Step>, Halt>
    ensures value { Runs (spec.by_recursor view.now goal.now sort.now hyps (values.target target.now) (see view.now (spec.recursor_of (values.target target.now)))
        units.old) result units.new }
    ensures calm { Calm result }
{
    let name = recursor_path(alloc, target.constant.name)?;
    let seen = see(alloc, view, &name)?;
    drop(name);
    match seen {
        Seen::Known(info) => by_type(alloc, view, units, goal, sort, hyps, target, &info.ty),
        Seen::Unknown => Ok(None),
        Seen::Missing(key) => Err(need(units, key)),
    }
}

fn by_target(
    alloc: Global,
    view: &View,
    units: &mut u64,
    goal: &Expr,
    sort: &Level,
    hyps: bool,
    target: &Target<'_>,
) -> Result<Option<Step>, Halt>
    ensures value { Runs (spec.by_target view.now goal.now sort.now hyps (Some (values.target target.now)) units.old) result units.new }
    ensures calm { Calm result }
{
    if !allows(alloc, target, sort)? {
        return Ok(None);
    }
    by_recursor(alloc, view, units, goal, sort, hyps, target)
}

// By the weak head form of the local's type.
#[tactic(auto, using(lf_steps::proofs::Runs::halts))]
fn by_form(
    alloc: Global,
    view: &View,
    units: &mut u64,
    locals: &[Expr],
    goal: &Expr,
    sort: &Level,
    local: u32,
    form: &Expr,
    hyps: bool,
) -> Result<Option<Step>, Halt>
    ensures value { Runs (parts.by_form view.now locals.now goal.now sort.now local form.now hyps units.old) result units.new }
    ensures calm { Calm result }
{
    let given = arguments(alloc, form)?;
    match target_of(alloc, view, units, locals, local, form, given.as_slice())? {
        None => Ok(None),
        Some(target) => by_target(alloc, view, units, goal, sort, hyps, &target),
    }
}

/// Induction on the local of number `local`, of the type `ty`, on a goal whose sort has the level `sort`; `cases` where
/// `hyps` is false, which leaves no hypotheses. None exactly where the local's type is no inductive type whose indices are
/// distinct locals on which no other depends, or where it doesn't eliminate into the goal's sort. Refused and Stopped are
/// those of the weak head form of the type; Out where units, nesting or depth don't suffice; Need exactly where the
/// definition's first read that can't be answered yet stands.
#[tactic(auto, using(lf_steps::proofs::Runs::halts))]
pub fn induct<P: Stop>(
    cx: Cx<'_>,
    locals: &mut Vec<Expr>,
    units: &mut u64,
    stop: &mut P,
    goal: &Expr,
    sort: &Level,
    local: u32,
    ty: &Expr,
    hyps: bool,
) -> Result<Option<Step>, Halt>
    ensures value { Runs (spec.induct cx.entry.view.now (calls cx.entry.view.now cx.entry.depth) locals.old.items goal.now sort.now local ty.now hyps
        units.old) result units.new }
    ensures kept { locals.new.items ≡ locals.old.items }
    ensures count { P.stops stop.old ≤ P.stops stop.new }
    ensures rose { Rose result (P.stops stop.old) (P.stops stop.new) }
{
    let form = whnf_within(cx, locals, units, stop, true, ty)?;
    let seen = locals.as_slice();
    let step = by_form(
        cx.alloc, cx.view, units, seen, goal, sort, local, &form, hyps,
    );
    drop(form);
    step
}
