//! What the constructors of an inductive type leave to be proved.
ghost use Rattle.std.specs.Prelude.{◌≡◌, IfOk, []};
ghost use Rattle.lf_core.specs.Spine as spine;
ghost use Rattle.lf_core.specs.Substitution.{instantiate as instance_of};
ghost use Rattle.lf_core.specs.Term.{sort, level_zero};
ghost use Rattle.lf_checker.specs.Run as run;
ghost use Rattle.lf_elaboration.specs.Induction as spec;
ghost use Rattle.lf_steps.specs.Runs.{Runs, Calm};

use crate::motive::{made_with_motive, with_motive};
use lf_core::{Expr, ExprNode, Level, Name, NoMemory};
use lf_env::View;
use lf_items::{as_pi, fields_of, first_lambdas};
use lf_recursor::pi_count;
use lf_steps::Halt;
use lf_subst::instantiate;
use std::alloc::Global;
use std::marker::Model;

/// The goals of the constructors, in order, and the pads that their proofs are put in.
#[derive(Debug, Drop)]
pub struct Cases {
    pub goals: Vec<Expr>,
    pub pads: Vec<Option<Expr>>,
}

impl Model for Cases {
    ghost use Rattle.std.specs.Coded.{codes};
    ghost use Rattle.lf_core.specs.Codes.{coded_term};
    ghost use Rattle.lf_elaboration.specs.Induction.{Cases as CasesValue};

    ghost Value = { CasesValue };

    ghost coded = { Prim.hlevel (codes, coded_term) };

    ghost view = { λ c. record { goals = c.goals.items; pads = c.pads.items } };
}

fn no_cases(alloc: Global) -> Cases
    ensures { result ≡ record { goals = []; pads = [] } }
{
    Cases {
        goals: Vec::new(alloc),
        pads: Vec::new(alloc),
    }
}

// One more goal before the others.
fn with_case(goal: Expr, pad: Option<Expr>, cases: Option<Cases>) -> Result<Option<Cases>, NoMemory>
    ensures { IfOk result (λ c. c ≡ spec.with_case goal pad cases) }
{
    match cases {
        None => {
            drop(goal);
            drop(pad);
            Ok(None)
        }
        Some(cases) => {
            let Cases { goals, pads } = cases;
            let mut all = goals;
            all.insert(0, goal)?;
            let mut rest = pads;
            rest.insert(0, pad)?;
            Ok(Some(Cases {
                goals: all,
                pads: rest,
            }))
        }
    }
}

// The body of a binder whose variable nothing speaks of. What is left is no deeper than a minor premise, which was made.
fn behind_one(alloc: Global, body: &Expr) -> Result<Expr, NoMemory>
    ensures { IfOk result (λ t. t ≡ instance_of body.now (sort level_zero)) }
{
    let unused = Expr::sort(alloc, Level::zero(alloc)?)?;
    let left = instantiate(alloc, body, &unused, 18446744073709551615);
    drop(unused);
    match left {
        Ok((left, _)) => Ok(left),
        Err(_) => Err(NoMemory),
    }
}

// What stands behind so many hypotheses.
#[tactic(auto, using(crate::proofs::Minors::one_behind, crate::proofs::Minors::no_pi_behind))]
fn behind_hypotheses(alloc: Global, n: u32, term: &Expr) -> Result<Expr, NoMemory>
    ensures { IfOk result (λ t. t ≡ spec.behind_hypotheses n term.now) }
{
    if n == 0 {
        return term.copy(alloc);
    }
    match term.node() {
        ExprNode::Pi(_, _, body) => {
            let rest = behind_one(alloc, body)?;
            let left = behind_hypotheses(alloc, n - 1, &rest);
            drop(rest);
            left
        }
        _ => term.copy(alloc),
    }
}

// The minor premise of so many fields without its hypotheses.
#[tactic(auto, using(crate::proofs::Minors::no_field, crate::proofs::Minors::one_field, crate::proofs::Minors::no_pi))]
fn without_hypotheses(alloc: Global, fields: u32, minor: &Expr) -> Result<Expr, NoMemory>
    ensures { IfOk result (λ t. t ≡ spec.without_hypotheses fields minor.now) }
{
    if fields == 0 {
        let count = pi_count(minor).ok_or(NoMemory)?;
        return behind_hypotheses(alloc, count, minor);
    }
    match minor.node() {
        ExprNode::Pi(x, a, b) => {
            let rest = without_hypotheses(alloc, fields - 1, b)?;
            Expr::pi(alloc, x.copy(alloc)?, a.copy(alloc)?, rest)
        }
        _ => minor.copy(alloc),
    }
}

// The term applied to the variables of so many fields, behind which so many hypotheses stand.
#[tactic(auto, using(crate::proofs::Minors::one_variable))]
fn at_fields(alloc: Global, term: Expr, fields: u32, hypotheses: u32) -> Result<Expr, NoMemory>
    ensures { IfOk result (λ t. t ≡ spine.apply term (spec.field_variables fields hypotheses)) }
{
    let mut whole = term;
    let mut left = fields;
    'fields: while left > 0 {
        left -= 1;
        let index = left.checked_add(hypotheses).ok_or(NoMemory)?;
        whole = Expr::app(alloc, whole, Expr::bound(alloc, index)?)?;
    }
    Ok(whole)
}

// `fun xs hs => g xs` over the first `n` binders of a minor premise, with g loose.
fn pad(alloc: Global, n: u32, minor: &Expr, fields: u32) -> Result<Expr, NoMemory>
    ensures { IfOk result (λ t. t ≡ spec.pad n minor.now fields) }
{
    let proof = Expr::bound(alloc, n)?;
    let body = at_fields(alloc, proof, fields, n.saturating_sub(fields))?;
    first_lambdas(alloc, n, minor, body)
}

// The pad of the minor premise of so many fields.
fn case_pad(
    alloc: Global,
    hyps: bool,
    motive: &Expr,
    minor: &Expr,
    fields: u32,
) -> Result<Option<Expr>, NoMemory>
    ensures { IfOk result (λ p. p ≡ spec.case_pad hyps motive.now minor.now fields) }
{
    if hyps {
        return Ok(None);
    }
    let count = pi_count(minor).ok_or(NoMemory)?;
    if count == fields {
        return Ok(None);
    }
    let whole = with_motive(alloc, motive, minor)?;
    let made = pad(alloc, count, &whole, fields);
    drop(whole);
    Ok(Some(made?))
}

// What a minor premise of so many fields leaves to be proved, with the motive put in.
#[tactic(auto, using(lf_steps::proofs::Runs::halts))]
fn case_goal(
    alloc: Global,
    units: &mut u64,
    hyps: bool,
    motive: &Expr,
    minor: &Expr,
    fields: u32,
) -> Result<Expr, Halt>
    ensures value { Runs (run.made (spec.with_motive motive.now (spec.case_goal hyps minor.now fields)) units.old) result units.new }
    ensures calm { Calm result }
{
    if hyps {
        return made_with_motive(alloc, units, motive, minor);
    }
    let bare = without_hypotheses(alloc, fields, minor)?;
    let goal = made_with_motive(alloc, units, motive, &bare);
    drop(bare);
    goal
}

/// What these constructors leave to be proved, of which the type has the minor premises still; without hypotheses where
/// `hyps` is false. Each costs the nodes of its goal. None where a name is no constructor, or where minor premises are
/// missing. Out, Need and NoMemory; no other halt.
#[tactic(auto, using(lf_steps::proofs::Runs::halts))]
pub fn cases_for(
    alloc: Global,
    view: &View,
    units: &mut u64,
    hyps: bool,
    motive: &Expr,
    constructors: &[Name],
    ty: &Expr,
) -> Result<Option<Cases>, Halt>
    ensures value { Runs (spec.cases_for view.now hyps motive.now constructors.now ty.now units.old) result units.new }
    ensures calm { Calm result }
{
    match constructors {
        [] => Ok(Some(no_cases(alloc))),
        [constructor, rest @ ..] => match fields_of(alloc, view, units, constructor)? {
            None => Ok(None),
            Some(fields) => match as_pi(ty) {
                None => Ok(None),
                Some(front) => {
                    let goal = case_goal(alloc, units, hyps, motive, front.domain, fields)?;
                    let pad = case_pad(alloc, hyps, motive, front.domain, fields)?;
                    let cases = cases_for(alloc, view, units, hyps, motive, rest, front.body)?;
                    Ok(with_case(goal, pad, cases)?)
                }
            },
        },
    }
}
