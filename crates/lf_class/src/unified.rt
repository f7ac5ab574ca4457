//! What is left of a candidate after unification, and the term that it gives.
ghost use Rattle.std.specs.Prelude.{◌≡◌, OnOk, is_some};
ghost use Rattle.lf_checker.specs.Run as checker;
ghost use Rattle.lf_elaboration.specs.Metavariables as terms;
ghost use Rattle.lf_resolution.specs.Attempt as attempts;
ghost use Rattle.lf_resolution.specs.Walk as spec;
ghost use Rattle.lf_steps.specs.Runs.{Runs, Calm};

use crate::attempt::{Attempt, Given};
use crate::candidate::has_any_metavariable;
use lf_core::{BinderKind, Expr, NoMemory};
use lf_meta::Metas;
use lf_steps::{Halt, out, paid};
use sqlite_items::Items;

fn is_inst(kind: BinderKind) -> bool
    ensures { result ≡ attempts.is_inst kind }
{
    match kind {
        BinderKind::Inst => true,
        BinderKind::Explicit | BinderKind::Implicit => false,
    }
}

// Whether each that isn't in brackets is assigned.
fn all_given(metas: &Metas, given: &[Given]) -> bool
    ensures { result ≡ attempts.all_given metas.now given.now }
{
    for one in given {
        if !is_inst(one.kind) && metas.value(one.number).is_none() {
            return false;
        }
    }
    true
}

// Whether a metavariable of levels isn't assigned.
#[tactic(auto, using(crate::proofs::Settled::level_passed, crate::proofs::Settled::level_found, crate::proofs::Settled::level_ended))]
fn level_unassigned(metas: &Metas) -> bool
    ensures { result ≡ terms.level_unassigned metas.now 0 }
{
    let count = metas.level_count();
    let mut k = 0u32;
    'numbers: while k < count {
        if metas.level_value(k).is_none() {
            return true;
        }
        k += 1;
    }
    false
}

/// Whether no metavariable is left open: of those that aren't in brackets, and of levels.
pub fn is_settled(attempt: &Attempt) -> bool
    ensures { result ≡ attempts.is_settled attempt.now.changes attempt.now.given }
{
    all_given(&attempt.metas, attempt.given.as_slice()) && !level_unassigned(&attempt.metas)
}

/// Those in brackets.
pub fn in_brackets(given: &mut Vec<Given>)
    ensures { given.new.items ≡ attempts.in_brackets given.old.items }
{
    given.retain(|one| is_inst(one.kind));
}

// The term with its assigned metavariables put in, which costs its nodes.
#[tactic(auto, using(lf_unify::proofs::Costs::made_out))]
fn put_in(units: &mut u64, metas: &Metas, term: &Expr) -> Result<Expr, Halt>
    ensures value { Runs (checker.made (terms.put_in metas.now term.now) units.old) result units.new }
    ensures calm { Calm result }
{
    match metas.put_within(term, *units)? {
        Some(whole) => Ok(paid(units, whole)?),
        None => Err(out(units)),
    }
}

/// The term with its assigned metavariables put in. It costs its nodes, where one stands in it. Out where there aren't so many
/// units or it is too deep, and NoMemory; no other halt.
#[tactic(auto, using(lf_meta::proofs::Heads::put_in_stays))]
pub fn instantiated(units: &mut u64, metas: &Metas, term: &Expr) -> Result<Expr, Halt>
    ensures value { Runs (spec.instantiated metas.now term.now units.old) result units.new }
    ensures calm { Calm result }
{
    if metas.has_assigned(term) {
        put_in(units, metas, term)
    } else {
        Ok(term.copy(metas.alloc())?)
    }
}

/// The types of these, with what is assigned put in, in order; none where a metavariable is left in one. Each costs its nodes,
/// where something is put in. Out where units or depth don't suffice, and NoMemory; no other halt.
#[tactic(auto, using(lf_steps::proofs::Runs::halts, crate::proofs::Into::all_goals))]
pub fn goals_left(
    units: &mut u64,
    metas: &Metas,
    given: &[Given],
) -> Result<Option<Items<Expr>>, Halt>
    ensures value { Runs (spec.goals_left metas.now given.now units.old) result units.new }
    ensures calm { Calm result }
{
    let mut goals = Items::new(metas.alloc());
    for one in given {
        let goal = instantiated(units, metas, &one.ty)?;
        if has_any_metavariable(&goal) {
            drop(goal);
            drop(goals);
            return Ok(None);
        }
        goals.push(goal)?;
    }
    Ok(Some(goals))
}

// This term for the metavariable, where none stands for it already.
fn keep_new(metas: &mut Metas, number: u32, term: &Expr) -> Result<(), NoMemory>
    ensures { OnOk result (metas.new ≡ attempts.one_more metas.old number term.now (is_some (terms.value metas.old number))) }
{
    if metas.value(number).is_some() {
        return Ok(());
    }
    let term = term.copy(metas.alloc())?;
    metas.keep(number, term)
}

/// These terms for the metavariables, in order, each where none stands for it already.
pub fn with_terms(metas: &mut Metas, given: &[Given], terms: &[Expr]) -> Result<(), NoMemory>
    ensures { OnOk result (metas.new ≡ attempts.with_terms metas.old given.now terms.now) }
{
    let mut rest = given;
    let mut left = terms;
    'given: loop {
        match rest {
            [] => return Ok(()),
            [one, others @ ..] => match left {
                [] => return Ok(()),
                [term, more @ ..] => {
                    keep_new(metas, one.number, term)?;
                    rest = others;
                    left = more;
                }
            },
        }
    }
}
