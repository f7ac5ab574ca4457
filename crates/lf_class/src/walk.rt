//! The walk over candidates.
ghost use Rattle.std.specs.Prelude.{◌≡◌, ◌≤◌, IfOk, IfSome, length, option_map};
ghost use Rattle.lf_elaboration.specs.Unifier.{unify};
ghost use Rattle.lf_resolution.specs.Attempt as attempts;
ghost use Rattle.lf_resolution.specs.Walk as spec;
ghost use Rattle.lf_steps.specs.Runs.{Runs, RunsAs, Rose, Calm};
ghost use Rattle.lf_class.specs.Tower as tower;

use crate::attempt::{Attempt, Given, for_pis};
use crate::candidate::{Candidate, has_class, instance_candidate, local_candidate};
use crate::search::Search;
use crate::unified::{goals_left, in_brackets, instantiated, is_settled, with_terms};
use lf_base::Stop;
use lf_check::{Cx, whnf_within};
use lf_core::{Expr, NoMemory};
use lf_meta::Metas;
use lf_steps::{Halt, out};
use lf_unify::{UnifyCx, unify_within};
use sqlite_items::Items;

// The attempt after unification of what is left of its type with the goal, where they can be made equal. Nothing is refused.
#[tactic(auto, using(crate::proofs::Unifies::ends))]
fn unified<P: Stop>(
    check: Cx<'_>,
    locals: &mut Vec<Expr>,
    units: &mut u64,
    stop: &mut P,
    attempt: Attempt,
    goal: &Expr,
) -> Result<Option<Attempt>, Halt>
    ensures value { RunsAs (option_map (λ a. a.changes)) (spec.unifies (unify check.entry.view.now check.entry.depth) locals.old.items attempt goal.now
        units.old) result units.new }
    ensures same { IfOk result (λ o. IfSome o (λ a. (a.term ≡ attempt.term) × (a.given ≡ attempt.given))) }
    ensures kept { locals.new.items ≡ locals.old.items }
    ensures count { P.stops stop.old ≤ P.stops stop.new }
    ensures rose { Rose result (P.stops stop.old) (P.stops stop.new) }
{
    let Attempt {
        term,
        rest,
        given,
        metas,
    } = attempt;
    let mut metas = metas;
    let cx = UnifyCx { check, floor: 0 };
    match unify_within(cx, locals, units, &mut metas, stop, &rest, goal) {
        Ok(true) => Ok(Some(Attempt {
            term,
            rest,
            given,
            metas,
        })),
        Ok(false) => {
            drop(term);
            drop(rest);
            Ok(None)
        }
        // nothing is refused: where the checker would, it is out
        Err(Halt::Refused(refused)) => {
            drop(refused);
            drop(term);
            drop(rest);
            Err(out(units))
        }
        Err(halt) => {
            drop(term);
            drop(rest);
            Err(halt)
        }
    }
}

// The candidate at its metavariables, with these terms for those in brackets.
fn whole_term(
    units: &mut u64,
    metas: Metas,
    given: &[Given],
    terms: &[Expr],
    term: &Expr,
) -> Result<Expr, Halt>
    ensures value { Runs (spec.instantiated (attempts.with_terms metas given.now terms.now) term.now units.old) result units.new }
    ensures calm { Calm result }
{
    let mut metas = metas;
    with_terms(&mut metas, given, terms)?;
    instantiated(units, &metas, term)
}

/// The instance of the goal: the first candidate that answers it, with the instances of what it leaves below it, where so deep
/// a tree is allowed. Each goal nests one deeper. Refused and Stopped are those of a weak head form and of the unifier;
/// Need where the view doesn't tell yet what the walk asks; Out and NoMemory.
#[cycle(walk)]
#[tactic(auto, using(crate::proofs::Towers::resolved_none, crate::proofs::Towers::resolved_out, crate::proofs::Towers::resolved_below))]
pub fn walk<P: Stop>(
    search: Search<'_>,
    locals: &mut Vec<Expr>,
    units: &mut u64,
    stop: &mut P,
    goal: &Expr,
) -> Result<Option<Expr>, Halt>
    ensures value { Runs (tower.resolves search.entry locals.old.items goal.now units.old) result units.new }
    ensures kept { locals.new.items ≡ locals.old.items }
    ensures count { P.stops stop.old ≤ P.stops stop.new }
    ensures rose { Rose result (P.stops stop.old) (P.stops stop.new) }
{
    if search.trees == 0 {
        return Ok(None);
    }
    if search.check.depth == 0 {
        return Err(out(units));
    }
    let found = walk_goal(search.below(), locals, units, stop, goal)?;
    Ok(found)
}

// The goal's candidates, where the head of its weak head form is a class.
#[cycle(walk)]
#[tactic(auto, using(lf_steps::proofs::Runs::halts, crate::proofs::Towers::goal_tried), unfolding(crate::specs::Tower::walk_goal))]
pub fn walk_goal<P: Stop>(
    search: Search<'_>,
    locals: &mut Vec<Expr>,
    units: &mut u64,
    stop: &mut P,
    goal: &Expr,
) -> Result<Option<Expr>, Halt>
    ensures value { Runs (tower.walk_goal search.entry locals.old.items goal.now units.old) result units.new }
    ensures kept { locals.new.items ≡ locals.old.items }
    ensures count { P.stops stop.old ≤ P.stops stop.new }
    ensures rose { Rose result (P.stops stop.old) (P.stops stop.new) }
{
    let form = whnf_within(search.check, locals, units, stop, true, goal)?;
    let is_class = has_class(search, units, &form);
    drop(form);
    if !is_class? {
        return Ok(None);
    }
    let found = try_all(search, locals, units, stop, goal)?;
    Ok(found)
}

// The locals, the latest first, and then the instances.
#[cycle(walk)]
#[tactic(auto, using(lf_steps::proofs::Runs::halts, crate::proofs::Towers::all_passed), unfolding(crate::specs::Tower::try_all))]
pub fn try_all<P: Stop>(
    search: Search<'_>,
    locals: &mut Vec<Expr>,
    units: &mut u64,
    stop: &mut P,
    goal: &Expr,
) -> Result<Option<Expr>, Halt>
    ensures value { Runs (tower.try_all search.entry locals.old.items goal.now units.old) result units.new }
    ensures kept { locals.new.items ≡ locals.old.items }
    ensures count { P.stops stop.old ≤ P.stops stop.new }
    ensures rose { Rose result (P.stops stop.old) (P.stops stop.new) }
{
    match try_locals(search, locals, units, stop, goal)? {
        Some(found) => Ok(Some(found)),
        None => {
            let found = try_instances(search, locals, units, stop, goal)?;
            Ok(found)
        }
    }
}

// The locals, the latest first.
#[cycle(walk)]
#[tactic(auto, using(crate::proofs::Towers::no_local, crate::proofs::Towers::local_halts, crate::proofs::Towers::local_tried_halts, crate::proofs::Towers::local_found, crate::proofs::Towers::local_passed))]
pub fn try_locals<P: Stop>(
    search: Search<'_>,
    locals: &mut Vec<Expr>,
    units: &mut u64,
    stop: &mut P,
    goal: &Expr,
) -> Result<Option<Expr>, Halt>
    ensures value { Runs (tower.try_locals search.entry locals.old.items goal.now (length locals.old.items) units.old) result units.new }
    ensures kept { locals.new.items ≡ locals.old.items }
    ensures count { P.stops stop.old ≤ P.stops stop.new }
    ensures rose { Rose result (P.stops stop.old) (P.stops stop.new) }
{
    let mut left = u32::try_from(locals.len()).map_err(|_| NoMemory)?;
    'locals: while left > 0 {
        left -= 1;
        let candidate = local_candidate(search, units, left, &locals[left as usize])?;
        if let Some(found) = tried(search, locals, units, stop, goal, candidate)? {
            return Ok(Some(found));
        }
    }
    Ok(None)
}

// The instances, the latest first.
#[cycle(walk)]
#[tactic(auto, using(crate::proofs::Towers::all_instances_left, crate::proofs::Towers::no_instance, crate::proofs::Towers::instance_halts, crate::proofs::Towers::instance_tried_halts, crate::proofs::Towers::instance_found, crate::proofs::Towers::instance_passed))]
pub fn try_instances<P: Stop>(
    search: Search<'_>,
    locals: &mut Vec<Expr>,
    units: &mut u64,
    stop: &mut P,
    goal: &Expr,
) -> Result<Option<Expr>, Halt>
    ensures value { Runs (tower.try_instances search.entry locals.old.items goal.now search.entry.instances.now units.old) result units.new }
    ensures kept { locals.new.items ≡ locals.old.items }
    ensures count { P.stops stop.old ≤ P.stops stop.new }
    ensures rose { Rose result (P.stops stop.old) (P.stops stop.new) }
{
    let mut left = search.instances.len();
    'instances: while left > 0 {
        left -= 1;
        let candidate = instance_candidate(search, units, &search.instances[left])?;
        if let Some(found) = tried(search, locals, units, stop, goal, candidate)? {
            return Ok(Some(found));
        }
    }
    Ok(None)
}

// The candidate, where there is one.
#[cycle(walk)]
#[tactic(auto, using(lf_steps::proofs::Runs::halts, crate::proofs::Towers::candidate_settled), unfolding(crate::specs::Tower::by_candidate))]
pub fn tried<P: Stop>(
    search: Search<'_>,
    locals: &mut Vec<Expr>,
    units: &mut u64,
    stop: &mut P,
    goal: &Expr,
    candidate: Option<Candidate>,
) -> Result<Option<Expr>, Halt>
    ensures value { Runs (tower.tried search.entry locals.old.items goal.now candidate units.old) result units.new }
    ensures kept { locals.new.items ≡ locals.old.items }
    ensures count { P.stops stop.old ≤ P.stops stop.new }
    ensures rose { Rose result (P.stops stop.old) (P.stops stop.new) }
{
    match candidate {
        None => Ok(None),
        Some(candidate) => {
            let count = u32::try_from(locals.len()).map_err(|_| NoMemory)?;
            let attempt = for_pis(search.check.alloc, units, count, candidate)?;
            match unified(search.check, locals, units, stop, attempt, goal)? {
                None => Ok(None),
                Some(attempt) => {
                    let found = settled(search, locals, units, stop, attempt)?;
                    Ok(found)
                }
            }
        }
    }
}

// What unification leaves open of the candidate has to be its metavariables in brackets; their types are the goals below it.
#[cycle(walk)]
#[tactic(auto, using(crate::proofs::Towers::settled_answered), unfolding(crate::specs::Tower::settled))]
pub fn settled<P: Stop>(
    search: Search<'_>,
    locals: &mut Vec<Expr>,
    units: &mut u64,
    stop: &mut P,
    attempt: Attempt,
) -> Result<Option<Expr>, Halt>
    ensures value { Runs (tower.settled search.entry locals.old.items attempt attempt.changes units.old) result units.new }
    ensures kept { locals.new.items ≡ locals.old.items }
    ensures count { P.stops stop.old ≤ P.stops stop.new }
    ensures rose { Rose result (P.stops stop.old) (P.stops stop.new) }
{
    if !is_settled(&attempt) {
        drop(attempt);
        return Ok(None);
    }
    let Attempt {
        term,
        rest,
        given,
        metas,
    } = attempt;
    drop(rest);
    let mut left = given;
    in_brackets(&mut left);
    let found = answered(search, locals, units, stop, &term, left.as_slice(), metas)?;
    Ok(found)
}

// The term at its metavariables, where each of these in brackets has an instance of its type.
#[cycle(walk)]
#[tactic(auto, using(lf_steps::proofs::Runs::halts), unfolding(crate::specs::Tower::answered))]
pub fn answered<P: Stop>(
    search: Search<'_>,
    locals: &mut Vec<Expr>,
    units: &mut u64,
    stop: &mut P,
    term: &Expr,
    given: &[Given],
    metas: Metas,
) -> Result<Option<Expr>, Halt>
    ensures value { Runs (tower.answered search.entry locals.old.items term.now given.now metas units.old) result units.new }
    ensures kept { locals.new.items ≡ locals.old.items }
    ensures count { P.stops stop.old ≤ P.stops stop.new }
    ensures rose { Rose result (P.stops stop.old) (P.stops stop.new) }
{
    let Some(goals) = goals_left(units, &metas, given)? else {
        return Ok(None);
    };
    let Some(terms) = instances(search, locals, units, stop, goals.as_slice())? else {
        return Ok(None);
    };
    let whole = whole_term(units, metas, given, terms.as_slice(), term)?;
    Ok(Some(whole))
}

// The instances of the goals, in order.
#[cycle(walk)]
#[tactic(auto, using(lf_steps::proofs::Runs::halts, crate::proofs::Towers::instances_begin), unfolding(crate::specs::Tower::instances_into))]
pub fn instances<P: Stop>(
    search: Search<'_>,
    locals: &mut Vec<Expr>,
    units: &mut u64,
    stop: &mut P,
    goals: &[Expr],
) -> Result<Option<Items<Expr>>, Halt>
    ensures value { Runs (tower.instances search.entry locals.old.items goals.now units.old) result units.new }
    ensures kept { locals.new.items ≡ locals.old.items }
    ensures count { P.stops stop.old ≤ P.stops stop.new }
    ensures rose { Rose result (P.stops stop.old) (P.stops stop.new) }
{
    let mut terms = Items::new(search.check.alloc);
    for goal in goals {
        match walk(search, locals, units, stop, goal)? {
            Some(term) => terms.push(term)?,
            None => {
                drop(terms);
                return Ok(None);
            }
        }
    }
    Ok(Some(terms))
}
