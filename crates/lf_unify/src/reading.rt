//! What the unifier asks of the metavariables and of the checker, which changes nothing.
ghost use Rattle.std.specs.Prelude.{◌≡◌, ◌≤◌};
ghost use Rattle.lf_checker.specs.Checker.{calls};
ghost use Rattle.lf_checker.specs.Run as checker;
ghost use Rattle.lf_elaboration.specs.Metavariables as terms;
ghost use Rattle.lf_elaboration.specs.Run as spec;
ghost use Rattle.lf_elaboration.specs.Unifier as unifier;
ghost use Rattle.lf_steps.specs.Runs as steps;
ghost use Rattle.lf_steps.specs.Runs.{Calm, Rose};
ghost use Rattle.lf_steps.specs.Values as values;
ghost use Rattle.lf_unify.specs.Runs.{Runs, RunsAs};
ghost use Rattle.lf_unify.specs.Tower as tower;
ghost use Rattle.lf_unify.specs.Values.{pattern};

use crate::pattern::{Pattern, type_at};
use lf_base::Stop;
use lf_check::{Cx, Mode, equal_within, infer_within, whnf_within};
use lf_core::Expr;
use lf_meta::Metas;
use lf_steps::{Halt, Verdict, attempt, out, paid};

// The term with its assigned metavariables put in, which costs its nodes.
#[tactic(auto, using(crate::proofs::Costs::made_out))]
fn put_in(units: &mut u64, metas: &Metas, term: &Expr) -> Result<Expr, Halt>
    ensures value { steps.Runs (checker.made (terms.put_in metas.now term.now) units.old) result units.new }
    ensures calm { Calm result }
{
    match metas.put_within(term, *units)? {
        Some(whole) => Ok(paid(units, whole)?),
        None => Err(out(units)),
    }
}

/// The term with its assigned metavariables put in. It costs its nodes, where one stands in it.
#[tactic(auto, using(crate::proofs::Runs::check_ends))]
pub fn instantiated(units: &mut u64, metas: &Metas, term: &Expr) -> Result<Expr, Halt>
    ensures value { Runs (spec.instantiated term.now units.old metas.now) result units.new metas.now }
    ensures calm { Calm result }
{
    if metas.has_assigned(term) {
        Ok(put_in(units, metas, term)?)
    } else {
        Ok(term.copy(metas.alloc())?)
    }
}

/// The type that is inferred without tests, where there is one.
#[tactic(auto, using(crate::proofs::Runs::lifts, lf_steps::proofs::Runs::caught_runs))]
pub fn type_unchecked<P: Stop>(
    cx: Cx<'_>,
    locals: &mut Vec<Expr>,
    units: &mut u64,
    metas: &Metas,
    stop: &mut P,
    term: &Expr,
) -> Result<Option<Expr>, Halt>
    ensures value { Runs (spec.type_unchecked (calls cx.entry.view.now cx.entry.depth) locals.old.items term.now units.old metas.now) result units.new
        metas.now }
    ensures kept { locals.new.items ≡ locals.old.items }
    ensures count { P.stops stop.old ≤ P.stops stop.new }
    ensures rose { Rose result (P.stops stop.old) (P.stops stop.new) }
{
    let mode = Mode::Unchecked(metas.types());
    let ty = infer_within(cx, locals, units, stop, mode, term);
    attempt(ty)
}

/// The type of a pattern, which is the term.
pub fn pattern_type<P: Stop>(
    cx: Cx<'_>,
    locals: &mut Vec<Expr>,
    units: &mut u64,
    metas: &Metas,
    stop: &mut P,
    found: &Pattern,
    term: &Expr,
) -> Result<Option<Expr>, Halt>
    ensures value { Runs (unifier.pattern_type (calls cx.entry.view.now cx.entry.depth) locals.old.items (pattern found.now)
        found.now.variables.items term.now
        units.old metas.now) result units.new metas.now }
    ensures kept { locals.new.items ≡ locals.old.items }
    ensures count { P.stops stop.old ≤ P.stops stop.new }
    ensures rose { Rose result (P.stops stop.old) (P.stops stop.new) }
{
    match found.variables.as_slice() {
        [] => Ok(Some(type_at(cx.alloc, metas.types(), found.metavariable)?)),
        [_first, _rest @ ..] => type_unchecked(cx, locals, units, metas, stop, term),
    }
}

/// Whether metavariables of terms or levels stand in the term.
fn has_any_metavariable(term: &Expr) -> bool
    ensures { result ≡ unifier.has_any_metavariable term.now }
{
    term.has_metavariable() || term.has_level_metavariable()
}

/// Where no metavariable stands in the terms, equality decides.
#[tactic(auto, using(crate::proofs::Runs::check_halts), unfolding(crate::specs::Tower::without_metavariables))]
pub fn without_metavariables<P: Stop>(
    cx: Cx<'_>,
    locals: &mut Vec<Expr>,
    units: &mut u64,
    metas: &Metas,
    stop: &mut P,
    a: &Expr,
    b: &Expr,
) -> Result<Verdict, Halt>
    ensures value { RunsAs values.verdict (tower.without_metavariables (calls cx.entry.view.now cx.entry.depth) locals.old.items a.now b.now units.old
        metas.now) result units.new metas.now }
    ensures kept { locals.new.items ≡ locals.old.items }
    ensures count { P.stops stop.old ≤ P.stops stop.new }
    ensures rose { Rose result (P.stops stop.old) (P.stops stop.new) }
{
    if has_any_metavariable(a) || has_any_metavariable(b) {
        return Ok(Verdict::Undecided);
    }
    let same = equal_within(cx, locals, units, stop, a, b)?;
    Ok(Verdict::Decided(same))
}

/// Weak head forms without definitions, where one of them is another term.
#[tactic(auto, using(crate::proofs::Runs::check_halts), unfolding(crate::specs::Tower::by_whnf))]
pub fn by_whnf<P: Stop>(
    cx: Cx<'_>,
    locals: &mut Vec<Expr>,
    units: &mut u64,
    metas: &Metas,
    stop: &mut P,
    a: &Expr,
    b: &Expr,
) -> Result<Verdict, Halt>
    ensures value { RunsAs values.verdict (tower.by_whnf (calls cx.entry.view.now cx.entry.depth) locals.old.items a.now b.now units.old metas.now)
        result
        units.new metas.now }
    ensures kept { locals.new.items ≡ locals.old.items }
    ensures count { P.stops stop.old ≤ P.stops stop.new }
    ensures rose { Rose result (P.stops stop.old) (P.stops stop.new) }
{
    let x = whnf_within(cx, locals, units, stop, false, a)?;
    let y = whnf_within(cx, locals, units, stop, false, b)?;
    if a.is(&x) && b.is(&y) {
        drop(x);
        drop(y);
        Ok(Verdict::Undecided)
    } else {
        Ok(Verdict::Again(x, y))
    }
}
