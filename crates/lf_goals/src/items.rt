//! What comes before an item, and behind the last one.
ghost use Rattle.std.specs.Prelude.{◌≡◌, ◌≤◌, ℕ, length, take};
ghost use Rattle.lf_elaboration.specs.Part as parts;
ghost use Rattle.lf_elaboration.specs.Proof as spec;
ghost use Rattle.lf_msg.specs.declared.proof.ProofError.TheVariants.{BlocksExpected};
ghost use Rattle.lf_part.specs.declared.message.Diagnostic.TheVariants.{Proof};
ghost use Rattle.lf_part.specs.Runs.{Runs, RunsAs, Calm, Rose};
ghost use Rattle.lf_part.specs.Tells as tells;
ghost use Rattle.lf_part.specs.Values as own;
ghost use Rattle.lf_goals.specs.Between as between;

use crate::goal::Goal;
use crate::trees::item_place;
use lf_base::Stop;
use lf_core::Expr;
use lf_forms::proved_by;
use lf_msg::{ElaborationError, ProofError};
use lf_part::{Diagnostic, Ended, Locals, Part, State, Synth, error, instantiated};
use lf_syntax::Item;
use std::alloc::Global;

/// A goal with its assigned metavariables put in, for the item, which costs a unit. A goal with a metavariable is an error at the item.
#[tactic(auto, using(lf_part::proofs::Runs::halts), unfolding(crate::specs::Between::ready))]
pub fn ready(units: &mut u64, state: &State, item: &Item, goal: &Expr) -> Result<Expr, Ended>
    ensures value { Runs (between.ready item.now goal.now units.old (own.state state.now)) result units.new (own.state state.now) }
    ensures calm { Calm result }
{
    let whole = instantiated(units, state, goal)?;
    if whole.has_metavariable() {
        drop(whole);
        let undetermined = Diagnostic::Elaboration(ElaborationError::UndeterminedPlaceholder);
        return Err(error(item_place(item), undetermined));
    }
    if *units < 1 {
        drop(whole);
        return Err(Ended::Out);
    }
    *units -= 1;
    Ok(whole)
}

/// No goal is left: an item that is left is an error at it.
pub fn nothing_left(alloc: Global, items: &[Item]) -> Result<Vec<Expr>, Ended>
    ensures value { (u : ℕ) (s : parts.State) → RunsAs (λ v. v.items) (spec.nothing_left items.now u s) result u s }
    ensures calm { Calm result }
{
    match items {
        [] => Ok(Vec::new(alloc)),
        [item, ..] => {
            let says = Diagnostic::Proof(ProofError::NoGoals);
            Err(error(item_place(item), says))
        }
    }
}

/// So many goals are left by the item at this place, and what follows isn't a block for each.
pub fn blocks_expected(at: usize, goals: usize) -> Ended
    ensures { result ≡ tells.failed_at at (Proof (BlocksExpected goals)) }
{
    error(at, Diagnostic::Proof(ProofError::BlocksExpected { goals }))
}

/// A goal's proof becomes what the goal's metavariable stands for; where that has a value already, the two are unified.
pub fn proved<S: Synth, P: Stop>(
    part: Part<'_, S>,
    locals: &mut Locals,
    units: &mut u64,
    state: &mut State,
    stop: &mut P,
    at: usize,
    goal: &Goal,
    proof: &Expr,
) -> Result<(), Ended>
    requires { part.floor ≤ length state.old.metas }
    ensures value { Runs (spec.proved (own.part S.meaning part.entry) (own.calls (own.part S.meaning part.entry) part.entry.depth) locals.old at goal.now
        goal.now.metavariable proof.now units.old (own.state state.old)) result units.new (own.state state.new) }
    ensures kept { locals.new ≡ locals.old }
    ensures floor { part.entry.floor ≤ length state.new.metas }
    ensures below { take part.entry.floor state.new.metas ≡ take part.entry.floor state.old.metas }
    ensures count { P.stops stop.old ≤ P.stops stop.new }
    ensures rose { Rose result (P.stops stop.old) (P.stops stop.new) }
{
    match goal.metavariable {
        None => Ok(()),
        Some(number) => proved_by(
            part, locals, units, state, stop, at, number, &goal.ty, proof,
        ),
    }
}
