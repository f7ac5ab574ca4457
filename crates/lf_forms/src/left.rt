//! What is left open where a binder closes, and at the end of a part.
ghost use Rattle.std.specs.Prelude.{◌≡◌, ◌<◌, ℕ, IfOk, option_copied, option_map, slice_get};
ghost use Rattle.lf_elaboration.specs.Closing as spec;
ghost use Rattle.lf_elaboration.specs.Metavariables as terms;
ghost use Rattle.lf_elaboration.specs.Part as parts;
ghost use Rattle.lf_part.specs.Runs.{Runs, Calm};
ghost use Rattle.lf_part.specs.Values as own;
ghost use Rattle.lf_forms.specs.Escapes.{escapes_by};

use lf_core::{Expr, NoMemory};
use lf_meta::Metas;
use lf_msg::ElaborationError;
use lf_part::{Diagnostic, Ended, Part, State, Synth, error};

// The place of the first metavariable from number `start` on that isn't assigned.
#[tactic(auto, using(crate::proofs::Remaining::passed, crate::proofs::Remaining::found, crate::proofs::Remaining::ended, crate::proofs::Remaining::begun))]
fn unassigned(metas: &Metas, start: u32) -> Option<usize>
    ensures { result ≡ terms.unassigned metas.now start }
{
    let count = metas.count();
    let mut k = start;
    'numbers: while k < count {
        match metas.value(k) {
            None => return Some(metas.at(k)),
            Some(_) => {}
        }
        k += 1;
    }
    None
}

// Whether a metavariable of levels from number `start` on isn't assigned.
#[tactic(auto, using(crate::proofs::Remaining::level_passed, crate::proofs::Remaining::level_found, crate::proofs::Remaining::level_ended))]
fn level_unassigned(metas: &Metas, start: u32) -> bool
    ensures { result ≡ terms.level_unassigned metas.now start }
{
    let count = metas.level_count();
    let mut k = start;
    'numbers: while k < count {
        if metas.level_value(k).is_none() {
            return true;
        }
        k += 1;
    }
    false
}

// Whether a value, with its assigned metavariables put in, speaks of a local that is none of the first so many.
#[tactic(auto, using(crate::proofs::Remaining::outside_is))]
fn speaks_outside(metas: &Metas, locals: u32, value: Option<&Expr>) -> Result<bool, NoMemory>
    ensures { IfOk result (λ b. b ≡ terms.speaks_outside metas.now locals (option_copied value.entry)) }
{
    match value {
        None => Ok(false),
        Some(term) => {
            let whole = metas.put_in(term)?;
            let speaks = locals < whole.free_bound();
            drop(whole);
            Ok(speaks)
        }
    }
}

// Whether the value of the metavariable, of a context of at most `n` locals, speaks of another local.
#[tactic(auto, using(crate::proofs::Remaining::le_true, crate::proofs::Remaining::le_false))]
fn escapes(metas: &Metas, n: usize, k: u32) -> Result<bool, NoMemory>
    requires { k < terms.count metas.now }
    ensures { IfOk result (λ b. b ≡ escapes_by metas.now n k (option_map (λ m. m.locals) (slice_get (terms.metavariables metas.now) k))) }
{
    let locals = metas.locals(k);
    if locals as usize > n {
        return Ok(false);
    }
    speaks_outside(metas, locals, metas.value(k))
}

// The place of the first metavariable of a context of at most `n` locals whose value speaks of another local.
#[tactic(auto, using(crate::proofs::Remaining::escape_passed, crate::proofs::Remaining::escape_found, crate::proofs::Remaining::escape_ended))]
fn escaping(metas: &Metas, n: usize) -> Result<Option<usize>, NoMemory>
    ensures { IfOk result (λ o. o ≡ terms.escaping metas.now n) }
{
    let count = metas.count();
    let mut k = 0;
    'numbers: while k < count {
        if escapes(metas, n, k)? {
            return Ok(Some(metas.at(k)));
        }
        k += 1;
    }
    Ok(None)
}

fn undetermined_at(place: Option<usize>) -> Result<(), Ended>
    ensures value { (u : ℕ) (s : parts.State) → Runs (spec.undetermined_at place u s) result u s }
    ensures calm { Calm result }
{
    match place {
        None => Ok(()),
        Some(at) => {
            let says = Diagnostic::Elaboration(ElaborationError::UndeterminedPlaceholder);
            Err(error(at, says))
        }
    }
}

/// Each metavariable from number `start` on is assigned; the first that isn't is an error of the node that made it.
pub fn all_assigned(state: &State, start: u32) -> Result<(), Ended>
    ensures value { (u : ℕ) → Runs (spec.all_assigned start u (own.state state.now)) result u (own.state state.now) }
    ensures calm { Calm result }
{
    undetermined_at(unassigned(&state.metas, start))
}

/// No value of an outer metavariable speaks of the local of number `n`, which closes.
pub fn none_escapes(state: &State, n: usize) -> Result<(), Ended>
    ensures value { (u : ℕ) → Runs (spec.none_escapes n u (own.state state.now)) result u (own.state state.now) }
    ensures calm { Calm result }
{
    undetermined_at(escaping(&state.metas, n)?)
}

/// Each metavariable of levels from number `start` on is assigned; else that is an error of the part.
pub fn all_levels_assigned<S: Synth>(
    part: Part<'_, S>,
    state: &State,
    start: u32,
) -> Result<(), Ended>
    ensures value { (u : ℕ) → Runs (spec.all_levels_assigned (own.part S.meaning part.entry) start u (own.state state.now)) result u
        (own.state state.now) }
    ensures calm { Calm result }
{
    if level_unassigned(&state.metas, start) {
        let says = Diagnostic::Elaboration(ElaborationError::UndeterminedLevel);
        return Err(error(part.place, says));
    }
    Ok(())
}

/// The same from a number on, where one is given.
pub fn levels_from<S: Synth>(
    part: Part<'_, S>,
    state: &State,
    start: Option<u32>,
) -> Result<(), Ended>
    ensures value { (u : ℕ) → Runs (spec.levels_from (own.part S.meaning part.entry) start u (own.state state.now)) result u (own.state state.now) }
    ensures calm { Calm result }
{
    match start {
        None => Ok(()),
        Some(start) => {
            all_levels_assigned(part, state, start)?;
            Ok(())
        }
    }
}
