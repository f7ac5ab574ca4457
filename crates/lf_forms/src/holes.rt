//! Metavariables that wait, and those that are written.
ghost use Rattle.std.specs.Prelude.{◌≡◌, ◌≤◌, ℕ, length, option_copied, take};
ghost use Rattle.lf_elaboration.specs.Application as application;
ghost use Rattle.lf_elaboration.specs.Terms as spec;
ghost use Rattle.lf_part.specs.Runs.{Runs, Calm};
ghost use Rattle.lf_part.specs.Values as own;

use lf_core::Expr;
use lf_elaboration::Hole;
use lf_msg::ElaborationError;
use lf_part::{
    Diagnostic, Ended, Locals, Part, State, Synth, Typed, error, fresh_type, placeholder,
};
use lf_syntax::{Item, Shared};

/// A metavariable that waits: for these items to prove its type, or without items for an instance of it.
#[tactic(auto, using(lf_part::proofs::Runs::halts))]
pub fn hole<S: Synth>(
    part: Part<'_, S>,
    locals: &Locals,
    state: &mut State,
    at: usize,
    items: Option<Shared<Item>>,
    ty: &Expr,
) -> Result<Expr, Ended>
    requires { part.floor ≤ length state.old.metas }
    ensures value { (u : ℕ) → Runs (application.hole locals.now at items ty.now u (own.state state.old)) result u (own.state state.new) }
    ensures floor { part.entry.floor ≤ length state.new.metas }
    ensures below { take part.entry.floor state.new.metas ≡ take part.entry.floor state.old.metas }
    ensures calm { Calm result }
{
    let metavariable = state.metas.count();
    let term = placeholder(part, locals, state, at, ty)?;
    state.pending.push(Hole {
        metavariable,
        items,
    })?;
    Ok(term)
}

// A metavariable of this type.
#[tactic(auto, using(lf_part::proofs::Runs::halts))]
fn hole_of<S: Synth>(
    part: Part<'_, S>,
    locals: &Locals,
    state: &mut State,
    at: usize,
    ty: &Expr,
) -> Result<Typed, Ended>
    requires { part.floor ≤ length state.old.metas }
    ensures value { (u : ℕ) → Runs (spec.hole_of locals.now at ty.now u (own.state state.old)) result u (own.state state.new) }
    ensures floor { part.entry.floor ≤ length state.new.metas }
    ensures below { take part.entry.floor state.new.metas ≡ take part.entry.floor state.old.metas }
    ensures calm { Calm result }
{
    let term = placeholder(part, locals, state, at, ty)?;
    let ty = ty.copy(part.alloc)?;
    Ok(Typed { term, ty })
}

/// `_`: a metavariable of the expected type; without one, of a type that isn't known yet.
#[tactic(auto, using(lf_part::proofs::Runs::halts))]
pub fn hole_term<S: Synth>(
    part: Part<'_, S>,
    locals: &Locals,
    state: &mut State,
    at: usize,
    expected: Option<&Expr>,
) -> Result<Typed, Ended>
    requires { part.floor ≤ length state.old.metas }
    ensures value { (u : ℕ) → Runs (spec.hole_term locals.now at (option_copied expected.entry) u (own.state state.old)) result u (own.state state.new) }
    ensures floor { part.entry.floor ≤ length state.new.metas }
    ensures below { take part.entry.floor state.new.metas ≡ take part.entry.floor state.old.metas }
    ensures calm { Calm result }
{
    match expected {
        Some(ty) => hole_of(part, locals, state, at, ty),
        None => {
            let ty = fresh_type(part, locals, state, at)?;
            hole_of(part, locals, state, at, &ty.term)
        }
    }
}

/// `by` needs an expected type, and is run later.
#[tactic(auto, using(lf_part::proofs::Runs::halts))]
pub fn by_block<S: Synth>(
    part: Part<'_, S>,
    locals: &Locals,
    state: &mut State,
    at: usize,
    items: Shared<Item>,
    expected: Option<&Expr>,
) -> Result<Typed, Ended>
    requires { part.floor ≤ length state.old.metas }
    ensures value { (u : ℕ) → Runs (spec.by_block locals.now at items (option_copied expected.entry) u (own.state state.old)) result u (own.state state.new) }
    ensures floor { part.entry.floor ≤ length state.new.metas }
    ensures below { take part.entry.floor state.new.metas ≡ take part.entry.floor state.old.metas }
    ensures calm { Calm result }
{
    match expected {
        Some(ty) => {
            let term = hole(part, locals, state, at, Some(items), ty)?;
            let ty = ty.copy(part.alloc)?;
            Ok(Typed { term, ty })
        }
        None => {
            drop(items);
            let says = Diagnostic::Elaboration(ElaborationError::UndeterminedPlaceholder);
            Err(error(at, says))
        }
    }
}
