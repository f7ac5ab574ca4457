//! Arguments of applications.
ghost use Rattle.std.specs.Prelude.{◌≡◌, ◌≤◌, ◌∷◌, [], IfOk, length, take};
ghost use Rattle.lf_part.specs.Runs.{Runs, Rose};
ghost use Rattle.lf_part.specs.Values as own;
ghost use Rattle.lf_nested.specs.Rounds as rounds;

use lf_base::Stop;
use lf_core::{Expr, NoMemory};
use lf_part::{Ended, Locals, Part, State, Synth, mismatch, unify};
use lf_syntax::Term;
use std::alloc::Global;

/// The placeholder of an argument and the argument's term are unified; else its type doesn't fit the expected one, at this
/// place, in bytes.
#[tactic(auto, using(lf_part::proofs::Runs::halts), unfolding(crate::specs::Rounds::placed_as))]
pub fn placed_as<S: Synth, P: Stop>(
    part: Part<'_, S>,
    locals: &mut Locals,
    units: &mut u64,
    state: &mut State,
    stop: &mut P,
    at: usize,
    placeholder: &Expr,
    expected: &Expr,
    term: &Expr,
    ty: &Expr,
) -> Result<(), Ended>
    requires { part.floor ≤ length state.old.metas }
    ensures value { Runs (rounds.placed_as (own.part S.meaning part.entry) (own.calls (own.part S.meaning part.entry) part.entry.depth) locals.old at placeholder.now expected.now term.now ty.now units.old (own.state state.old)) result units.new (own.state state.new) }
    ensures kept { locals.new ≡ locals.old }
    ensures floor { part.entry.floor ≤ length state.new.metas }
    ensures below { take part.entry.floor state.new.metas ≡ take part.entry.floor state.old.metas }
    ensures count { P.stops stop.old ≤ P.stops stop.new }
    ensures rose { Rose result (P.stops stop.old) (P.stops stop.new) }
{
    if unify(part, locals, units, state, stop, placeholder, term)? {
        return Ok(());
    }
    mismatch(part, locals, units, state, at, ty, expected)
}

/// The arguments of an operator.
pub fn two_terms(alloc: Global, left: &Term, right: &Term) -> Result<Vec<Term>, NoMemory>
    ensures { IfOk result (λ v. v.items ≡ left.now ∷ right.now ∷ []) }
{
    let mut terms = Vec::new(alloc);
    terms.push(left.copy(alloc)?)?;
    terms.push(right.copy(alloc)?)?;
    Ok(terms)
}
