//! Types: of terms that stand as types, and of binders.
ghost use Rattle.std.specs.Prelude.{◌≡◌, ◌≤◌, None, length, option_copied, take};
ghost use Rattle.lf_part.specs.Runs.{Runs, Rose};
ghost use Rattle.lf_part.specs.Values as own;
ghost use Rattle.lf_nested.specs.Binders as bound;
ghost use Rattle.lf_nested.specs.Types as types;

use lf_base::Stop;
use lf_core::Expr;
use lf_forms::{Binding, sort_at};
use lf_part::{Ended, Locals, Part, Sorted, State, Synth, fresh_type, instantiated, whnf};

/// A term with the level of the sort that its type is; else an error at this place, in bytes.
#[tactic(auto, using(lf_part::proofs::Runs::halts), unfolding(crate::specs::Types::sorted))]
pub fn sorted<S: Synth, P: Stop>(
    part: Part<'_, S>,
    locals: &mut Locals,
    units: &mut u64,
    state: &mut State,
    stop: &mut P,
    at: usize,
    term: Expr,
    ty: &Expr,
) -> Result<Sorted, Ended>
    requires { part.floor ≤ length state.old.metas }
    ensures value { Runs (types.sorted (own.part S.meaning part.entry) (own.calls (own.part S.meaning part.entry) part.entry.depth) locals.old at term ty.now units.old (own.state state.old)) result units.new (own.state state.new) }
    ensures kept { locals.new ≡ locals.old }
    ensures floor { part.entry.floor ≤ length state.new.metas }
    ensures below { take part.entry.floor state.new.metas ≡ take part.entry.floor state.old.metas }
    ensures count { P.stops stop.old ≤ P.stops stop.new }
    ensures rose { Rose result (P.stops stop.old) (P.stops stop.new) }
{
    let whole = instantiated(units, state, ty)?;
    let form = whnf(part, locals, units, stop, &whole)?;
    let level = sort_at(part, locals, units, state, stop, at, &whole, &form)?;
    Ok(Sorted { term, level })
}

/// The domain of an expected pi; without one, a type that isn't known yet, made by the binder's name.
#[tactic(auto, using(lf_part::proofs::Runs::halts), unfolding(crate::specs::Binders::domain_of))]
pub fn unwritten_domain<S: Synth, P: Stop>(
    part: Part<'_, S>,
    locals: &mut Locals,
    units: &mut u64,
    state: &mut State,
    stop: &mut P,
    at: usize,
    name_at: usize,
    pi: Option<&Binding>,
) -> Result<Expr, Ended>
    requires { part.floor ≤ length state.old.metas }
    ensures value { Runs (bound.domain_of (own.part S.meaning part.entry) (own.calls (own.part S.meaning part.entry) part.entry.depth) locals.old at name_at None (option_copied pi.entry) units.old (own.state state.old)) result units.new (own.state state.new) }
    ensures kept { locals.new ≡ locals.old }
    ensures floor { part.entry.floor ≤ length state.new.metas }
    ensures below { take part.entry.floor state.new.metas ≡ take part.entry.floor state.old.metas }
    ensures count { P.stops stop.old ≤ P.stops stop.new }
    ensures rose { Rose result (P.stops stop.old) (P.stops stop.new) }
{
    match pi {
        Some(pi) => Ok(pi.domain.copy(part.alloc)?),
        None => {
            let Sorted { term, level } = fresh_type(part, locals, state, name_at)?;
            drop(level);
            Ok(term)
        }
    }
}
