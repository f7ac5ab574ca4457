//! Where a binder closes: what metavariables come to stand for.
ghost use Rattle.std.specs.Prelude.{◌≡◌, ◌≤◌, ℕ, IfOk, OnOk, ◌++◌, is_some, length, option_copied, take};
ghost use Rattle.lf_elaboration.specs.Closing as spec;
ghost use Rattle.lf_elaboration.specs.Metavariables as terms;
ghost use Rattle.lf_part.specs.Runs.{Runs, Calm, Rose};
ghost use Rattle.lf_part.specs.Values as own;
ghost use Rattle.lf_forms.specs.Terms as own_terms;

use lf_base::Stop;
use lf_core::{Expr, Level, Name, NoMemory};
use lf_name::Copied;
use lf_part::{
    Ended, Locals, Part, State, Synth, assign, instantiated_all, mismatch, sort_of, unify,
};
use lf_steps::put;
use sqlite_items::Items;
use std::alloc::Global;

/// Whether something stands for the metavariable.
pub fn is_assigned(state: &State, metavariable: u32) -> bool
    ensures { result ≡ is_some (terms.value state.now.metas metavariable) }
{
    state.metas.value(metavariable).is_some()
}

/// The term becomes what the metavariable of this type stands for, where it may; else it doesn't fit, with the goal as both types.
#[tactic(auto, using(lf_part::proofs::Runs::halts))]
pub fn becomes<S: Synth>(
    part: Part<'_, S>,
    locals: &Locals,
    units: &mut u64,
    state: &mut State,
    at: usize,
    metavariable: u32,
    goal: &Expr,
    term: &Expr,
) -> Result<(), Ended>
    requires { part.floor ≤ length state.old.metas }
    ensures value { Runs (spec.becomes (own.part S.meaning part.entry) locals.now at metavariable goal.now term.now units.old (own.state state.old))
        result units.new (own.state state.new) }
    ensures floor { part.entry.floor ≤ length state.new.metas }
    ensures below { take part.entry.floor state.new.metas ≡ take part.entry.floor state.old.metas }
    ensures calm { Calm result }
{
    if assign(part, state, metavariable, term)? {
        return Ok(());
    }
    mismatch(part, locals, units, state, at, goal, goal)
}

/// A term for a metavariable for which unification has put one already: the two are unified.
#[tactic(auto, using(lf_part::proofs::Runs::halts))]
pub fn fits_term<S: Synth, P: Stop>(
    part: Part<'_, S>,
    locals: &mut Locals,
    units: &mut u64,
    state: &mut State,
    stop: &mut P,
    at: usize,
    metavariable: u32,
    goal: &Expr,
    term: &Expr,
) -> Result<(), Ended>
    requires { part.floor ≤ length state.old.metas }
    ensures value { Runs (spec.fits_term (own.part S.meaning part.entry) (own.calls (own.part S.meaning part.entry) part.entry.depth)
        locals.old at metavariable goal.now term.now units.old (own.state state.old))
        result units.new (own.state state.new) }
    ensures kept { locals.new ≡ locals.old }
    ensures floor { part.entry.floor ≤ length state.new.metas }
    ensures below { take part.entry.floor state.new.metas ≡ take part.entry.floor state.old.metas }
    ensures count { P.stops stop.old ≤ P.stops stop.new }
    ensures rose { Rose result (P.stops stop.old) (P.stops stop.new) }
{
    let own_term = Expr::meta(part.alloc, metavariable)?;
    let fits = unify(part, locals, units, state, stop, &own_term, term)?;
    drop(own_term);
    if fits {
        return Ok(());
    }
    mismatch(part, locals, units, state, at, goal, goal)
}

/// A proof of the metavariable's type.
pub fn proved_by<S: Synth, P: Stop>(
    part: Part<'_, S>,
    locals: &mut Locals,
    units: &mut u64,
    state: &mut State,
    stop: &mut P,
    at: usize,
    metavariable: u32,
    goal: &Expr,
    proof: &Expr,
) -> Result<(), Ended>
    requires { part.floor ≤ length state.old.metas }
    ensures value { Runs (spec.proved_by (own.part S.meaning part.entry) (own.calls (own.part S.meaning part.entry) part.entry.depth)
        locals.old at metavariable goal.now proof.now units.old (own.state state.old))
        result units.new (own.state state.new) }
    ensures kept { locals.new ≡ locals.old }
    ensures floor { part.entry.floor ≤ length state.new.metas }
    ensures below { take part.entry.floor state.new.metas ≡ take part.entry.floor state.old.metas }
    ensures count { P.stops stop.old ≤ P.stops stop.new }
    ensures rose { Rose result (P.stops stop.old) (P.stops stop.new) }
{
    if is_assigned(state, metavariable) {
        return fits_term(
            part,
            locals,
            units,
            state,
            stop,
            at,
            metavariable,
            goal,
            proof,
        );
    }
    becomes(part, locals, units, state, at, metavariable, goal, proof)
}

/// `sorryAx` of a type in a sort of this level.
pub fn sorry_of(alloc: Global, level: Level, ty: &Expr) -> Result<Expr, NoMemory>
    ensures { IfOk result (λ t. t ≡ spec.sorry_of level ty.now) }
{
    let mut levels = Items::new(alloc);
    levels.push(level)?;
    let name = Name::one(alloc, "sorryAx")?;
    let sorry = Expr::constant(alloc, name, levels)?;
    let ty = ty.copy(alloc)?;
    Expr::app(alloc, sorry, ty)
}

/// `sorryAx` of this type; a refusal is the error of the form or item at this place.
#[tactic(auto, using(lf_part::proofs::Runs::halts, lf_part::proofs::Runs::check_halts, lf_part::proofs::Runs::check_ends, lf_part::proofs::Runs::told))]
pub fn sorry_for<S: Synth, P: Stop>(
    part: Part<'_, S>,
    locals: &mut Locals,
    units: &mut u64,
    state: &State,
    stop: &mut P,
    at: usize,
    ty: &Expr,
) -> Result<Expr, Ended>
    ensures value { Runs (spec.sorry_for (own.part S.meaning part.entry) (own.calls (own.part S.meaning part.entry) part.entry.depth)
        locals.old at ty.now units.old (own.state state.now))
        result units.new (own.state state.now) }
    ensures kept { locals.new ≡ locals.old }
    ensures count { P.stops stop.old ≤ P.stops stop.new }
    ensures rose { Rose result (P.stops stop.old) (P.stops stop.new) }
{
    let level = sort_of(part, locals, units, state, stop, at, ty)?;
    let term = sorry_of(part.alloc, level, ty)?;
    Ok(put(units, term)?)
}

// A goal of which nothing is known is a sorry.
#[tactic(auto, using(lf_part::proofs::Runs::halts))]
fn becomes_sorry<S: Synth, P: Stop>(
    part: Part<'_, S>,
    locals: &mut Locals,
    units: &mut u64,
    state: &mut State,
    stop: &mut P,
    at: usize,
    metavariable: u32,
    goal: &Expr,
) -> Result<(), Ended>
    requires { part.floor ≤ length state.old.metas }
    ensures value { Runs (own_terms.becomes_sorry (own.part S.meaning part.entry) (own.calls (own.part S.meaning part.entry) part.entry.depth)
        locals.old at metavariable goal.now units.old (own.state state.old))
        result units.new (own.state state.new) }
    ensures kept { locals.new ≡ locals.old }
    ensures floor { part.entry.floor ≤ length state.new.metas }
    ensures below { take part.entry.floor state.new.metas ≡ take part.entry.floor state.old.metas }
    ensures count { P.stops stop.old ≤ P.stops stop.new }
    ensures rose { Rose result (P.stops stop.old) (P.stops stop.new) }
{
    let term = sorry_for(part, locals, units, state, stop, at, goal)?;
    becomes(part, locals, units, state, at, metavariable, goal, &term)
}

/// After a block: its proof, or a sorry where it failed and nothing stands for the metavariable yet.
pub fn settled<S: Synth, P: Stop>(
    part: Part<'_, S>,
    locals: &mut Locals,
    units: &mut u64,
    state: &mut State,
    stop: &mut P,
    at: usize,
    metavariable: u32,
    goal: &Expr,
    proof: Option<&Expr>,
) -> Result<(), Ended>
    requires { part.floor ≤ length state.old.metas }
    ensures value { Runs (spec.settled (own.part S.meaning part.entry) (own.calls (own.part S.meaning part.entry) part.entry.depth)
        locals.old at metavariable goal.now (option_copied proof.entry) units.old (own.state state.old))
        result units.new (own.state state.new) }
    ensures kept { locals.new ≡ locals.old }
    ensures floor { part.entry.floor ≤ length state.new.metas }
    ensures below { take part.entry.floor state.new.metas ≡ take part.entry.floor state.old.metas }
    ensures count { P.stops stop.old ≤ P.stops stop.new }
    ensures rose { Rose result (P.stops stop.old) (P.stops stop.new) }
{
    match proof {
        Some(proof) => proved_by(
            part,
            locals,
            units,
            state,
            stop,
            at,
            metavariable,
            goal,
            proof,
        ),
        None => {
            if is_assigned(state, metavariable) {
                return Ok(());
            }
            becomes_sorry(part, locals, units, state, stop, at, metavariable, goal)
        }
    }
}

fn add_all<T: Copied>(alloc: Global, items: &[T], all: &mut Vec<T>) -> Result<(), NoMemory>
    ensures { OnOk result (all.new.items ≡ all.old.items ++ items.now) }
{
    for item in items {
        all.push(item.copied(alloc)?)?;
    }
    Ok(())
}

/// The locals, their types with the assigned metavariables put in.
#[tactic(auto, using(lf_part::proofs::Runs::halts))]
pub fn locals_put_in(
    alloc: Global,
    locals: &Locals,
    units: &mut u64,
    state: &State,
) -> Result<Locals, Ended>
    ensures value { Runs (spec.locals_put_in locals.now units.old (own.state state.now)) result units.new (own.state state.now) }
    ensures calm { Calm result }
{
    let put_in = instantiated_all(units, state, locals.types.as_slice())?;
    let mut types = Vec::new(alloc);
    add_all(alloc, put_in.as_slice(), &mut types)?;
    let mut names = Vec::new(alloc);
    add_all(alloc, locals.names.as_slice(), &mut names)?;
    Ok(Locals { types, names })
}
