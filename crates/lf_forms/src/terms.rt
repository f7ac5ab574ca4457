//! Parts of the forms of terms.
ghost use Rattle.std.specs.Prelude.{◌≡◌, ◌≤◌, ℕ, length, option_copied, take};
ghost use Rattle.lf_elaboration.specs.Forms as forms;
ghost use Rattle.lf_elaboration.specs.Part as parts;
ghost use Rattle.lf_elaboration.specs.Run as run;
ghost use Rattle.lf_elaboration.specs.Terms as spec;
ghost use Rattle.lf_part.specs.Runs.{Runs, Calm, Rose};
ghost use Rattle.lf_part.specs.Values as own;
ghost use Rattle.lf_forms.specs.Terms as own_terms;

use crate::application::agreed;
use crate::binding::{Binding, as_pi};
use crate::closing::sorry_of;
use lf_base::Stop;
use lf_core::{Expr, ExprNode, Level};
use lf_name::Binder;
use lf_part::{
    Ended, Locals, OfOne, Part, Sorted, State, Synth, Typed, as_sort, closed_over, error_on,
    fresh_level, fresh_type, instantiated, mismatch, sort_of, unify, whnf,
};
use lf_steps::{opening, put};
use std::alloc::Global;

/// The greatest number of a variable.
const GREATEST: usize = 4294967294;

fn as_metavariable(term: &Expr) -> Option<u32>
    ensures { result ≡ forms.as_metavariable term.now }
{
    match term.node() {
        ExprNode::Meta(number) => Some(*number),
        _ => None,
    }
}

// A metavariable is unified with a sort of a fresh level.
#[tactic(auto, using(lf_part::proofs::Runs::halts))]
fn sort_of_metavariable<S: Synth, P: Stop>(
    part: Part<'_, S>,
    locals: &mut Locals,
    units: &mut u64,
    state: &mut State,
    stop: &mut P,
    at: usize,
    ty: &Expr,
    form: &Expr,
) -> Result<Level, Ended>
    requires { part.floor ≤ length state.old.metas }
    ensures value { Runs (own_terms.sort_of_metavariable (own.part S.meaning part.entry) (own.calls (own.part S.meaning part.entry) part.entry.depth)
        locals.old at ty.now form.now units.old (own.state state.old))
        result units.new (own.state state.new) }
    ensures kept { locals.new ≡ locals.old }
    ensures floor { part.entry.floor ≤ length state.new.metas }
    ensures below { take part.entry.floor state.new.metas ≡ take part.entry.floor state.old.metas }
    ensures count { P.stops stop.old ≤ P.stops stop.new }
    ensures rose { Rose result (P.stops stop.old) (P.stops stop.new) }
{
    let level = fresh_level(part, state)?;
    let sort = Expr::sort(part.alloc, level.copy(part.alloc)?)?;
    let is_sort = unify(part, locals, units, state, stop, form, &sort)?;
    drop(sort);
    if is_sort {
        return Ok(level);
    }
    drop(level);
    let names = locals.names.as_slice();
    error_on(part, names, units, state, at, OfOne::TypeExpected, ty)
}

/// The level of the sort that a term's type is, whose weak head form this is; a metavariable there is unified with a sort of a fresh level.
pub fn sort_at<S: Synth, P: Stop>(
    part: Part<'_, S>,
    locals: &mut Locals,
    units: &mut u64,
    state: &mut State,
    stop: &mut P,
    at: usize,
    ty: &Expr,
    form: &Expr,
) -> Result<Level, Ended>
    requires { part.floor ≤ length state.old.metas }
    ensures value { Runs (spec.sort_at (own.part S.meaning part.entry) (own.calls (own.part S.meaning part.entry) part.entry.depth)
        locals.old at ty.now form.now (forms.as_sort form.now) (forms.as_metavariable form.now) units.old (own.state state.old))
        result units.new (own.state state.new) }
    ensures kept { locals.new ≡ locals.old }
    ensures floor { part.entry.floor ≤ length state.new.metas }
    ensures below { take part.entry.floor state.new.metas ≡ take part.entry.floor state.old.metas }
    ensures count { P.stops stop.old ≤ P.stops stop.new }
    ensures rose { Rose result (P.stops stop.old) (P.stops stop.new) }
{
    match as_sort(form) {
        Some(level) => Ok(level.copy(part.alloc)?),
        None => match as_metavariable(form) {
            Some(_) => sort_of_metavariable(part, locals, units, state, stop, at, ty, form),
            None => {
                let names = locals.names.as_slice();
                error_on(part, names, units, state, at, OfOne::TypeExpected, ty)
            }
        },
    }
}

/// The pi that is expected.
#[tactic(auto, using(lf_part::proofs::Runs::halts))]
pub fn expected_pi<S: Synth, P: Stop>(
    part: Part<'_, S>,
    locals: &mut Locals,
    units: &mut u64,
    state: &State,
    stop: &mut P,
    expected: Option<&Expr>,
) -> Result<Option<Binding>, Ended>
    ensures value { Runs (spec.expected_pi (own.calls (own.part S.meaning part.entry) part.entry.depth)
        locals.old (option_copied expected.entry) units.old (own.state state.now))
        result units.new (own.state state.now) }
    ensures kept { locals.new ≡ locals.old }
    ensures count { P.stops stop.old ≤ P.stops stop.new }
    ensures rose { Rose result (P.stops stop.old) (P.stops stop.new) }
{
    match expected {
        None => Ok(None),
        Some(expected) => {
            let whole = instantiated(units, state, expected)?;
            let form = whnf(part, locals, units, stop, &whole)?;
            drop(whole);
            let pi = as_pi(part.alloc, &form)?;
            drop(form);
            Ok(pi)
        }
    }
}

/// A written type, which has to fit the expected domain.
#[tactic(auto, using(lf_part::proofs::Runs::halts))]
pub fn fits_domain<S: Synth, P: Stop>(
    part: Part<'_, S>,
    locals: &mut Locals,
    units: &mut u64,
    state: &mut State,
    stop: &mut P,
    at: usize,
    ty: Expr,
    pi: Option<&Binding>,
) -> Result<Expr, Ended>
    requires { part.floor ≤ length state.old.metas }
    ensures value { Runs (spec.fits_domain (own.part S.meaning part.entry) (own.calls (own.part S.meaning part.entry) part.entry.depth)
        locals.old at ty (option_copied pi.entry) units.old (own.state state.old))
        result units.new (own.state state.new) }
    ensures kept { locals.new ≡ locals.old }
    ensures floor { part.entry.floor ≤ length state.new.metas }
    ensures below { take part.entry.floor state.new.metas ≡ take part.entry.floor state.old.metas }
    ensures count { P.stops stop.old ≤ P.stops stop.new }
    ensures rose { Rose result (P.stops stop.old) (P.stops stop.new) }
{
    match pi {
        None => Ok(ty),
        Some(pi) => {
            if unify(part, locals, units, state, stop, &pi.domain, &ty)? {
                return Ok(ty);
            }
            mismatch(part, locals, units, state, at, &ty, &pi.domain)
        }
    }
}

/// One more local has a number. It costs nothing; else Out.
pub fn room(locals: &Locals) -> Result<(), Ended>
    ensures value { (u : ℕ) (s : parts.State) → Runs (run.room locals.now.types u s) result u s }
    ensures calm { Calm result }
{
    if locals.types.len() > GREATEST {
        return Err(Ended::Out);
    }
    Ok(())
}

/// The body of a pi, opened by the next local, as the expected type of what is below.
#[tactic(auto, using(lf_part::proofs::Runs::check_halts, lf_part::proofs::Runs::check_ends, lf_part::proofs::Runs::told))]
pub fn opened_body(
    alloc: Global,
    units: &mut u64,
    locals: &Locals,
    body: &Expr,
) -> Result<Option<Expr>, Ended>
    ensures value { (s : parts.State) → Runs (own_terms.opened_body locals.now.types body.now units.old s) result units.new s }
    ensures calm { Calm result }
{
    let opened = opening(alloc, units, locals.types.as_slice(), body)?;
    Ok(Some(opened))
}

// The lambda with this body, whose type is closed too, and its pi.
#[tactic(auto, using(lf_part::proofs::Runs::halts, lf_part::proofs::Runs::check_halts, lf_part::proofs::Runs::check_ends, lf_part::proofs::Runs::told))]
fn lambda_closed(
    alloc: Global,
    units: &mut u64,
    state: &State,
    k: usize,
    binder: &Binder,
    domain: &Expr,
    term: Expr,
    ty: &Expr,
) -> Result<Typed, Ended>
    ensures value { Runs (own_terms.lambda_closed k binder.now domain.now ty.now term units.old (own.state state.now)) result units.new
        (own.state state.now) }
    ensures calm { Calm result }
{
    let ty = closed_over(alloc, units, state, k, ty)?;
    let first = domain.copy(alloc)?;
    let lambda = put(units, Expr::lam(alloc, binder.copy(alloc)?, first, term)?)?;
    let second = domain.copy(alloc)?;
    let pi = put(units, Expr::pi(alloc, binder.copy(alloc)?, second, ty)?)?;
    Ok(Typed {
        term: lambda,
        ty: pi,
    })
}

/// The lambda over the local of number `k`, of a body and its type, and its pi.
#[tactic(auto, using(lf_part::proofs::Runs::halts))]
pub fn lambda_over(
    alloc: Global,
    units: &mut u64,
    state: &State,
    k: usize,
    binder: &Binder,
    domain: &Expr,
    term: &Expr,
    ty: &Expr,
) -> Result<Typed, Ended>
    ensures value { Runs (spec.lambda_over k binder.now domain.now (record { term = term.now; ty = ty.now }) units.old (own.state state.now)) result
        units.new (own.state state.now) }
    ensures calm { Calm result }
{
    let body = closed_over(alloc, units, state, k, term)?;
    lambda_closed(alloc, units, state, k, binder, domain, body, ty)
}

/// The pi over the local of number `k`, of a domain and a codomain with the levels of their sorts, in a sort of the impredicative maximum.
#[tactic(auto, using(lf_part::proofs::Runs::halts, lf_part::proofs::Runs::check_halts, lf_part::proofs::Runs::check_ends, lf_part::proofs::Runs::told))]
pub fn pi_over(
    alloc: Global,
    units: &mut u64,
    state: &State,
    k: usize,
    binder: &Binder,
    domain: &Expr,
    domain_level: Level,
    codomain: &Expr,
    codomain_level: Level,
) -> Result<Sorted, Ended>
    ensures value { Runs (spec.pi_over k binder.now (record { term = domain.now; level = domain_level }) (record {
      term = codomain.now;
      level
          = codomain_level;
    }) units.old (own.state state.now)) result units.new (own.state state.now) }
    ensures calm { Calm result }
{
    let body = closed_over(alloc, units, state, k, codomain)?;
    let first = domain.copy(alloc)?;
    let term = put(units, Expr::pi(alloc, binder.copy(alloc)?, first, body)?)?;
    let level = Level::imax(alloc, domain_level, codomain_level)?;
    Ok(Sorted { term, level })
}

/// A term whose type is known, unified with the expected type.
#[tactic(auto, using(lf_part::proofs::Runs::halts))]
pub fn against<S: Synth, P: Stop>(
    part: Part<'_, S>,
    locals: &mut Locals,
    units: &mut u64,
    state: &mut State,
    stop: &mut P,
    at: usize,
    expected: Option<&Expr>,
    term: Expr,
    ty: Expr,
) -> Result<Typed, Ended>
    requires { part.floor ≤ length state.old.metas }
    ensures value { Runs (spec.against (own.part S.meaning part.entry) (own.calls (own.part S.meaning part.entry) part.entry.depth)
        locals.old at (option_copied expected.entry) term ty units.old (own.state state.old))
        result units.new (own.state state.new) }
    ensures kept { locals.new ≡ locals.old }
    ensures floor { part.entry.floor ≤ length state.new.metas }
    ensures below { take part.entry.floor state.new.metas ≡ take part.entry.floor state.old.metas }
    ensures count { P.stops stop.old ≤ P.stops stop.new }
    ensures rose { Rose result (P.stops stop.old) (P.stops stop.new) }
{
    agreed(part, locals, units, state, stop, at, &ty, expected)?;
    Ok(Typed { term, ty })
}

// `sorryAx` of a type in a sort of this level.
#[tactic(auto, using(lf_part::proofs::Runs::check_halts, lf_part::proofs::Runs::check_ends, lf_part::proofs::Runs::told))]
fn sorry_at(alloc: Global, units: &mut u64, level: Level, ty: Expr) -> Result<Typed, Ended>
    ensures value { (s : parts.State) → Runs (spec.sorry_at level ty units.old s) result units.new s }
    ensures calm { Calm result }
{
    let term = put(units, sorry_of(alloc, level, &ty)?)?;
    Ok(Typed { term, ty })
}

/// `sorry`: `sorryAx` of the expected type, at the level of its sort; without one, of a type that isn't known yet.
#[tactic(auto, using(lf_part::proofs::Runs::halts))]
pub fn sorry_term<S: Synth, P: Stop>(
    part: Part<'_, S>,
    locals: &mut Locals,
    units: &mut u64,
    state: &mut State,
    stop: &mut P,
    at: usize,
    expected: Option<&Expr>,
) -> Result<Typed, Ended>
    requires { part.floor ≤ length state.old.metas }
    ensures value { Runs (spec.sorry_term (own.part S.meaning part.entry) (own.calls (own.part S.meaning part.entry) part.entry.depth)
        locals.old at (option_copied expected.entry) units.old (own.state state.old))
        result units.new (own.state state.new) }
    ensures kept { locals.new ≡ locals.old }
    ensures floor { part.entry.floor ≤ length state.new.metas }
    ensures below { take part.entry.floor state.new.metas ≡ take part.entry.floor state.old.metas }
    ensures count { P.stops stop.old ≤ P.stops stop.new }
    ensures rose { Rose result (P.stops stop.old) (P.stops stop.new) }
{
    match expected {
        Some(expected) => {
            let ty = instantiated(units, state, expected)?;
            let level = sort_of(part, locals, units, state, stop, at, &ty)?;
            sorry_at(part.alloc, units, level, ty)
        }
        None => {
            let Sorted { term, level } = fresh_type(part, locals, state, at)?;
            sorry_at(part.alloc, units, level, term)
        }
    }
}
