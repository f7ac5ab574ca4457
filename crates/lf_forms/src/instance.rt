//! Holes for instances.
ghost use Rattle.std.specs.Prelude.{◌≡◌, ◌≤◌, length, option_copied, take};
ghost use Rattle.lf_elaboration.specs.Closing as spec;
ghost use Rattle.lf_elaboration.specs.Unifier as unifier;
ghost use Rattle.lf_part.specs.Runs.{Runs, Calm, Rose};
ghost use Rattle.lf_part.specs.Values as own;
ghost use Rattle.lf_forms.specs.Terms as own_terms;

use crate::closing::{becomes, locals_put_in};
use lf_base::Stop;
use lf_core::Expr;
use lf_msg::ElaborationError;
use lf_part::{
    Diagnostic, Ended, Locals, OfOne, Part, State, Synth, error, error_on, instantiated, synthesize,
};

/// Whether metavariables of terms or levels stand in the term.
fn has_any_metavariable(term: &Expr) -> bool
    ensures { result ≡ unifier.has_any_metavariable term.now }
{
    term.has_metavariable() || term.has_level_metavariable()
}

// The instance becomes what the metavariable stands for; where there is none, that is the error.
fn instance_found<S: Synth>(
    part: Part<'_, S>,
    locals: &Locals,
    units: &mut u64,
    state: &mut State,
    at: usize,
    metavariable: u32,
    goal: &Expr,
    found: Option<&Expr>,
) -> Result<(), Ended>
    requires { part.floor ≤ length state.old.metas }
    ensures value { Runs (spec.instance_found (own.part S.meaning part.entry)
        locals.now at metavariable goal.now (option_copied found.entry) units.old (own.state state.old))
        result units.new (own.state state.new) }
    ensures floor { part.entry.floor ≤ length state.new.metas }
    ensures below { take part.entry.floor state.new.metas ≡ take part.entry.floor state.old.metas }
    ensures calm { Calm result }
{
    match found {
        Some(term) => becomes(part, locals, units, state, at, metavariable, goal, term),
        None => {
            let names = locals.names.as_slice();
            error_on(part, names, units, state, at, OfOne::NoInstance, goal)
        }
    }
}

// An instance of a goal without metavariables, in the locals that are put in.
#[tactic(auto, using(lf_part::proofs::Runs::halts))]
fn instance_in<S: Synth, P: Stop>(
    part: Part<'_, S>,
    locals: &mut Locals,
    units: &mut u64,
    state: &mut State,
    stop: &mut P,
    at: usize,
    metavariable: u32,
    goal: &Expr,
) -> Result<(), Ended>
    requires { part.floor ≤ length state.old.metas }
    ensures value { Runs (own_terms.instance_in (own.part S.meaning part.entry) (own.calls (own.part S.meaning part.entry) part.entry.depth)
        locals.old at metavariable goal.now units.old (own.state state.old))
        result units.new (own.state state.new) }
    ensures kept { locals.new ≡ locals.old }
    ensures floor { part.entry.floor ≤ length state.new.metas }
    ensures below { take part.entry.floor state.new.metas ≡ take part.entry.floor state.old.metas }
    ensures count { P.stops stop.old ≤ P.stops stop.new }
    ensures rose { Rose result (P.stops stop.old) (P.stops stop.new) }
{
    let found = synthesize(part, locals, units, stop, goal)?;
    instance_found(
        part,
        locals,
        units,
        state,
        at,
        metavariable,
        goal,
        found.as_ref(),
    )
}

/// An instance is looked for that becomes what the metavariable of this type stands for.
#[tactic(auto, using(lf_part::proofs::Runs::halts))]
pub fn find_instance<S: Synth, P: Stop>(
    part: Part<'_, S>,
    locals: &Locals,
    units: &mut u64,
    state: &mut State,
    stop: &mut P,
    at: usize,
    metavariable: u32,
    ty: &Expr,
) -> Result<(), Ended>
    requires { part.floor ≤ length state.old.metas }
    ensures value { Runs (spec.find_instance (own.part S.meaning part.entry) (own.calls (own.part S.meaning part.entry) part.entry.depth)
        locals.now at metavariable ty.now units.old (own.state state.old))
        result units.new (own.state state.new) }
    ensures floor { part.entry.floor ≤ length state.new.metas }
    ensures below { take part.entry.floor state.new.metas ≡ take part.entry.floor state.old.metas }
    ensures count { P.stops stop.old ≤ P.stops stop.new }
    ensures rose { Rose result (P.stops stop.old) (P.stops stop.new) }
{
    let goal = instantiated(units, state, ty)?;
    if has_any_metavariable(&goal) {
        let says = Diagnostic::Elaboration(ElaborationError::UndeterminedPlaceholder);
        return Err(error(at, says));
    }
    let mut inner = locals_put_in(part.alloc, locals, units, state)?;
    instance_in(
        part,
        &mut inner,
        units,
        state,
        stop,
        at,
        metavariable,
        &goal,
    )
}
