//! Parts of applications.
ghost use Rattle.std.specs.Prelude.{◌≡◌, ◌≤◌, length, option_copied, take};
ghost use Rattle.lf_elaboration.specs.Application as spec;
ghost use Rattle.lf_elaboration.specs.Part as parts;
ghost use Rattle.lf_part.specs.Runs.{Runs, Calm, Rose};
ghost use Rattle.lf_part.specs.Values as own;
ghost use Rattle.lf_forms.specs.Terms as own_terms;

use crate::binding::Binding;
use lf_base::Stop;
use lf_core::Expr;
use lf_name::BinderKind;
use lf_part::{Ended, Locals, Part, State, Synth, mismatch, unify};
use lf_steps::{instance, put};
use lf_syntax::Term;
use std::alloc::Global;
use std::marker::Model;

/// A written argument, with its placeholder and the placeholder's type.
#[derive(Debug, Drop)]
pub struct Placed {
    pub placeholder: Expr,
    pub domain: Expr,
    pub argument: Term,
}

impl Model for Placed {
    ghost use Rattle.std.specs.Coded.{codes};
    ghost use Rattle.lf_core.specs.Codes.{coded_term};
    ghost use Rattle.lf_syntax.specs.Codes as trees;
    ghost use Rattle.lf_elaboration.specs.Application as application;

    ghost Value = { application.Placed };

    ghost coded = { Prim.hlevel (codes, coded_term, trees.coded_term) };

    ghost view = { λ p. record { placeholder = p.placeholder; domain = p.domain; argument = p.argument } };
}

/// An application so far and its type; the arguments that aren't elaborated yet, and those that have no place yet.
#[derive(Debug, Drop)]
pub struct Walked {
    pub term: Expr,
    pub ty: Expr,
    pub placed: Vec<Placed>,
    pub unplaced: Vec<Term>,
}

impl Model for Walked {
    ghost use Rattle.std.specs.Coded.{codes};
    ghost use Rattle.lf_core.specs.Codes.{coded_term};
    ghost use Rattle.lf_syntax.specs.Codes as trees;
    ghost use Rattle.lf_elaboration.specs.Application as application;

    ghost Value = { application.Walked };

    ghost coded = { Prim.hlevel (codes, coded_term, trees.coded_term) };

    ghost view = { λ w. record { term = w.term; ty = w.ty; placed = w.placed.items; unplaced = w.unplaced.items } };
}

/// The type is unified with the expected one, where there is one; else that is the error of this place.
#[tactic(auto, using(lf_part::proofs::Runs::halts))]
pub fn agreed<S: Synth, P: Stop>(
    part: Part<'_, S>,
    locals: &mut Locals,
    units: &mut u64,
    state: &mut State,
    stop: &mut P,
    at: usize,
    ty: &Expr,
    expected: Option<&Expr>,
) -> Result<(), Ended>
    requires { part.floor ≤ length state.old.metas }
    ensures value { Runs (spec.agreed (own.part S.meaning part.entry) (own.calls (own.part S.meaning part.entry) part.entry.depth)
        locals.old at ty.now (option_copied expected.entry) units.old (own.state state.old))
        result units.new (own.state state.new) }
    ensures kept { locals.new ≡ locals.old }
    ensures floor { part.entry.floor ≤ length state.new.metas }
    ensures below { take part.entry.floor state.new.metas ≡ take part.entry.floor state.old.metas }
    ensures count { P.stops stop.old ≤ P.stops stop.new }
    ensures rose { Rose result (P.stops stop.old) (P.stops stop.new) }
{
    match expected {
        None => Ok(()),
        Some(expected) => {
            if unify(part, locals, units, state, stop, ty, expected)? {
                return Ok(());
            }
            mismatch(part, locals, units, state, at, ty, expected)
        }
    }
}

/// The type is unified with the expected one, where there is one; false is passed over.
#[tactic(auto, using(lf_part::proofs::Runs::halts))]
pub fn tried<S: Synth, P: Stop>(
    part: Part<'_, S>,
    locals: &mut Locals,
    units: &mut u64,
    state: &mut State,
    stop: &mut P,
    ty: &Expr,
    expected: Option<&Expr>,
) -> Result<(), Ended>
    requires { part.floor ≤ length state.old.metas }
    ensures value { Runs (spec.tried (own.calls (own.part S.meaning part.entry) part.entry.depth)
        locals.old ty.now (option_copied expected.entry) units.old (own.state state.old))
        result units.new (own.state state.new) }
    ensures kept { locals.new ≡ locals.old }
    ensures floor { part.entry.floor ≤ length state.new.metas }
    ensures below { take part.entry.floor state.new.metas ≡ take part.entry.floor state.old.metas }
    ensures count { P.stops stop.old ≤ P.stops stop.new }
    ensures rose { Rose result (P.stops stop.old) (P.stops stop.new) }
{
    match expected {
        None => Ok(()),
        Some(expected) => {
            let _fits = unify(part, locals, units, state, stop, ty, expected)?;
            Ok(())
        }
    }
}

/// The application with one argument more, whose type is the codomain at it.
#[tactic(auto, using(lf_part::proofs::Runs::check_halts, lf_part::proofs::Runs::check_ends, lf_part::proofs::Runs::told))]
pub fn passing(
    alloc: Global,
    units: &mut u64,
    walked: Walked,
    pi: &Binding,
    argument: &Expr,
) -> Result<Walked, Ended>
    ensures value { (s : parts.State) → Runs (spec.passing walked pi.now argument.now units.old s) result units.new s }
    ensures calm { Calm result }
{
    let Walked {
        term,
        ty,
        placed,
        unplaced,
    } = walked;
    drop(ty);
    let copied = argument.copy(alloc)?;
    let term = put(units, Expr::app(alloc, term, copied)?)?;
    let ty = instance(alloc, units, &pi.body, argument)?;
    Ok(Walked {
        term,
        ty,
        placed,
        unplaced,
    })
}

/// What is put for a pi: a metavariable that is unified, one that resolution finds, or a written argument. With `@` every argument is
/// written.
#[derive(Clone, Copy, Debug)]
pub enum Giving {
    ToUnify,
    ToResolve,
    ToElaborate,
}

/// What is put for a pi of this kind, behind an `@` or not.
pub fn giving_for(at_sign: bool, kind: BinderKind) -> Giving
    ensures { own_terms.giving result ≡ spec.giving at_sign kind }
{
    if at_sign {
        return Giving::ToElaborate;
    }
    match kind {
        BinderKind::Explicit => Giving::ToElaborate,
        BinderKind::Implicit => Giving::ToUnify,
        BinderKind::Inst => Giving::ToResolve,
    }
}
