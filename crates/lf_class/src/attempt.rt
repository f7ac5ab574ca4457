//! A candidate at fresh metavariables for the pis of its type.
ghost use Rattle.std.specs.Prelude.{◌≡◌, IfOk, Some};
ghost use Rattle.lf_core.specs.Term.{Term};
ghost use Rattle.lf_rules.specs.Telescope as telescope;
ghost use Rattle.lf_checker.specs.Run as run;
ghost use Rattle.lf_elaboration.specs.Forms as forms;
ghost use Rattle.lf_items.specs.Values as values;
ghost use Rattle.lf_resolution.specs.Attempt as attempts;
ghost use Rattle.lf_resolution.specs.Walk as spec;
ghost use Rattle.lf_steps.specs.Runs.{Runs, Calm};

use crate::candidate::Candidate;
use lf_core::{BinderKind, Expr, NoMemory};
use lf_items::{Front, as_pi};
use lf_meta::Metas;
use lf_recursor::pi_count;
use lf_steps::{Halt, instance, out, put};
use std::alloc::Global;
use std::marker::Model;

/// The greatest number of a metavariable.
const GREATEST: u32 = 4294967294;

/// A metavariable that was given to a pi.
#[derive(Debug, Drop)]
pub struct Given {
    pub number: u32,
    pub kind: BinderKind,
    pub ty: Expr,
}

impl Model for Given {
    ghost use Rattle.std.specs.Coded.{codes};
    ghost use Rattle.lf_core.specs.Codes.{coded_term};
    ghost use Rattle.lf_elaboration.specs.Apply.{Given as GivenValue};

    ghost Value = { GivenValue };

    ghost coded = { Prim.hlevel (codes, coded_term) };

    ghost view = { λ g. record { number = g.number; kind = g.kind; ty = g.ty } };
}

/// A candidate at metavariables for pis of its type, the rest of the type, and these metavariables in order, among those of
/// a list of their own.
#[derive(Debug, Drop)]
pub struct Attempt {
    pub term: Expr,
    pub rest: Expr,
    pub given: Vec<Given>,
    pub metas: Metas,
}

impl Model for Attempt {
    ghost use Rattle.std.specs.Coded.{codes};
    ghost use Rattle.lf_core.specs.Codes.{coded_term};
    ghost use Rattle.lf_elaboration.specs.contracts.change.Change as change;
    ghost use Rattle.lf_resolution.specs.Attempt.{Attempt as AttemptValue};

    ghost Value = { AttemptValue };

    ghost coded = { Prim.hlevel (codes, coded_term, change.the_row.coded) };

    ghost view = { λ a. record { term = a.term; rest = a.rest; given = a.given.items; changes = a.metas } };
}

// So many metavariables of levels.
#[tactic(auto, using(crate::proofs::Levels::one_made, crate::proofs::Levels::made_count))]
fn levels_made(alloc: Global, count: u32) -> Result<Metas, NoMemory>
    ensures { IfOk result (λ m. m ≡ attempts.levels_made count) }
{
    let mut metas = Metas::new(alloc);
    let mut made = 0u32;
    'levels: while made < count {
        let _number = metas.fresh_level()?;
        made += 1;
    }
    Ok(metas)
}

// The candidate before its pis.
fn before_pis(alloc: Global, candidate: Candidate) -> Result<Attempt, NoMemory>
    ensures { IfOk result (λ a. a ≡ attempts.before_pis candidate) }
{
    let Candidate { term, ty, levels } = candidate;
    Ok(Attempt {
        term,
        rest: ty,
        given: Vec::new(alloc),
        metas: levels_made(alloc, levels)?,
    })
}

// With a metavariable for this pi, made for so many locals. What is left of the type costs its nodes.
#[tactic(auto, using(lf_steps::proofs::Runs::halts))]
fn with_given(
    alloc: Global,
    units: &mut u64,
    locals: u32,
    term: Expr,
    front: Front<'_>,
    given: Vec<Given>,
    metas: Metas,
) -> Result<Attempt, Halt>
    ensures value { (rest : Term) → Runs (spec.with_pi locals (record { term = term; rest = rest; given = given.items; changes = metas })
        (Some (values.front front.entry)) run.gives units.old) result units.new }
    ensures calm { Calm result }
{
    let mut metas = metas;
    let mut given = given;
    if metas.count() > GREATEST {
        drop(term);
        return Err(out(units));
    }
    let number = metas.fresh(front.domain.copy(alloc)?, locals, 0)?;
    given.push(Given {
        number,
        kind: front.binder.kind,
        ty: front.domain.copy(alloc)?,
    })?;
    let variable = Expr::meta(alloc, number)?;
    let term = put(units, Expr::app(alloc, term, variable.copy(alloc)?)?)?;
    let rest = instance(alloc, units, front.body, &variable)?;
    Ok(Attempt {
        term,
        rest,
        given,
        metas,
    })
}

// With a metavariable for the first pi of what is left of the type, where that is one.
fn with_pi(alloc: Global, units: &mut u64, locals: u32, attempt: Attempt) -> Result<Attempt, Halt>
    ensures value { Runs (spec.with_pi locals attempt (forms.as_pi attempt.rest) run.gives units.old) result units.new }
    ensures calm { Calm result }
{
    let Attempt {
        term,
        rest,
        given,
        metas,
    } = attempt;
    match as_pi(&rest) {
        None => Ok(Attempt {
            term,
            rest,
            given,
            metas,
        }),
        Some(front) => {
            let next = with_given(alloc, units, locals, term, front, given, metas);
            drop(rest);
            next
        }
    }
}

/// The candidate at fresh metavariables for all pis of its type, as it stands, each made for so many locals. What is left of
/// the type behind each costs its nodes. Out where units, depth or numbers don't suffice, and NoMemory; no other halt.
#[tactic(auto, using(lf_steps::proofs::Runs::halts, crate::proofs::Pis::one_pi))]
pub fn for_pis(
    alloc: Global,
    units: &mut u64,
    locals: u32,
    candidate: Candidate,
) -> Result<Attempt, Halt>
    ensures value { Runs (spec.for_pis locals (telescope.pi_count candidate.ty) (attempts.before_pis candidate) units.old) result units.new }
    ensures calm { Calm result }
{
    let mut left = pi_count(&candidate.ty).ok_or(NoMemory)?;
    let mut attempt = before_pis(alloc, candidate)?;
    'pis: while left > 0 {
        attempt = with_pi(alloc, units, locals, attempt)?;
        left -= 1;
    }
    Ok(attempt)
}
