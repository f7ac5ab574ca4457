//! What a step of a proof leaves to be proved, and how the proof is made of the proofs of that.
ghost use Rattle.std.specs.Prelude.{◌≡◌, ◌++◌, IfOk};
ghost use Rattle.lf_core.specs.Spine as spine;
ghost use Rattle.lf_elaboration.specs.Step as spec;
ghost use Rattle.lf_items.specs.Parts as parts;
ghost use Rattle.lf_steps.specs.Runs.{Runs, RunsAs, Calm};

use crate::lists::push_all;
use lf_core::{Expr, Level, Name, NoMemory};
use lf_steps::{Halt, apply, instance, put};
use std::alloc::Global;
use std::marker::Model;

/// What a step leaves to be proved, and how the whole proof is made of the goals' proofs: each is put as it is, or for the
/// outermost loose variable of its pad; the head is applied to them in order, and then to the tail. Without a head the
/// first of them takes its place. `asked` is the realized constant that the proof speaks of.
#[derive(Debug, Drop)]
pub struct Step {
    pub head: Option<Expr>,
    pub goals: Vec<Expr>,
    pub pads: Vec<Option<Expr>>,
    pub tail: Vec<Expr>,
    pub asked: Option<Name>,
}

impl Model for Step {
    ghost use Rattle.std.specs.Coded.{codes};
    ghost use Rattle.lf_core.specs.Codes.{coded_term};
    ghost use Rattle.lf_elaboration.specs.Step.{Step as StepValue};

    ghost Value = { StepValue };

    ghost coded = { Prim.hlevel (codes, coded_term) };

    ghost view = { λ s. record { head = s.head; goals = s.goals.items; pads = s.pads.items; tail = s.tail.items; asked = s.asked } };
}

// A goal's proof as it is, or put for the outermost loose variable of its pad.
fn padded(alloc: Global, units: &mut u64, proof: &Expr, pad: &Option<Expr>) -> Result<Expr, Halt>
    ensures value { Runs (spec.padded proof.now pad.now units.old) result units.new }
    ensures calm { Calm result }
{
    match pad {
        None => Ok(proof.copy(alloc)?),
        Some(pad) => instance(alloc, units, pad, proof),
    }
}

// Puts these proofs, each in its pad, behind `all`.
#[tactic(auto, using(lf_steps::proofs::Runs::halts, crate::proofs::Pads::none_left, crate::proofs::Pads::unpadded, crate::proofs::Pads::one_more))]
fn push_padded(
    alloc: Global,
    units: &mut u64,
    all: &mut Vec<Expr>,
    proofs: &[Expr],
    pads: &[Option<Expr>],
) -> Result<(), Halt>
    ensures value { RunsAs (λ _. all.new.items) (parts.padded_into all.old.items proofs.now pads.now units.old) result units.new }
    ensures calm { Calm result }
{
    match proofs {
        [] => Ok(()),
        [proof, others @ ..] => match pads {
            [] => Ok(push_all(all, proofs)?),
            [pad, rest @ ..] => {
                let whole = padded(alloc, units, proof, pad)?;
                all.push(whole)?;
                push_padded(alloc, units, all, others, rest)
            }
        },
    }
}

// `head` applied to these terms, and then to those.
#[tactic(auto, using(crate::proofs::Pads::apply_append))]
fn apply_both(alloc: Global, head: &Expr, first: &[Expr], last: &[Expr]) -> Result<Expr, NoMemory>
    ensures { IfOk result (λ t. t ≡ spine.apply head.now (first.now ++ last.now)) }
{
    let before = apply(alloc, head.copy(alloc)?, first)?;
    apply(alloc, before, last)
}

fn headed(
    alloc: Global,
    head: &Option<Expr>,
    proofs: &[Expr],
    tail: &[Expr],
) -> Result<Expr, NoMemory>
    ensures { IfOk result (λ t. t ≡ spec.headed head.now proofs.now tail.now) }
{
    match head {
        Some(head) => apply_both(alloc, head, proofs, tail),
        None => match proofs {
            [] => apply(alloc, Expr::sort(alloc, Level::zero(alloc)?)?, tail),
            [first, others @ ..] => apply_both(alloc, first, others, tail),
        },
    }
}

/// The proof that the step makes, from those of its goals in order. A proof that is put into a pad costs the nodes of what
/// that gives; the rest costs nothing, but may not be deeper than 1,024. Out where units or depth don't suffice, and
/// NoMemory; no other halt.
#[tactic(auto, using(lf_steps::proofs::Runs::halts, crate::proofs::Pads::from_none))]
pub fn proof_by(alloc: Global, units: &mut u64, step: &Step, proofs: &[Expr]) -> Result<Expr, Halt>
    ensures value { Runs (spec.proof_by step.now proofs.now units.old) result units.new }
    ensures calm { Calm result }
{
    let mut all = Vec::new(alloc);
    push_padded(alloc, units, &mut all, proofs, step.pads.as_slice())?;
    let whole = headed(alloc, &step.head, all.as_slice(), step.tail.as_slice())?;
    drop(all);
    put(units, whole)
}
