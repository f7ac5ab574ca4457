//! What is left of a constructor's type behind each of its fields.
ghost use Rattle.std.specs.Prelude.{◌≡◌, ◌≤◌, ◌∷◌, reverse, IfOk};
ghost use Rattle.lf_checker.specs.Checker.{calls};
ghost use Rattle.lf_elaboration.specs.Equivalence as spec;
ghost use Rattle.lf_steps.specs.Runs.{RunsAs, Rose};

use lf_base::Stop;
use lf_check::{Cx, Mode, sort_of};
use lf_core::{Expr, Level, NoMemory};
use lf_recursor::Local;
use lf_steps::Halt;
use lf_telescope::pis_closed;
use std::marker::Model;

/// What is left of a type, with the level of its sort. Contracts see the pair.
#[derive(Debug, Drop)]
pub struct Rest {
    pub ty: Expr,
    pub level: Level,
}

impl Model for Rest {
    ghost use Rattle.lf_core.specs.Term.{Term, Universe};
    ghost use Rattle.lf_equivalence.specs.Codes.{coded_rest};

    ghost Value = { Term × Universe };

    ghost coded = { coded_rest };

    ghost view = { λ r. (r.ty, r.level) };
}

// The types from the last on with one more, which stands before them.
#[tactic(auto, using(crate::proofs::Lists::one_back))]
fn with_rest(rests: Vec<Rest>, ty: Expr, level: Level) -> Result<Vec<Rest>, NoMemory>
    ensures { IfOk result (λ v. reverse v.items ≡ (ty, level) ∷ reverse rests.items) }
{
    let mut all = rests;
    all.push(Rest { ty, level })?;
    Ok(all)
}

// The types behind each of the locals, of which the first has the number `k`, from the last on.
#[tactic(auto, using(lf_steps::proofs::Runs::halts))]
fn types_back<P: Stop>(
    cx: Cx<'_>,
    context: &mut Vec<Expr>,
    units: &mut u64,
    stop: &mut P,
    k: usize,
    locals: &[Local],
    end: &Expr,
) -> Result<Vec<Rest>, Halt>
    ensures value { RunsAs (λ v. reverse v.items)
        (spec.rest_types (calls cx.entry.view.now cx.entry.depth) context.old.items k locals.now end.now units.old) result units.new }
    ensures kept { context.new.items ≡ context.old.items }
    ensures count { P.stops stop.old ≤ P.stops stop.new }
    ensures rose { Rose result (P.stops stop.old) (P.stops stop.new) }
{
    let alloc = cx.alloc;
    match locals {
        [] => Ok(Vec::new(alloc)),
        [_x, xs @ ..] => {
            let next = k.checked_add(1).ok_or(NoMemory)?;
            let ty = pis_closed(alloc, units, next, xs, end.copy(alloc)?)?;
            let level = sort_of(cx, context, units, stop, Mode::Checked, &ty)?;
            let rest = types_back(cx, context, units, stop, next, xs, end)?;
            Ok(with_rest(rest, ty, level)?)
        }
    }
}

/// The types behind each of the locals, of which the first has the number `k`, up to `end`, with their levels: in the
/// context of all that they speak of. Refused, Out and Need where the definition is.
#[tactic(auto, using(lf_steps::proofs::Runs::halts))]
pub fn rest_types<P: Stop>(
    cx: Cx<'_>,
    context: &mut Vec<Expr>,
    units: &mut u64,
    stop: &mut P,
    k: usize,
    locals: &[Local],
    end: &Expr,
) -> Result<Vec<Rest>, Halt>
    ensures value { RunsAs (λ v. v.items)
        (spec.rest_types (calls cx.entry.view.now cx.entry.depth) context.old.items k locals.now end.now units.old) result units.new }
    ensures kept { context.new.items ≡ context.old.items }
    ensures count { P.stops stop.old ≤ P.stops stop.new }
    ensures rose { Rose result (P.stops stop.old) (P.stops stop.new) }
{
    let mut all = types_back(cx, context, units, stop, k, locals, end)?;
    all.reverse();
    Ok(all)
}
