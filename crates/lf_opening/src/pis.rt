//! The number of a type's pis.
ghost use Rattle.std.specs.Prelude.{◌≡◌, ◌≤◌};
ghost use Rattle.lf_elaboration.specs.Forms as forms;
ghost use Rattle.lf_elaboration.specs.Part as parts;
ghost use Rattle.lf_part.specs.Runs.{Runs, Calm, Rose};
ghost use Rattle.lf_part.specs.Values as own;
ghost use Rattle.lf_opening.specs.Pis as pis;

use lf_base::Stop;
use lf_check::whnf_within;
use lf_core::Expr;
use lf_forms::{Binding, as_pi};
use lf_items::push_all;
use lf_part::{Ended, Locals, Part, Synth};
use lf_steps::opening;
use std::alloc::Global;
use std::marker::Model;

/// A type under variables of these types.
#[derive(Drop)]
struct Under {
    types: Vec<Expr>,
    ty: Expr,
}

impl Model for Under {
    ghost use Rattle.std.specs.Coded.{codes};
    ghost use Rattle.lf_core.specs.Codes.{coded_term};
    ghost use Rattle.lf_opening.specs.Pis as pis;

    ghost Value = { pis.Under };

    ghost coded = { Prim.hlevel (codes, coded_term) };

    ghost view = { λ u. record { types = u.types.items; ty = u.ty } };
}

// The weak head form under variables of these types.
#[tactic(auto, using(lf_part::proofs::Runs::check_ends, lf_part::proofs::Runs::told, lf_part::proofs::Calls::check_is), unfolding(crate::specs::Pis::form_under))]
fn form_under<S: Synth, P: Stop>(
    part: Part<'_, S>,
    types: &mut Vec<Expr>,
    units: &mut u64,
    stop: &mut P,
    ty: &Expr,
) -> Result<Expr, Ended>
    ensures value { (s : parts.State) → Runs (pis.form_under (own.calls (own.part S.meaning part.entry) part.entry.depth) types.old.items ty.now
        units.old s) result units.new s }
    ensures kept { types.new.items ≡ types.old.items }
    ensures count { P.stops stop.old ≤ P.stops stop.new }
    ensures rose { Rose result (P.stops stop.old) (P.stops stop.new) }
{
    Ok(whnf_within(part.check(), types, units, stop, true, ty)?)
}

// The codomain of a pi, under one variable more.
#[tactic(auto, using(lf_part::proofs::Runs::check_halts, lf_part::proofs::Runs::check_ends, lf_part::proofs::Runs::told))]
fn under_pi(alloc: Global, units: &mut u64, types: Vec<Expr>, pi: &Binding) -> Result<Under, Ended>
    ensures value { (s : parts.State) → Runs (pis.under_pi types.items pi.now units.old s) result units.new s }
    ensures calm { Calm result }
{
    let ty = opening(alloc, units, types.as_slice(), &pi.body)?;
    let mut types = types;
    types.push(pi.domain.copy(alloc)?)?;
    Ok(Under { types, ty })
}

// What stands below the pi that the weak head form is.
#[tactic(auto, using(lf_part::proofs::Runs::halts))]
fn at_form(
    alloc: Global,
    units: &mut u64,
    types: Vec<Expr>,
    form: &Expr,
) -> Result<Option<Under>, Ended>
    ensures value { (s : parts.State) → Runs (pis.at_form types.items (forms.as_pi form.now) units.old s) result units.new s }
    ensures calm { Calm result }
{
    match as_pi(alloc, form)? {
        None => Ok(None),
        Some(pi) => {
            let next = under_pi(alloc, units, types, &pi)?;
            Ok(Some(next))
        }
    }
}

// What stands below the first pi of the type, where it has one.
#[tactic(auto, using(lf_part::proofs::Runs::halts), unfolding(crate::specs::Pis::below_pi))]
fn below_pi<S: Synth, P: Stop>(
    part: Part<'_, S>,
    units: &mut u64,
    stop: &mut P,
    under: Under,
) -> Result<Option<Under>, Ended>
    ensures value { (s : parts.State) → Runs (pis.below_pi (own.calls (own.part S.meaning part.entry) part.entry.depth) under units.old s) result
        units.new s }
    ensures count { P.stops stop.old ≤ P.stops stop.new }
    ensures rose { Rose result (P.stops stop.old) (P.stops stop.new) }
{
    let Under { mut types, ty } = under;
    let form = form_under(part, &mut types, units, stop, &ty)?;
    drop(ty);
    at_form(part.alloc, units, types, &form)
}

/// The number of the type's pis, along weak head forms; each opened codomain costs its nodes. It changes no state.
#[tactic(auto, using(crate::proofs::Counts::pis_none, crate::proofs::Counts::pis_end, crate::proofs::Counts::pis_go_on, crate::proofs::Counts::pis_halt, crate::proofs::Counts::pis_begun), unfolding(lf_checker::specs::Whnf::turn_limit))]
pub fn pis_of<S: Synth, P: Stop>(
    part: Part<'_, S>,
    locals: &Locals,
    units: &mut u64,
    stop: &mut P,
    ty: &Expr,
) -> Result<u64, Ended>
    ensures value { (s : parts.State) → Runs (pis.pis_of (own.calls (own.part S.meaning part.entry) part.entry.depth) locals.now.types ty.now
        units.old s) result units.new s }
    ensures count { P.stops stop.old ≤ P.stops stop.new }
    ensures rose { Rose result (P.stops stop.old) (P.stops stop.new) }
{
    let mut types = Vec::new(part.alloc);
    push_all(&mut types, locals.types.as_slice())?;
    let ty = ty.copy(part.alloc)?;
    let mut under = Under { types, ty };
    let mut count: u64 = 0;
    let mut left = u64::MAX;
    'pis: while left > 0 {
        match below_pi(part, units, stop, under)? {
            None => return Ok(count),
            Some(next) => under = next,
        }
        count += 1;
        left -= 1;
    }
    drop(under);
    Err(Ended::Out)
}
