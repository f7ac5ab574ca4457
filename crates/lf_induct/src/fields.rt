//! The fields of a constructor, and its end.
ghost use Rattle.std.specs.Prelude.{◌≡◌, ◌≤◌, ℕ, OnSome};
ghost use Rattle.lf_checker.specs.Admission as spec;
ghost use Rattle.lf_checker.specs.Checker.{calls};
ghost use Rattle.lf_steps.specs.Runs.{Runs, Rose, Calm};
ghost use Rattle.lf_recursor.specs.Values.{family_of};
ghost use Rattle.lf_core.specs.Term.{Path, Universe};
ghost use Rattle.lf_rules.specs.Environment.{Context};
ghost use Rattle.lf_rules.specs.Recursor.{Family as FamilyValue};
ghost use Rattle.lf_checker.specs.Calls.{Calls};
ghost use Rattle.lf_checker.specs.Run as run;
ghost use Rattle.lf_checker.specs.declared.fault.TypeFault.TheVariants as fault;
ghost use Rattle.lf_checker.specs.Admission.{Read as ReadValue};
ghost use Rattle.lf_induct.specs.Parts as parts;

use crate::family::indices_of;
use crate::form::{is_at_indices, is_positive};
use crate::front::{Front, front_of};
use crate::levels::is_low;
use crate::read::{Read, fieldless, with_field};
use lf_base::Stop;
use lf_check::{Cx, Mode, close, open, sort_of};
use lf_checker::TypeFault;
use lf_core::{Expr, Level, Name, NoMemory};
use lf_recursor::Family;
use lf_steps::{Halt, opening, refusal, under};
use std::alloc::Global;

/// A refusal of a constructor that isn't over the type's parameters, or doesn't end in the type at indices.
pub fn bad_result(alloc: Global, units: &mut u64, name: &Name) -> Result<Read, Halt>
    ensures value { Runs (run.refuse {A = ReadValue} (fault.BadResult name.now) units.old) result units.new }
    ensures calm { Calm result }
{
    let _left = *units;
    let fault = TypeFault::BadResult(name.copy(alloc)?);
    Err(Halt::Refused(refusal(alloc, fault)))
}

// The end of a constructor's type: the type at indices, which is a type.
#[tactic(auto, using(lf_steps::proofs::Runs::halts))]
fn admit_end<P: Stop>(
    cx: Cx<'_>,
    locals: &mut Vec<Expr>,
    units: &mut u64,
    stop: &mut P,
    family: &Family,
    name: &Name,
    term: &Expr,
) -> Result<Read, Halt>
    ensures value { Runs (spec.admit_end (calls cx.entry.view.now cx.entry.depth) (family_of family.now) name.now locals.old.items term.now units.old) result
        units.new }
    ensures kept { locals.new.items ≡ locals.old.items }
    ensures count { P.stops stop.old ≤ P.stops stop.new }
    ensures rose { Rose result (P.stops stop.old) (P.stops stop.new) }
{
    if !is_at_indices(cx.alloc, family, term)? {
        return bad_result(cx.alloc, units, name);
    }
    sort_of(cx, locals, units, stop, Mode::Checked, term)?;
    Ok(fieldless(cx.alloc, indices_of(cx.alloc, family, term)?))
}

// The level of a field of number `number`, where the field is positive and of a level that is low enough.
fn fits(
    alloc: Global,
    units: &mut u64,
    family: &Family,
    wanted: &Level,
    name: &Name,
    number: u32,
    ty: &Expr,
    level: Level,
) -> Result<Level, Halt>
    ensures value { Runs (parts.fits (family_of family.now) wanted.now name.now number ty.now level units.old) result units.new }
    ensures calm { Calm result }
{
    let _left = *units;
    if !is_positive(alloc, family, ty)? {
        let fault = TypeFault::NotPositive(name.copy(alloc)?, number);
        return Err(Halt::Refused(refusal(alloc, fault)));
    }
    if !is_low(alloc, &level, wanted)? {
        let fault = TypeFault::LevelTooHigh(name.copy(alloc)?, number);
        return Err(Halt::Refused(refusal(alloc, fault)));
    }
    Ok(level)
}

// The level of a field of this type, which is a type, positive and low enough.
#[tactic(auto, using(lf_steps::proofs::Runs::halts))]
fn field<P: Stop>(
    cx: Cx<'_>,
    locals: &mut Vec<Expr>,
    units: &mut u64,
    stop: &mut P,
    family: &Family,
    wanted: &Level,
    name: &Name,
    number: u32,
    ty: &Expr,
) -> Result<Level, Halt>
    ensures value { Runs (parts.field (calls cx.entry.view.now cx.entry.depth) (family_of family.now) wanted.now name.now number locals.old.items ty.now
        units.old) result units.new }
    ensures kept { locals.new.items ≡ locals.old.items }
    ensures count { P.stops stop.old ≤ P.stops stop.new }
    ensures rose { Rose result (P.stops stop.old) (P.stops stop.new) }
{
    let level = sort_of(cx, locals, units, stop, Mode::Checked, ty)?;
    fits(cx.alloc, units, family, wanted, name, number, ty, level)
}

// The next field, where one is left.
#[tactic(auto, using(crate::proofs::Walks::at_field, crate::proofs::Walks::no_field, crate::proofs::Walks::at_end))]
fn next_field(left: u32, term: &Expr) -> Option<Front<'_>>
    ensures front { (c : Calls) (f : FamilyValue) (r : Universe) (n : Path) (i : ℕ) (C : Context)
        → spec.admit_fields c f r n i left C term.now ≡ parts.at_front c f r n i left C term.now result }
    ensures within { OnSome result (1 ≤ left) }
{
    if left == 0 {
        return None;
    }
    front_of(term)
}

/// The fields from the one of number `number` on, of which there are at most `left`, and the end: each is a type,
/// positive, and of a level that is at most `wanted` unless that is 0. Opening a field costs the nodes of what is made.
#[tactic(auto, using(lf_steps::proofs::Runs::halts, lf_check::proofs::Fronts::front_push, lf_steps::proofs::Runs::named_runs))]
pub fn admit_fields<P: Stop>(
    cx: Cx<'_>,
    locals: &mut Vec<Expr>,
    units: &mut u64,
    stop: &mut P,
    family: &Family,
    wanted: &Level,
    name: &Name,
    number: u32,
    left: u32,
    term: &Expr,
) -> Result<Read, Halt>
    ensures value { Runs (spec.admit_fields (calls cx.entry.view.now cx.entry.depth) (family_of family.now) wanted.now name.now number left locals.old.items
        term.now units.old) result units.new }
    ensures kept { locals.new.items ≡ locals.old.items }
    ensures count { P.stops stop.old ≤ P.stops stop.new }
    ensures rose { Rose result (P.stops stop.old) (P.stops stop.new) }
{
    match next_field(left, term) {
        None => admit_end(cx, locals, units, stop, family, name, term),
        Some(front) => {
            let next = number.checked_add(1).ok_or(NoMemory)?;
            let ty = front.domain;
            let level = field(cx, locals, units, stop, family, wanted, name, number, ty)?;
            let opened = opening(cx.alloc, units, locals.as_slice(), front.body)?;
            open(cx.alloc, locals, ty)?;
            let inner = admit_fields(
                cx,
                locals,
                units,
                stop,
                family,
                wanted,
                name,
                next,
                left - 1,
                &opened,
            );
            close(locals);
            drop(opened);
            let read = under(cx.alloc, &front.binder.name, inner)?;
            Ok(with_field(level, read)?)
        }
    }
}
