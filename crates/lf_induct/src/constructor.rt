//! The type of a constructor: pis over the type's own parameters, then its fields, then its end.
ghost use Rattle.std.specs.Prelude.{◌≡◌, ◌≤◌, ◌∷◌, []};
ghost use Rattle.lf_core.specs.Term.{Path, Universe};
ghost use Rattle.lf_rules.specs.Environment.{Context};
ghost use Rattle.lf_rules.specs.Recursor.{Family as FamilyValue};
ghost use Rattle.lf_rules.specs.Telescope.{Telescope};
ghost use Rattle.lf_checker.specs.Admission as spec;
ghost use Rattle.lf_checker.specs.Calls.{Calls};
ghost use Rattle.lf_checker.specs.Checker.{calls};
ghost use Rattle.lf_steps.specs.Runs.{Runs, RunsAs, Rose};
ghost use Rattle.lf_recursor.specs.Values.{family_of};
ghost use Rattle.lf_induct.specs.Parts as parts;

use crate::fields::{admit_fields, bad_result};
use crate::front::{Front, front_of};
use crate::read::Read;
use lf_base::Stop;
use lf_check::{Cx, close, open};
use lf_core::{CtorInfo, Expr, Level, Name, NoMemory};
use lf_recursor::{Family, Local, pi_count};
use lf_steps::{Halt, opening, under};

// The next parameter, where it is the type's own, tree for tree.
#[tactic(auto, using(crate::proofs::Walks::no_parameter, crate::proofs::Walks::other_parameter, crate::proofs::Walks::same_parameter))]
fn next_parameter<'a>(param: &Local, term: &'a Expr) -> Option<Front<'a>>
    ensures { (c : Calls) (f : FamilyValue) (r : Universe) (n : Path) (xs : Telescope) (C : Context)
        → spec.admit_constructor c f r n (param.now ∷ xs) C term.now ≡ parts.at_parameter c f r n xs C result }
{
    let front = front_of(term)?;
    if !param.ty.is(front.domain) {
        return None;
    }
    Some(front)
}

/// What is read of a constructor of this name, whose type is still to be read from `term` on, behind these parameters.
/// Opening a parameter or a field costs the nodes of what is made.
#[tactic(auto, using(lf_steps::proofs::Runs::halts, lf_check::proofs::Fronts::front_push, lf_steps::proofs::Runs::named_runs))]
fn admit_constructor<P: Stop>(
    cx: Cx<'_>,
    locals: &mut Vec<Expr>,
    units: &mut u64,
    stop: &mut P,
    family: &Family,
    wanted: &Level,
    name: &Name,
    params: &[Local],
    term: &Expr,
) -> Result<Read, Halt>
    ensures value { Runs (spec.admit_constructor (calls cx.entry.view.now cx.entry.depth) (family_of family.now) wanted.now name.now params.now
        locals.old.items term.now units.old) result units.new }
    ensures kept { locals.new.items ≡ locals.old.items }
    ensures count { P.stops stop.old ≤ P.stops stop.new }
    ensures rose { Rose result (P.stops stop.old) (P.stops stop.new) }
{
    match params {
        [] => {
            let left = pi_count(term).ok_or(NoMemory)?;
            admit_fields(cx, locals, units, stop, family, wanted, name, 1, left, term)
        }
        [param, rest @ ..] => match next_parameter(param, term) {
            None => bad_result(cx.alloc, units, name),
            Some(front) => {
                let opened = opening(cx.alloc, units, locals.as_slice(), front.body)?;
                open(cx.alloc, locals, front.domain)?;
                let inner = admit_constructor(
                    cx, locals, units, stop, family, wanted, name, rest, &opened,
                );
                close(locals);
                drop(opened);
                under(cx.alloc, &front.binder.name, inner)
            }
        },
    }
}

/// What is read of each of the constructors, in order.
#[tactic(auto, using(lf_steps::proofs::Runs::halts, crate::proofs::Listings::none_left, crate::proofs::Listings::one_more, crate::proofs::Listings::from_none))]
pub fn admit_constructors<P: Stop>(
    cx: Cx<'_>,
    units: &mut u64,
    stop: &mut P,
    family: &Family,
    wanted: &Level,
    ctors: &[CtorInfo],
) -> Result<Vec<Read>, Halt>
    ensures value { RunsAs (λ v. v.items) (spec.admit_constructors (calls cx.entry.view.now cx.entry.depth) (family_of family.now) wanted.now ctors.now
        units.old)
        result units.new }
    ensures count { P.stops stop.old ≤ P.stops stop.new }
    ensures rose { Rose result (P.stops stop.old) (P.stops stop.new) }
{
    let mut locals = Vec::new(cx.alloc);
    let mut reads = Vec::new(cx.alloc);
    'constructors: for ctor in ctors {
        let params = family.params.as_slice();
        let read = admit_constructor(
            cx,
            &mut locals,
            units,
            stop,
            family,
            wanted,
            &ctor.name,
            params,
            &ctor.ty,
        )?;
        reads.push(read)?;
    }
    Ok(reads)
}
