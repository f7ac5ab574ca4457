//! Stated types, behind the elaborated type: what the kernel says of it, and the header that comes of it.
ghost use Rattle.std.specs.Prelude.{◌≡◌, ◌≤◌};
ghost use Rattle.lf_elaboration.specs.Part as parts;
ghost use Rattle.lf_heads.specs.Behind as words;
ghost use Rattle.lf_part.specs.Runs.{Runs, Calm, Rose};
ghost use Rattle.lf_part.specs.Values as own;

use crate::kernel::add_header;
use lf_base::Stop;
use lf_core::{Expr, Level, Name};
use lf_forms::sorry_of;
use lf_part::{Ended, Part, State, Synth};
use lf_steps::put;
use std::alloc::Global;
use std::marker::Model;

/// A type that the kernel accepts for a name, and the level of its sort.
#[derive(Debug, Drop)]
pub struct Stated {
    pub ty: Expr,
    pub sort: Level,
}

impl Model for Stated {
    ghost use Rattle.std.specs.Coded.{codes};
    ghost use Rattle.lf_core.specs.Codes.{coded_term, coded_universe};
    ghost use Rattle.lf_document.specs.Headers as headers;

    ghost Value = { headers.Stated };

    ghost coded = { Prim.hlevel (codes, coded_term, coded_universe) };

    ghost view = { λ h. record { ty = h.ty; sort = h.sort } };
}

/// The elaborated type as one that the kernel accepts for this name.
#[tactic(auto, using(lf_part::proofs::Runs::halts))]
pub fn stated_at<S: Synth, P: Stop>(
    part: Part<'_, S>,
    units: &mut u64,
    state: &State,
    stop: &mut P,
    name: &Name,
    ty: Expr,
) -> Result<Stated, Ended>
    ensures value { Runs (words.stated_at (own.part S.meaning part.entry) part.entry.depth name.now ty units.old (own.state state.now)) result units.new
        (own.state state.now) }
    ensures count { P.stops stop.old ≤ P.stops stop.new }
    ensures rose { Rose result (P.stops stop.old) (P.stops stop.new) }
{
    let sort = add_header(part, units, state, stop, name, &ty)?;
    Ok(Stated { ty, sort })
}

/// The stated type, of which `sorryAx` may stand for a value: out where that is too deep.
#[tactic(auto, using(lf_part::proofs::Runs::check_halts, lf_part::proofs::Runs::told))]
pub fn for_value(alloc: Global, units: &mut u64, stated: Stated) -> Result<Stated, Ended>
    ensures value { (s : parts.State) → Runs (words.for_value stated units.old s) result units.new s }
    ensures calm { Calm result }
{
    let sort = stated.sort.copy(alloc)?;
    let sorry = put(units, sorry_of(alloc, sort, &stated.ty)?)?;
    drop(sorry);
    Ok(stated)
}
