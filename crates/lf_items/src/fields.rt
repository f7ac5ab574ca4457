//! The number of a constructor's fields.
ghost use Rattle.std.specs.Prelude.{◌≡◌};
ghost use Rattle.lf_checker.specs.Calls.{see};
ghost use Rattle.lf_elaboration.specs.Induction as spec;
ghost use Rattle.lf_steps.specs.Runs.{Runs, Calm};

use lf_core::{Detail, Name};
use lf_env::View;
use lf_steps::{Halt, Seen, need, see};
use std::alloc::Global;

fn fields_by(detail: &Detail) -> Option<u32>
    ensures { result ≡ spec.fields_by detail.now }
{
    match detail {
        Detail::Ctor { fields, .. } => Some(*fields),
        Detail::Plain | Detail::Ind { .. } | Detail::Rec { .. } => None,
    }
}

/// The number of fields of the constructor of this name, or None where the view tells that it is none. Need where the view
/// doesn't tell yet, and NoMemory; no other halt.
pub fn fields_of(
    alloc: Global,
    view: &View,
    units: &mut u64,
    name: &Name,
) -> Result<Option<u32>, Halt>
    ensures value { Runs (spec.fields_seen (see view.now name.now) units.old) result units.new }
    ensures calm { Calm result }
{
    match see(alloc, view, name)? {
        Seen::Known(info) => Ok(fields_by(&info.detail)),
        Seen::Unknown => Ok(None),
        Seen::Missing(key) => Err(need(units, key)),
    }
}
