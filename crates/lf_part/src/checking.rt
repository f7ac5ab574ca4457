//! Calls of the checker and of the resolution of instances.
ghost use Rattle.std.specs.Prelude.{◌≡◌, ◌≤◌, ℕ};
ghost use Rattle.lf_elaboration.specs.Part as spec;
ghost use Rattle.lf_elaboration.specs.Run as run;
ghost use Rattle.lf_part.specs.Runs.{Runs, Rose};
ghost use Rattle.lf_part.specs.Values as own;

use crate::ended::Ended;
use crate::locals::Locals;
use crate::part::Part;
use crate::synth::Synth;
use lf_base::Stop;
use lf_check::whnf_within;
use lf_core::Expr;

/// The weak head form, with definitions unfolded. It changes no state.
#[tactic(auto, using(crate::proofs::Runs::check_ends, crate::proofs::Runs::told, crate::proofs::Calls::check_is))]
pub fn whnf<S: Synth, P: Stop>(
    part: Part<'_, S>,
    locals: &mut Locals,
    units: &mut u64,
    stop: &mut P,
    term: &Expr,
) -> Result<Expr, Ended>
    ensures value { (s : spec.State) → Runs (spec.whnf (own.calls (own.part S.meaning part.entry) part.entry.depth) locals.old term.now units.old s)
        result units.new s }
    ensures kept { locals.new ≡ locals.old }
    ensures count { P.stops stop.old ≤ P.stops stop.new }
    ensures rose { Rose result (P.stops stop.old) (P.stops stop.new) }
{
    Ok(whnf_within(part.check(), &mut locals.types, units, stop, true, term)?)
}

/// An instance of the type, where there is one. It changes no state.
#[tactic(auto, using(crate::proofs::Runs::check_ends, crate::proofs::Runs::told, crate::proofs::Calls::synthesize_is))]
pub fn synthesize<S: Synth, P: Stop>(
    part: Part<'_, S>,
    locals: &mut Locals,
    units: &mut u64,
    stop: &mut P,
    ty: &Expr,
) -> Result<Option<Expr>, Ended>
    ensures value { (s : spec.State) → Runs (run.checks ((own.calls (own.part S.meaning part.entry) part.entry.depth).synthesize locals.old.types ty.now)
        units.old s) result units.new s }
    ensures kept { locals.new ≡ locals.old }
    ensures count { P.stops stop.old ≤ P.stops stop.new }
    ensures rose { Rose result (P.stops stop.old) (P.stops stop.new) }
{
    Ok(part.synth.synthesize(part.check(), part.scope, &mut locals.types, units, stop, ty)?)
}
