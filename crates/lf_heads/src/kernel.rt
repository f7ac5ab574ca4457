//! The kernel's calls as runs of a part. They are of closed terms, and a refusal is an error of the part as a whole.
ghost use Rattle.std.specs.Prelude.{◌≡◌, ◌≤◌};
ghost use Rattle.lf_checker.specs.Admission as admission;
ghost use Rattle.lf_checker.specs.Checker as checker;
ghost use Rattle.lf_checker.specs.Run.{Answer};
ghost use Rattle.lf_document.specs.Setting.{by_kernel};
ghost use Rattle.lf_elaboration.specs.Part as spec;
ghost use Rattle.lf_elaboration.specs.Run as run;
ghost use Rattle.lf_heads.specs.Kernels.{by_halt};
ghost use Rattle.lf_part.specs.Runs.{Runs, Calm, Rose};
ghost use Rattle.lf_part.specs.Values as own;
ghost use Rattle.lf_steps.specs.Runs as steps;

use crate::makes::Constants;
use crate::within::{decl, header, inductive};
use lf_base::Stop;
use lf_check::normalize_within;
use lf_core::{ConstInfo, Expr, IndDecl, Level, Name};
use lf_part::{Ended, Locals, Part, State, Synth, refusal_at};
use lf_steps::Halt;

// What a halt of the kernel ends the part with.
fn halted<T: Drop, S: Synth>(
    part: Part<'_, S>,
    units: &mut u64,
    state: &State,
    halt: Halt,
) -> Result<T, Ended>
    ensures value { (o : Answer T) → (steps.IsTold halt → o ≡ steps.halted halt units.old)
        → Runs (by_halt (own.part S.meaning part.entry) (own.state state.now) o) result units.new (own.state state.now) }
    ensures calm { (halt ≡ Halt.Stopped → ⊥) → Calm result }
{
    match halt {
        Halt::Refused(refused) => {
            let none = Locals {
                types: Vec::new(part.alloc),
                names: Vec::new(part.alloc),
            };
            refusal_at(part, &none, units, state, part.place, refused)
        }
        Halt::Out => Err(Ended::Out),
        Halt::Need(key) => Err(Ended::Need(key)),
        Halt::Stopped => Err(Ended::Stopped),
        Halt::NoMemory => Err(Ended::NoMemory),
    }
}

/// The level of the sort of a stated type whose name is new.
pub fn add_header<S: Synth, P: Stop>(
    part: Part<'_, S>,
    units: &mut u64,
    state: &State,
    stop: &mut P,
    name: &Name,
    ty: &Expr,
) -> Result<Level, Ended>
    ensures value { Runs (by_kernel (own.part S.meaning part.entry) (checker.add_header part.entry.view.now part.entry.depth name.now ty.now) units.old
        (own.state state.now)) result units.new (own.state state.now) }
    ensures count { P.stops stop.old ≤ P.stops stop.new }
    ensures rose { Rose result (P.stops stop.old) (P.stops stop.new) }
{
    if stop.stopped() {
        return Err(Ended::Stopped);
    }
    match header(part.check(), units, name, ty) {
        Ok(level) => Ok(level),
        Err(halt) => halted(part, units, state, halt),
    }
}

/// The height of a constant whose name is new and whose value fits its type.
pub fn add_decl<S: Synth, P: Stop>(
    part: Part<'_, S>,
    units: &mut u64,
    state: &State,
    stop: &mut P,
    info: &ConstInfo,
) -> Result<u32, Ended>
    ensures value { Runs (by_kernel (own.part S.meaning part.entry) (checker.add_decl part.entry.view.now part.entry.depth info.now) units.old
        (own.state state.now)) result units.new (own.state state.now) }
    ensures count { P.stops stop.old ≤ P.stops stop.new }
    ensures rose { Rose result (P.stops stop.old) (P.stops stop.new) }
{
    if stop.stopped() {
        return Err(Ended::Stopped);
    }
    match decl(part.check(), units, info) {
        Ok(height) => Ok(height),
        Err(halt) => halted(part, units, state, halt),
    }
}

/// The constants that an inductive declaration adds.
pub fn add_inductive<S: Synth, P: Stop>(
    part: Part<'_, S>,
    units: &mut u64,
    state: &State,
    stop: &mut P,
    declaration: &IndDecl,
) -> Result<Constants, Ended>
    ensures value { Runs (by_kernel (own.part S.meaning part.entry)
        (admission.add_inductive part.entry.view.now part.entry.depth declaration.now) units.old (own.state state.now)) result units.new
        (own.state state.now) }
    ensures count { P.stops stop.old ≤ P.stops stop.new }
    ensures rose { Rose result (P.stops stop.old) (P.stops stop.new) }
{
    if stop.stopped() {
        return Err(Ended::Stopped);
    }
    match inductive(part.check(), units, declaration) {
        Ok(list) => Ok(Constants { list }),
        Err(halt) => halted(part, units, state, halt),
    }
}

/// The normal form of a term in the context of these types. It is never refused.
#[tactic(auto, using(lf_part::proofs::Runs::check_ends, lf_part::proofs::Runs::told))]
pub fn normalize<S: Synth, P: Stop>(
    part: Part<'_, S>,
    types: &mut Vec<Expr>,
    units: &mut u64,
    stop: &mut P,
    term: &Expr,
) -> Result<Expr, Ended>
    ensures value { (s : spec.State) → Runs (run.checks (checker.normalize part.entry.view.now part.entry.depth types.old.items term.now) units.old s) result
        units.new s }
    ensures kept { types.new.items ≡ types.old.items }
    ensures count { P.stops stop.old ≤ P.stops stop.new }
    ensures rose { Rose result (P.stops stop.old) (P.stops stop.new) }
{
    Ok(normalize_within(part.check(), types, units, stop, term)?)
}
