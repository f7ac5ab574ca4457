//! Why a step of compiling ends without a value.
ghost use Rattle.std.specs.Prelude.{◌≡◌};
ghost use Rattle.lf_match.specs.Compiles.{settled_result, wanted_result};

use lf_core::NoMemory;
use lf_equations::EquationFault;
use lf_steps::Halt;
use std::alloc::{AllocError, AllocFailed};

/// A fault of the definition, or what ends a run of the checker.
#[derive(Debug, Drop)]
pub enum Ended {
    Fault(EquationFault),
    Halted(Halt),
}

impl From<Halt> for Ended {
    ghost use Rattle.std.specs.Prelude.{◌≡◌};
    ghost use Rattle.lf_match.specs.declared.ended.Ended.TheVariants as ended;

    ghost from_gives = { λ h e. e ≡ ended.Halted h };

    fn from(halt: Halt) -> Ended {
        Ended::Halted(halt)
    }
}

impl From<NoMemory> for Ended {
    ghost use Rattle.std.specs.Prelude.{◌≡◌};
    ghost use Rattle.lf_match.specs.declared.ended.Ended.TheVariants as ended;
    ghost use Rattle.lf_steps.specs.declared.halt.Halt.TheVariants as halt;

    ghost from_gives = { λ _ e. e ≡ ended.Halted halt.NoMemory };

    fn from(_: NoMemory) -> Ended {
        Ended::Halted(Halt::NoMemory)
    }
}

impl From<AllocError> for Ended {
    ghost use Rattle.std.specs.Prelude.{◌≡◌};
    ghost use Rattle.lf_match.specs.declared.ended.Ended.TheVariants as ended;
    ghost use Rattle.lf_steps.specs.declared.halt.Halt.TheVariants as halt;

    ghost from_gives = { λ _ e. e ≡ ended.Halted halt.NoMemory };

    fn from(_: AllocError) -> Ended {
        Ended::Halted(Halt::NoMemory)
    }
}

impl<T: Drop> From<AllocFailed<T>> for Ended {
    ghost use Rattle.std.specs.Prelude.{◌≡◌};
    ghost use Rattle.lf_match.specs.declared.ended.Ended.TheVariants as ended;
    ghost use Rattle.lf_steps.specs.declared.halt.Halt.TheVariants as halt;

    ghost from_gives = { λ _ e. e ≡ ended.Halted halt.NoMemory };

    fn from(_: AllocFailed<T>) -> Ended {
        Ended::Halted(Halt::NoMemory)
    }
}

/// The value that is wanted of the argument; where there is none, the argument isn't right.
pub fn wanted<T>(found: Option<T>) -> Result<T, Ended>
    ensures { result ≡ wanted_result found }
{
    match found {
        Some(value) => Ok(value),
        None => Err(Ended::Fault(EquationFault::NotInductive)),
    }
}

/// A fault as a value, which goes on.
pub fn settled<T>(given: Result<T, Ended>) -> Result<Result<T, EquationFault>, Halt>
    ensures { result ≡ settled_result given }
{
    match given {
        Ok(value) => Ok(Ok(value)),
        Err(Ended::Fault(fault)) => Ok(Err(fault)),
        Err(Ended::Halted(halt)) => Err(halt),
    }
}
