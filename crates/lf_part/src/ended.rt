//! Why a run of elaboration ends without a value.
ghost use Rattle.std.specs.Prelude.{◌≡◌};

use crate::message::Message;
use lf_core::{NoMemory, TaskKey};
use lf_steps::Halt;
use std::alloc::{AllocError, AllocFailed};

/// Why a run ended without a value.
#[derive(Debug, Drop)]
pub enum Ended {
    /// An error, which ends the part or the block that runs.
    Failed(Message),
    /// The units, the nesting or the depth don't suffice.
    Out,
    /// This has to be made first.
    Need(TaskKey),
    Stopped,
    NoMemory,
}

impl From<NoMemory> for Ended {
    ghost use Rattle.std.specs.Prelude.{◌≡◌};
    ghost use Rattle.lf_part.specs.declared.ended.Ended.TheVariants as ended;

    ghost from_gives = { λ _ e. e ≡ ended.NoMemory };

    fn from(_: NoMemory) -> Ended {
        Ended::NoMemory
    }
}

impl From<AllocError> for Ended {
    ghost use Rattle.std.specs.Prelude.{◌≡◌};
    ghost use Rattle.lf_part.specs.declared.ended.Ended.TheVariants as ended;

    ghost from_gives = { λ _ e. e ≡ ended.NoMemory };

    fn from(_: AllocError) -> Ended {
        Ended::NoMemory
    }
}

impl<T: Drop> From<AllocFailed<T>> for Ended {
    ghost use Rattle.std.specs.Prelude.{◌≡◌};
    ghost use Rattle.lf_part.specs.declared.ended.Ended.TheVariants as ended;

    ghost from_gives = { λ _ e. e ≡ ended.NoMemory };

    fn from(_: AllocFailed<T>) -> Ended {
        Ended::NoMemory
    }
}

impl From<Halt> for Ended {
    ghost use Rattle.std.specs.Prelude.{◌≡◌};
    ghost use Rattle.lf_part.specs.Halts.{ended_by};

    ghost from_gives = { λ h e. e ≡ ended_by h };

    /// A refusal of the checker, where none is told, is out.
    fn from(halt: Halt) -> Ended {
        match halt {
            Halt::Refused(refused) => {
                drop(refused);
                Ended::Out
            }
            Halt::Out => Ended::Out,
            Halt::Need(key) => Ended::Need(key),
            Halt::Stopped => Ended::Stopped,
            Halt::NoMemory => Ended::NoMemory,
        }
    }
}
