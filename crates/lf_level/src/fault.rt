//! Why levels aren't compared.
use lf_core::NoMemory;
use std::alloc::AllocError;
use thiserror::Error;

/// Why two levels are not compared.
#[derive(Debug, Drop, Error)]
pub enum LevelFault {
    /// The two have more than 8 distinct parameters together.
    #[error("more than 8 level parameters")]
    TooMany,
    #[error("out of memory")]
    NoMemory,
}

impl From<NoMemory> for LevelFault {
    ghost use Rattle.std.specs.Prelude.{◌≡◌};
    ghost use Rattle.lf_level.specs.declared.fault.LevelFault.TheVariants as fault;

    ghost from_gives = { λ _ e. e ≡ fault.NoMemory };

    fn from(_: NoMemory) -> LevelFault {
        LevelFault::NoMemory
    }
}

impl From<AllocError> for LevelFault {
    ghost use Rattle.std.specs.Prelude.{◌≡◌};
    ghost use Rattle.lf_level.specs.declared.fault.LevelFault.TheVariants as fault;

    ghost from_gives = { λ _ e. e ≡ fault.NoMemory };

    fn from(_: AllocError) -> LevelFault {
        LevelFault::NoMemory
    }
}
