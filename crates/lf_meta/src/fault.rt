//! Why an assignment isn't made.
use lf_core::NoMemory;
use std::alloc::AllocError;

/// Why a metavariable isn't assigned.
#[derive(Clone, Copy, Debug, PartialEq, Eq)]
pub enum MetaFault {
    /// It occurs in the value.
    Occurs,
    /// It doesn't, but the free variable of this number does, which is none of its context.
    Scope(u32),
    NoMemory,
}

impl From<NoMemory> for MetaFault {
    ghost use Rattle.std.specs.Prelude.{◌≡◌};
    ghost use Rattle.lf_meta.specs.declared.fault.MetaFault.TheVariants as fault;

    ghost from_gives = { λ _ e. e ≡ fault.NoMemory };

    fn from(_: NoMemory) -> MetaFault {
        MetaFault::NoMemory
    }
}

impl From<AllocError> for MetaFault {
    ghost use Rattle.std.specs.Prelude.{◌≡◌};
    ghost use Rattle.lf_meta.specs.declared.fault.MetaFault.TheVariants as fault;

    ghost from_gives = { λ _ e. e ≡ fault.NoMemory };

    fn from(_: AllocError) -> MetaFault {
        MetaFault::NoMemory
    }
}
