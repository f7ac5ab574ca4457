//! Why the inside of a call ends without a value.
ghost use Rattle.std.specs.Prelude.{◌≡◌, []};
ghost use Rattle.lf_steps.specs.declared.halt.Halt.TheVariants as halt;

use lf_checker::TypeFault;
use lf_core::{Name, NoMemory, TaskKey};
use std::alloc::{AllocError, AllocFailed, Global};

/// A fault, with the names of the binders that were opened round its place, from the outside in.
#[derive(Debug, Drop)]
pub struct Refused {
    pub fault: TypeFault,
    pub opened: Vec<Name>,
}

/// Why the inside of a call ended without a value.
#[derive(Debug, Drop)]
pub enum Halt {
    Refused(Refused),
    /// The units, the nesting or the depth don't suffice.
    Out,
    /// This has to be made first.
    Need(TaskKey),
    Stopped,
    NoMemory,
}

impl From<NoMemory> for Halt {
    ghost use Rattle.std.specs.Prelude.{◌≡◌};
    ghost use Rattle.lf_steps.specs.declared.halt.Halt.TheVariants as halt;

    ghost from_gives = { λ _ e. e ≡ halt.NoMemory };

    fn from(_: NoMemory) -> Halt {
        Halt::NoMemory
    }
}

impl From<AllocError> for Halt {
    ghost use Rattle.std.specs.Prelude.{◌≡◌};
    ghost use Rattle.lf_steps.specs.declared.halt.Halt.TheVariants as halt;

    ghost from_gives = { λ _ e. e ≡ halt.NoMemory };

    fn from(_: AllocError) -> Halt {
        Halt::NoMemory
    }
}

impl<T: Drop> From<AllocFailed<T>> for Halt {
    ghost use Rattle.std.specs.Prelude.{◌≡◌};
    ghost use Rattle.lf_steps.specs.declared.halt.Halt.TheVariants as halt;

    ghost from_gives = { λ _ e. e ≡ halt.NoMemory };

    fn from(_: AllocFailed<T>) -> Halt {
        Halt::NoMemory
    }
}

/// Gives up, with no units left.
pub fn out(units: &mut u64) -> Halt
    ensures is { result ≡ halt.Out }
    ensures units { units.new ≡ 0 }
{
    *units = 0;
    Halt::Out
}

/// This has to be made first; no units are left.
pub fn need(units: &mut u64, key: TaskKey) -> Halt
    ensures is { result ≡ halt.Need key }
    ensures units { units.new ≡ 0 }
{
    *units = 0;
    Halt::Need(key)
}

/// A refusal at a place round which no binder is opened yet.
pub fn refusal(alloc: Global, fault: TypeFault) -> Refused
    ensures fault { result.fault ≡ fault }
    ensures opened { result.opened.items ≡ [] }
{
    Refused {
        fault,
        opened: Vec::new(alloc),
    }
}
