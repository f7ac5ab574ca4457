//! Refusals that go on, and refusals under a binder.
ghost use Rattle.std.specs.Prelude.{◌≡◌};
ghost use Rattle.lf_steps.specs.Runs.{NamedRefusal, NamedResult, caught_result};

use crate::halt::{Halt, Refused};
use lf_core::Name;
use std::alloc::Global;

/// A refusal is `None`, and goes on. What else ends a call ends it here too.
pub fn attempt<T>(tried: Result<T, Halt>) -> Result<Option<T>, Halt>
    ensures { result ≡ caught_result tried }
{
    match tried {
        Ok(value) => Ok(Some(value)),
        Err(Halt::Refused(refused)) => {
            drop(refused);
            Ok(None)
        }
        Err(Halt::Out) => Err(Halt::Out),
        Err(Halt::Need(key)) => Err(Halt::Need(key)),
        Err(Halt::Stopped) => Err(Halt::Stopped),
        Err(Halt::NoMemory) => Err(Halt::NoMemory),
    }
}

// The refusal with one more binder round it.
fn named(alloc: Global, name: &Name, refused: Refused) -> Result<Refused, Halt>
    ensures { NamedRefusal name.now refused result }
{
    let name = name.copy(alloc)?;
    let Refused { fault, opened } = refused;
    let mut names = opened;
    names.insert(0, name)?;
    Ok(Refused {
        fault,
        opened: names,
    })
}

/// What a run in the body of a binder of this name gives: a refusal has its name before the others.
pub fn under<T>(alloc: Global, name: &Name, inner: Result<T, Halt>) -> Result<T, Halt>
    ensures { NamedResult name.now inner result }
{
    match inner {
        Ok(value) => Ok(value),
        Err(Halt::Refused(refused)) => Err(Halt::Refused(named(alloc, name, refused)?)),
        Err(Halt::Out) => Err(Halt::Out),
        Err(Halt::Need(key)) => Err(Halt::Need(key)),
        Err(Halt::Stopped) => Err(Halt::Stopped),
        Err(Halt::NoMemory) => Err(Halt::NoMemory),
    }
}
