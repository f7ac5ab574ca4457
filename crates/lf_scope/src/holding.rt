//! What holds in a scope.
ghost use Rattle.std.specs.Prelude.{◌≡◌, [], IfOk};
ghost use Rattle.lf_elaboration.specs.Scope.{name_of, same_ending};

use crate::chain::Chain;
use lf_base::NoMemory;
use lf_name::{Name, same_parts};
use lf_syntax::{Binders, Ident, Shared};
use std::alloc::Global;

/// What holds in a scope: its namespace, None where that is empty, and what is opened and declared in it, of each of
/// its commands in order.
#[derive(Drop)]
pub struct Holding {
    pub namespace: Option<Name>,
    pub opened: Chain<Shared<Ident>>,
    pub universes: Chain<Shared<Ident>>,
    pub variables: Chain<Shared<Binders>>,
}

/// A scope that isn't closed yet: the name with which an `end` closes it, and what held before it.
#[derive(Drop)]
pub struct Enclosing {
    pub closed_by: Option<Name>,
    pub before: Holding,
}

/// The same name, where there is one.
pub fn copy_name(alloc: Global, name: &Option<Name>) -> Result<Option<Name>, NoMemory>
    ensures { IfOk result (λ n. n ≡ name.now) }
{
    match name {
        Some(name) => Ok(Some(name.copy(alloc)?)),
        None => Ok(None),
    }
}

/// The name of an identifier, where there is one.
pub fn ident_name(alloc: Global, ident: &Option<Ident>) -> Result<Option<Name>, NoMemory>
    ensures { IfOk result (λ n. n ≡ name_of ident.now) }
{
    match ident {
        Some(ident) => Ok(Some(ident.name.copy(alloc)?)),
        None => Ok(None),
    }
}

/// Whether an `end` with this identifier closes what that name closes.
pub fn same_ending(closed_by: &Option<Name>, ident: &Option<Ident>) -> bool
    ensures { result ≡ same_ending closed_by.now (name_of ident.now) }
{
    match (closed_by, ident) {
        (None, None) => true,
        (Some(name), Some(ident)) => same_parts(name.parts(), ident.name.parts()),
        (None, Some(_)) | (Some(_), None) => false,
    }
}

impl Holding {
    /// What holds before the first command.
    pub fn start() -> Holding
        ensures { result ≡ record { namespace = None; opened = []; universes = []; variables = [] } }
    {
        Holding {
            namespace: None,
            opened: Chain::new(),
            universes: Chain::new(),
            variables: Chain::new(),
        }
    }

    /// The same; it shares all that it holds.
    pub fn copy(&self, alloc: Global) -> Result<Holding, NoMemory>
        ensures { IfOk result (λ h. h ≡ self.now) }
    {
        Ok(Holding {
            namespace: copy_name(alloc, &self.namespace)?,
            opened: self.opened.copy(alloc)?,
            universes: self.universes.copy(alloc)?,
            variables: self.variables.copy(alloc)?,
        })
    }
}
