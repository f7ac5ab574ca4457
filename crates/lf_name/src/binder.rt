//! Binders: a name and a kind.
ghost use Rattle.std.specs.Prelude.{◌≡◌, ◌↔◌, IsTrue, IfOk};
ghost use Rattle.lf_name.specs.Same.{same_kind, same_binder};

use crate::name::Name;
use lf_base::NoMemory;
use std::alloc::Global;

/// How a binder's argument is written.
#[derive(Clone, Copy, Debug, PartialEq, Eq)]
pub enum BinderKind {
    /// `(x : A)`
    Explicit,
    /// `{x : A}`
    Implicit,
    /// `[x : A]`, an argument that instance resolution finds.
    Inst,
}

impl BinderKind {
    /// Whether the two are the same kind.
    pub fn is(self, other: BinderKind) -> bool
        ensures exact { IsTrue result ↔ (self ≡ other) }
        ensures same { result ≡ same_kind self other }
    {
        match (self, other) {
            (BinderKind::Explicit, BinderKind::Explicit)
            | (BinderKind::Implicit, BinderKind::Implicit)
            | (BinderKind::Inst, BinderKind::Inst) => true,
            _ => false,
        }
    }

    /// The same kind. It takes no memory.
    pub fn copy(&self, _alloc: Global) -> Result<BinderKind, NoMemory>
        ensures { result ≡ Ok self.now }
    {
        Ok(*self)
    }
}

/// A binder's name and kind.
#[derive(Debug, Drop)]
pub struct Binder {
    pub name: Name,
    pub kind: BinderKind,
}

impl Binder {
    /// Whether the two have the same name and kind.
    pub fn is(&self, other: &Binder) -> bool
        ensures exact { IsTrue result ↔ (self.now ≡ other.now) }
        ensures same { result ≡ same_binder self.now other.now }
    {
        self.name.is(&other.name) && self.kind.is(other.kind)
    }

    /// An equal binder.
    pub fn copy(&self, alloc: Global) -> Result<Binder, NoMemory>
        ensures { IfOk result (λ b. b ≡ self.now) }
    {
        Ok(Binder {
            name: self.name.copy(alloc)?,
            kind: self.kind,
        })
    }
}
