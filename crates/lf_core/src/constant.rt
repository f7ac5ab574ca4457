//! Constants and inductive declarations.
ghost use Rattle.std.specs.Prelude.{◌≡◌, IfOk};

use crate::expr::Expr;
use lf_base::NoMemory;
use lf_name::{Copied, Name, copy_all};
use sqlite_items::Items;
use std::alloc::Global;

/// What a constant is declared as.
#[derive(Clone, Copy, Debug, PartialEq, Eq)]
pub enum ConstKind {
    Axiom,
    Def,
    Theorem,
    Inductive,
    Constructor,
    Recursor,
}

/// What only inductive types, constructors and recursors have. `index` is the constructor's place in its
/// type's list, and `rules` are the recursor's, one for each constructor.
#[derive(Debug, Drop)]
pub enum Detail {
    Plain,
    Ind {
        params: u32,
        indices: u32,
        ctors: Items<Name>,
        large: bool,
    },
    Ctor {
        ind: Name,
        index: u32,
        params: u32,
        fields: u32,
    },
    Rec {
        ind: Name,
        params: u32,
        minors: u32,
        indices: u32,
        rules: Items<Expr>,
    },
}

/// A constant of an environment. `levels` are the names of its level parameters.
#[derive(Debug, Drop)]
pub struct ConstInfo {
    pub name: Name,
    pub kind: ConstKind,
    pub levels: Items<Name>,
    pub ty: Expr,
    pub value: Option<Expr>,
    pub height: u32,
    pub detail: Detail,
}

/// A constructor as it is declared.
#[derive(Debug, Drop)]
pub struct CtorInfo {
    pub name: Name,
    pub ty: Expr,
}

/// An inductive type as it is declared, with `params` parameters.
#[derive(Debug, Drop)]
pub struct IndDecl {
    pub name: Name,
    pub levels: Items<Name>,
    pub params: u32,
    pub ty: Expr,
    pub ctors: Items<CtorInfo>,
}

/// A part of the work on a text: the head or the body of the command at a position, or a realized constant.
#[derive(Debug, Drop)]
pub enum TaskKey {
    Head(u32),
    Body(u32),
    Real(Name),
}

/// What a call with a budget answers: a value, a refusal, a spent budget, the task that has to be done first,
/// a stop, or want of memory.
#[derive(Debug, Drop)]
pub enum Ans<T, F> {
    Done(T),
    Refused(F),
    Out,
    Need(TaskKey),
    Stopped,
    NoMemory,
}

fn copy_value(alloc: Global, value: &Option<Expr>) -> Result<Option<Expr>, NoMemory>
    ensures { IfOk result (λ v. v ≡ value.now) }
{
    match value {
        Some(term) => Ok(Some(term.copy(alloc)?)),
        None => Ok(None),
    }
}

impl ConstKind {
    /// The same kind. It takes no memory.
    pub fn copy(&self, _alloc: Global) -> Result<ConstKind, NoMemory>
        ensures { result ≡ Ok self.now }
    {
        Ok(*self)
    }
}

impl Detail {
    /// A copy equal to this.
    pub fn copy(&self, alloc: Global) -> Result<Detail, NoMemory>
        ensures { IfOk result (λ d. d ≡ self.now) }
    {
        match self {
            Detail::Plain => Ok(Detail::Plain),
            Detail::Ind {
                params,
                indices,
                ctors,
                large,
            } => Ok(Detail::Ind {
                params: *params,
                indices: *indices,
                ctors: copy_all(alloc, ctors.as_slice())?,
                large: *large,
            }),
            Detail::Ctor {
                ind,
                index,
                params,
                fields,
            } => Ok(Detail::Ctor {
                ind: ind.copy(alloc)?,
                index: *index,
                params: *params,
                fields: *fields,
            }),
            Detail::Rec {
                ind,
                params,
                minors,
                indices,
                rules,
            } => Ok(Detail::Rec {
                ind: ind.copy(alloc)?,
                params: *params,
                minors: *minors,
                indices: *indices,
                rules: copy_all(alloc, rules.as_slice())?,
            }),
        }
    }
}

impl ConstInfo {
    /// A copy equal to this.
    pub fn copy(&self, alloc: Global) -> Result<ConstInfo, NoMemory>
        ensures { IfOk result (λ c. c ≡ self.now) }
    {
        Ok(ConstInfo {
            name: self.name.copy(alloc)?,
            kind: self.kind,
            levels: copy_all(alloc, self.levels.as_slice())?,
            ty: self.ty.copy(alloc)?,
            value: copy_value(alloc, &self.value)?,
            height: self.height,
            detail: self.detail.copy(alloc)?,
        })
    }
}

impl CtorInfo {
    /// A copy equal to this.
    pub fn copy(&self, alloc: Global) -> Result<CtorInfo, NoMemory>
        ensures { IfOk result (λ c. c ≡ self.now) }
    {
        Ok(CtorInfo {
            name: self.name.copy(alloc)?,
            ty: self.ty.copy(alloc)?,
        })
    }
}

impl Copied for CtorInfo {
    fn copied(&self, alloc: Global) -> Result<CtorInfo, NoMemory> {
        self.copy(alloc)
    }
}

impl IndDecl {
    /// A copy equal to this.
    pub fn copy(&self, alloc: Global) -> Result<IndDecl, NoMemory>
        ensures { IfOk result (λ d. d ≡ self.now) }
    {
        Ok(IndDecl {
            name: self.name.copy(alloc)?,
            levels: copy_all(alloc, self.levels.as_slice())?,
            params: self.params,
            ty: self.ty.copy(alloc)?,
            ctors: copy_all(alloc, self.ctors.as_slice())?,
        })
    }
}

impl TaskKey {
    /// A copy equal to this.
    pub fn copy(&self, alloc: Global) -> Result<TaskKey, NoMemory>
        ensures { IfOk result (λ k. k ≡ self.now) }
    {
        match self {
            TaskKey::Head(at) => Ok(TaskKey::Head(*at)),
            TaskKey::Body(at) => Ok(TaskKey::Body(*at)),
            TaskKey::Real(name) => Ok(TaskKey::Real(name.copy(alloc)?)),
        }
    }
}
