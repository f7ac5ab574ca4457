ghost use Rattle.std.specs.Prelude.{◌≡◌, IfOk};

use crate::leaf::{Ident, SyntaxFault};
use crate::pattern::Alternative;
use crate::shared::Shared;
use crate::term::{Binders, Term};
use lf_base::NoMemory;
use std::alloc::Global;

/// What a declaration declares. `at` is the place of the command's first token, in bytes.
#[derive(Debug, Drop)]
pub struct Decl {
    pub at: usize,
    pub name: Ident,
    /// The written level names.
    pub levels: Shared<Ident>,
    pub binders: Shared<Binders>,
    pub ty: Option<Term>,
}

/// A definition behind the `where` of another.
#[derive(Debug, Drop)]
pub struct Helper {
    pub at: usize,
    pub name: Ident,
    pub binders: Shared<Binders>,
    pub ty: Term,
    pub value: Term,
}

/// A constructor; `at` is the place of its `|`.
#[derive(Debug, Drop)]
pub struct CtorDecl {
    pub at: usize,
    pub name: Ident,
    pub binders: Shared<Binders>,
    pub ty: Option<Term>,
}

/// Fields of one type of a structure or a class.
#[derive(Debug, Drop)]
pub struct FieldDecl {
    pub at: usize,
    pub names: Shared<Ident>,
    pub ty: Term,
}

/// A command. `at` is the place of its first token, but of `Bad` that of the fault.
#[derive(Debug, Drop)]
pub enum Command {
    Axiom(Decl),
    Def {
        decl: Decl,
        value: Term,
        helpers: Shared<Helper>,
    },
    /// A `def` by alternatives; its declaration has a type.
    Equations {
        decl: Decl,
        alternatives: Shared<Alternative>,
    },
    Theorem {
        decl: Decl,
        value: Term,
        helpers: Shared<Helper>,
    },
    Inductive {
        decl: Decl,
        ctors: Shared<CtorDecl>,
    },
    Structure {
        decl: Decl,
        fields: Shared<FieldDecl>,
    },
    Class {
        decl: Decl,
        fields: Shared<FieldDecl>,
    },
    /// An `instance`; its declaration has a type.
    Instance {
        decl: Decl,
        value: Term,
    },
    Namespace {
        at: usize,
        name: Ident,
    },
    Section {
        at: usize,
        name: Option<Ident>,
    },
    End {
        at: usize,
        name: Option<Ident>,
    },
    OpenNames {
        at: usize,
        names: Shared<Ident>,
    },
    Universe {
        at: usize,
        names: Shared<Ident>,
    },
    Variable {
        at: usize,
        binders: Shared<Binders>,
    },
    Check {
        at: usize,
        term: Term,
    },
    Reduce {
        at: usize,
        term: Term,
    },
    PrintAxioms {
        at: usize,
        name: Ident,
    },
    /// Tokens that are no command.
    Bad {
        at: usize,
        fault: SyntaxFault,
    },
}

fn copy_option(alloc: Global, term: &Option<Term>) -> Result<Option<Term>, NoMemory>
    ensures { IfOk result (λ t. t ≡ term.now) }
{
    match term {
        Some(t) => Ok(Some(t.copy(alloc)?)),
        None => Ok(None),
    }
}

fn copy_name(alloc: Global, name: &Option<Ident>) -> Result<Option<Ident>, NoMemory>
    ensures { IfOk result (λ x. x ≡ name.now) }
{
    match name {
        Some(x) => Ok(Some(x.copy(alloc)?)),
        None => Ok(None),
    }
}

impl Decl {
    /// An equal declaration; `NoMemory` is its one fault.
    pub fn copy(&self, alloc: Global) -> Result<Decl, NoMemory>
        ensures { IfOk result (λ d. d ≡ self.now) }
    {
        Ok(Decl {
            at: self.at,
            name: self.name.copy(alloc)?,
            levels: self.levels.copy(alloc)?,
            binders: self.binders.copy(alloc)?,
            ty: copy_option(alloc, &self.ty)?,
        })
    }
}

impl Helper {
    /// An equal helper; `NoMemory` is its one fault.
    pub fn copy(&self, alloc: Global) -> Result<Helper, NoMemory>
        ensures { IfOk result (λ h. h ≡ self.now) }
    {
        Ok(Helper {
            at: self.at,
            name: self.name.copy(alloc)?,
            binders: self.binders.copy(alloc)?,
            ty: self.ty.copy(alloc)?,
            value: self.value.copy(alloc)?,
        })
    }
}

impl CtorDecl {
    /// An equal constructor; `NoMemory` is its one fault.
    pub fn copy(&self, alloc: Global) -> Result<CtorDecl, NoMemory>
        ensures { IfOk result (λ c. c ≡ self.now) }
    {
        Ok(CtorDecl {
            at: self.at,
            name: self.name.copy(alloc)?,
            binders: self.binders.copy(alloc)?,
            ty: copy_option(alloc, &self.ty)?,
        })
    }
}

impl FieldDecl {
    /// Equal fields; `NoMemory` is its one fault.
    pub fn copy(&self, alloc: Global) -> Result<FieldDecl, NoMemory>
        ensures { IfOk result (λ f. f ≡ self.now) }
    {
        Ok(FieldDecl {
            at: self.at,
            names: self.names.copy(alloc)?,
            ty: self.ty.copy(alloc)?,
        })
    }
}

impl Command {
    /// An equal command, which shares its lists and terms; `NoMemory` is its one fault.
    pub fn copy(&self, alloc: Global) -> Result<Command, NoMemory>
        ensures { IfOk result (λ c. c ≡ self.now) }
    {
        match self {
            Command::Axiom(decl) => Ok(Command::Axiom(decl.copy(alloc)?)),
            Command::Def {
                decl,
                value,
                helpers,
            } => Ok(Command::Def {
                decl: decl.copy(alloc)?,
                value: value.copy(alloc)?,
                helpers: helpers.copy(alloc)?,
            }),
            Command::Equations { decl, alternatives } => Ok(Command::Equations {
                decl: decl.copy(alloc)?,
                alternatives: alternatives.copy(alloc)?,
            }),
            Command::Theorem {
                decl,
                value,
                helpers,
            } => Ok(Command::Theorem {
                decl: decl.copy(alloc)?,
                value: value.copy(alloc)?,
                helpers: helpers.copy(alloc)?,
            }),
            Command::Inductive { decl, ctors } => Ok(Command::Inductive {
                decl: decl.copy(alloc)?,
                ctors: ctors.copy(alloc)?,
            }),
            Command::Structure { decl, fields } => Ok(Command::Structure {
                decl: decl.copy(alloc)?,
                fields: fields.copy(alloc)?,
            }),
            Command::Class { decl, fields } => Ok(Command::Class {
                decl: decl.copy(alloc)?,
                fields: fields.copy(alloc)?,
            }),
            Command::Instance { decl, value } => Ok(Command::Instance {
                decl: decl.copy(alloc)?,
                value: value.copy(alloc)?,
            }),
            Command::Namespace { at, name } => Ok(Command::Namespace {
                at: *at,
                name: name.copy(alloc)?,
            }),
            Command::Section { at, name } => Ok(Command::Section {
                at: *at,
                name: copy_name(alloc, name)?,
            }),
            Command::End { at, name } => Ok(Command::End {
                at: *at,
                name: copy_name(alloc, name)?,
            }),
            Command::OpenNames { at, names } => Ok(Command::OpenNames {
                at: *at,
                names: names.copy(alloc)?,
            }),
            Command::Universe { at, names } => Ok(Command::Universe {
                at: *at,
                names: names.copy(alloc)?,
            }),
            Command::Variable { at, binders } => Ok(Command::Variable {
                at: *at,
                binders: binders.copy(alloc)?,
            }),
            Command::Check { at, term } => Ok(Command::Check {
                at: *at,
                term: term.copy(alloc)?,
            }),
            Command::Reduce { at, term } => Ok(Command::Reduce {
                at: *at,
                term: term.copy(alloc)?,
            }),
            Command::PrintAxioms { at, name } => Ok(Command::PrintAxioms {
                at: *at,
                name: name.copy(alloc)?,
            }),
            Command::Bad { at, fault } => Ok(Command::Bad {
                at: *at,
                fault: *fault,
            }),
        }
    }
}
