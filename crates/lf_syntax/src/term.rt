ghost use Rattle.std.specs.Prelude.{◌≡◌, IfOk};
ghost use Rattle.lf_syntax.specs.TermNode.{term_tree, item_tree};

use crate::leaf::{Ident, Num};
use crate::level::LevelTerm;
use crate::shared::Shared;
use lf_base::NoMemory;
use lf_name::BinderKind;
use lf_text::Op;
use std::alloc::Global;
use std::marker::Model;
use std::sync::Arc;

/// A term as it is written. Contracts see the plain tree `TermTree`.
#[cycle(term)]
#[derive(Debug, Drop)]
pub struct Term {
    node: Arc<TermNode>,
}

/// The forms of terms. `at` is the place of the form's first token, in bytes.
#[cycle(term)]
#[derive(Debug, Drop)]
pub enum TermNode {
    /// `explicit` tells a written `@`; no levels are none written.
    Ident {
        at: usize,
        explicit: bool,
        name: Ident,
        levels: Shared<LevelTerm>,
    },
    Num(Num),
    Hole {
        at: usize,
    },
    Sorry {
        at: usize,
    },
    Prop {
        at: usize,
    },
    TypeU {
        at: usize,
        level: Option<LevelTerm>,
    },
    SortU {
        at: usize,
        level: Option<LevelTerm>,
    },
    /// `(term)` or `(term : ty)`.
    Paren {
        at: usize,
        term: Term,
        ty: Option<Term>,
    },
    App {
        at: usize,
        head: Term,
        args: Vec<Term>,
    },
    Oper {
        at: usize,
        op: Op,
        left: Term,
        right: Term,
    },
    Not {
        at: usize,
        term: Term,
    },
    Fun {
        at: usize,
        binders: Vec<LBinder>,
        body: Term,
    },
    Forall {
        at: usize,
        binders: Vec<LBinder>,
        body: Term,
    },
    Let {
        at: usize,
        name: Ident,
        ty: Option<Term>,
        value: Term,
        body: Term,
    },
    By {
        at: usize,
        items: Vec<Item>,
    },
    /// The form that begins with a binder.
    Arrow {
        at: usize,
        binder: Binders,
        body: Term,
    },
}

/// `(names : ty)`, with braces where the kind is `Implicit`, with brackets where it is `Inst`.
#[cycle(term)]
#[derive(Debug, Drop)]
pub struct Binders {
    pub at: usize,
    pub kind: BinderKind,
    pub names: Shared<Ident>,
    pub ty: Term,
}

/// A binder of `fun` and `∀`.
#[cycle(term)]
#[derive(Debug, Drop)]
pub enum LBinder {
    Typed(Binders),
    Plain(Ident),
    Implicit { at: usize, names: Shared<Ident> },
}

/// A proof item. Contracts see the plain tree `ItemTree`.
#[cycle(term)]
#[derive(Debug, Drop)]
pub struct Item {
    node: Arc<ItemNode>,
}

/// The forms of proof items. `at` is the place of the item's first token, in bytes.
#[cycle(term)]
#[derive(Debug, Drop)]
pub enum ItemNode {
    Block {
        at: usize,
        items: Vec<Item>,
    },
    Exact {
        at: usize,
        term: Term,
    },
    Intro {
        at: usize,
        names: Shared<Ident>,
    },
    Apply {
        at: usize,
        term: Term,
    },
    Rfl {
        at: usize,
    },
    Assumption {
        at: usize,
    },
    Rw {
        at: usize,
        rules: Vec<Rule>,
    },
    Unfold {
        at: usize,
        name: Ident,
    },
    Have {
        at: usize,
        name: Ident,
        ty: Term,
        value: Term,
    },
    Induction {
        at: usize,
        name: Ident,
    },
    Cases {
        at: usize,
        name: Ident,
    },
    Injection {
        at: usize,
        name: Ident,
    },
    Sorry {
        at: usize,
    },
}

/// A rule of `rw`; `back` tells a written `←`.
#[cycle(term)]
#[derive(Debug, Drop)]
pub struct Rule {
    pub at: usize,
    pub back: bool,
    pub term: Term,
}

impl Model for Term {
    ghost use Rattle.lf_syntax.specs.Tree.{TermTree};
    ghost use Rattle.lf_syntax.specs.Codes.{coded_term};

    ghost Value = { TermTree };

    ghost coded = { coded_term };

    ghost use Rattle.lf_syntax.specs.Size.{term_size};
    ghost use Rattle.lf_syntax.specs.TermNode.{term_tree};
    ghost use Rattle.std.specs.Arc.{arc_value};

    ghost view = { λ t. term_tree (arc_value t.node) };

    ghost size = { term_size };

    ghost use Rattle.lf_syntax.specs.TermFalls.{term_falls};

    ghost size_decreases = { λ t h. term_falls t };
}

impl Model for Item {
    ghost use Rattle.lf_syntax.specs.Tree.{ItemTree};
    ghost use Rattle.lf_syntax.specs.Codes.{coded_item};

    ghost Value = { ItemTree };

    ghost coded = { coded_item };

    ghost use Rattle.lf_syntax.specs.Size.{item_size};
    ghost use Rattle.lf_syntax.specs.TermNode.{item_tree};
    ghost use Rattle.std.specs.Arc.{arc_value};

    ghost view = { λ i. item_tree (arc_value i.node) };

    ghost size = { item_size };

    ghost use Rattle.lf_syntax.specs.TermFalls.{item_falls};

    ghost size_decreases = { λ i h. item_falls i };
}

impl Term {
    /// The term of this form; `NoMemory` is its one fault.
    pub fn of(alloc: Global, node: TermNode) -> Result<Term, NoMemory>
        ensures { IfOk result (λ t. t ≡ term_tree node) }
    {
        Ok(Term {
            node: Arc::new(alloc, node)?,
        })
    }

    /// The form of the term, with its parts.
    pub fn node(&self) -> &TermNode
        ensures { term_tree result.now ≡ self.now }
    {
        &self.node
    }

    /// The same term; copies share their nodes.
    pub fn copy(&self, _alloc: Global) -> Result<Term, NoMemory>
        ensures { IfOk result (λ t. t ≡ self.now) }
    {
        Ok(Term {
            node: Arc::try_clone(&self.node)?,
        })
    }
}

impl Item {
    /// The item of this form; `NoMemory` is its one fault.
    pub fn of(alloc: Global, node: ItemNode) -> Result<Item, NoMemory>
        ensures { IfOk result (λ i. i ≡ item_tree node) }
    {
        Ok(Item {
            node: Arc::new(alloc, node)?,
        })
    }

    /// The form of the item, with its parts.
    pub fn node(&self) -> &ItemNode
        ensures { item_tree result.now ≡ self.now }
    {
        &self.node
    }

    /// The same item; copies share their nodes.
    pub fn copy(&self, _alloc: Global) -> Result<Item, NoMemory>
        ensures { IfOk result (λ i. i ≡ self.now) }
    {
        Ok(Item {
            node: Arc::try_clone(&self.node)?,
        })
    }
}

impl Binders {
    /// Equal binders; `NoMemory` is its one fault.
    pub fn copy(&self, alloc: Global) -> Result<Binders, NoMemory>
        ensures { IfOk result (λ b. b ≡ self.now) }
    {
        Ok(Binders {
            at: self.at,
            kind: self.kind,
            names: self.names.copy(alloc)?,
            ty: self.ty.copy(alloc)?,
        })
    }
}
