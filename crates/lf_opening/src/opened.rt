//! Terms applied to metavariables.
ghost use Rattle.std.specs.Prelude.{◌≡◌, IfOk};

use lf_core::{Expr, NoMemory};
use lf_name::BinderKind;
use std::alloc::Global;
use std::marker::Model;

/// A metavariable that was given to a pi: its number, the pi's kind, and its type.
#[derive(Debug, Drop)]
pub struct Given {
    pub number: u32,
    pub kind: BinderKind,
    pub ty: Expr,
}

impl Model for Given {
    ghost use Rattle.std.specs.Coded.{codes};
    ghost use Rattle.lf_core.specs.Codes.{coded_term};
    ghost use Rattle.lf_name.specs.contracts.binder.BinderKind as kinds;
    ghost use Rattle.lf_elaboration.specs.Apply as apply;

    ghost Value = { apply.Given };

    ghost coded = { Prim.hlevel (codes, coded_term, kinds.the_row.coded) };

    ghost view = { λ g. record { number = g.number; kind = g.kind; ty = g.ty } };
}

impl Given {
    /// The same, whose type is shared.
    pub fn copy(&self, alloc: Global) -> Result<Given, NoMemory>
        ensures { IfOk result (λ g. g ≡ self.now) }
    {
        Ok(Given {
            number: self.number,
            kind: self.kind,
            ty: self.ty.copy(alloc)?,
        })
    }
}

/// A term applied to metavariables, with its type and with these in order.
#[derive(Debug, Drop)]
pub struct Opened {
    pub term: Expr,
    pub ty: Expr,
    pub given: Vec<Given>,
}

impl Model for Opened {
    ghost use Rattle.std.specs.Coded.{codes};
    ghost use Rattle.lf_core.specs.Codes.{coded_term};
    ghost use Rattle.lf_name.specs.contracts.binder.BinderKind as kinds;
    ghost use Rattle.lf_elaboration.specs.Apply as apply;

    ghost Value = { apply.Opened };

    ghost coded = { Prim.hlevel (codes, coded_term, kinds.the_row.coded) };

    ghost view = { λ o. record { term = o.term; ty = o.ty; given = o.given.items } };
}

/// What a turn of an opening comes to: its end, or one metavariable more.
#[derive(Debug, Drop)]
pub enum Turn {
    Ends(Opened),
    GoesOn(Opened),
}
