//! Pis, taken apart.
ghost use Rattle.std.specs.Prelude.{◌≡◌, IfOk};
ghost use Rattle.lf_elaboration.specs.Forms as forms;

use lf_core::{Expr, ExprNode, NoMemory};
use lf_name::Binder;
use std::alloc::Global;
use std::marker::Model;

/// The binder, the domain and the codomain of a pi.
#[derive(Debug, Drop)]
pub struct Binding {
    pub binder: Binder,
    pub domain: Expr,
    pub body: Expr,
}

impl Model for Binding {
    ghost use Rattle.std.specs.Coded.{codes};
    ghost use Rattle.lf_core.specs.Codes.{coded_term};
    ghost use Rattle.lf_name.specs.contracts.binder.Binder as named;
    ghost use Rattle.lf_elaboration.specs.Forms as forms;

    ghost Value = { forms.Binding };

    ghost coded = { Prim.hlevel (codes, coded_term, named.the_row.coded) };

    ghost view = { λ p. record { binder = p.binder; domain = p.domain; body = p.body } };
}

/// The parts of a pi.
pub fn as_pi(alloc: Global, term: &Expr) -> Result<Option<Binding>, NoMemory>
    ensures { IfOk result (λ p. p ≡ forms.as_pi term.now) }
{
    match term.node() {
        ExprNode::Pi(binder, domain, body) => Ok(Some(Binding {
            binder: binder.copy(alloc)?,
            domain: domain.copy(alloc)?,
            body: body.copy(alloc)?,
        })),
        _ => Ok(None),
    }
}
