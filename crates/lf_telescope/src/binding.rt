//! The binder that a term begins with.
ghost use Rattle.std.specs.Prelude.{◌≡◌, option_map};
ghost use Rattle.lf_elaboration.specs.Forms as forms;
ghost use Rattle.lf_telescope.specs.Values.{binding};
ghost use Rattle.lf_telescope.specs.Opens as opens;

use lf_core::{Binder, Expr, ExprNode};

/// The binder, the domain and the body or codomain of a lambda or a pi.
#[derive(Clone, Copy)]
pub struct Binding<'a> {
    pub binder: &'a Binder,
    pub domain: &'a Expr,
    pub body: &'a Expr,
}

/// What forms a binder.
#[derive(Clone, Copy)]
pub enum Former {
    Pi,
    Lambda,
}

/// The parts of a pi; `None` for a term of another form.
pub fn as_pi(term: &Expr) -> Option<Binding<'_>>
    ensures { option_map binding result ≡ forms.as_pi term.now }
{
    match term.node() {
        ExprNode::Pi(binder, domain, body) => Some(Binding {
            binder,
            domain,
            body,
        }),
        _ => None,
    }
}

/// The parts of a lambda; `None` for a term of another form.
pub fn as_lambda(term: &Expr) -> Option<Binding<'_>>
    ensures { option_map binding result ≡ forms.as_lambda term.now }
{
    match term.node() {
        ExprNode::Lam(binder, domain, body) => Some(Binding {
            binder,
            domain,
            body,
        }),
        _ => None,
    }
}

/// The parts of a term that is formed so; `None` for a term of another form.
pub fn formed_by(former: Former, term: &Expr) -> Option<Binding<'_>>
    ensures { option_map binding result ≡ opens.formed_by former term.now }
{
    match former {
        Former::Pi => as_pi(term),
        Former::Lambda => as_lambda(term),
    }
}
