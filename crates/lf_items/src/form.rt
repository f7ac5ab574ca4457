//! Terms asked for one form.
ghost use Rattle.std.specs.Prelude.{◌≡◌, option_map};
ghost use Rattle.lf_elaboration.specs.Forms as forms;
ghost use Rattle.lf_items.specs.Values as values;

use lf_core::{Binder, Expr, ExprNode, Level, Name};

/// A pi, taken apart: its binder, the type of its variable, and its codomain, in which the variable is loose.
#[derive(Clone, Copy)]
pub struct Front<'a> {
    pub binder: &'a Binder,
    pub domain: &'a Expr,
    pub body: &'a Expr,
}

/// A constant at its levels.
#[derive(Clone, Copy)]
pub struct Instance<'a> {
    pub name: &'a Name,
    pub levels: &'a [Level],
}

/// The pi that the term is, where it is one.
pub fn as_pi(term: &Expr) -> Option<Front<'_>>
    ensures { option_map values.front result ≡ forms.as_pi term.now }
{
    match term.node() {
        ExprNode::Pi(binder, domain, body) => Some(Front {
            binder,
            domain,
            body,
        }),
        _ => None,
    }
}

/// The constant that the term is, where it is one.
pub fn as_constant(term: &Expr) -> Option<Instance<'_>>
    ensures { option_map values.instance result ≡ forms.as_constant term.now }
{
    match term.node() {
        ExprNode::Const(name, levels) => Some(Instance {
            name,
            levels: levels.as_slice(),
        }),
        _ => None,
    }
}

/// The number of the variable that the term is, where it is a free one.
pub fn as_variable(term: &Expr) -> Option<u32>
    ensures { result ≡ forms.as_variable term.now }
{
    match term.node() {
        ExprNode::Free(k) => Some(*k),
        _ => None,
    }
}
