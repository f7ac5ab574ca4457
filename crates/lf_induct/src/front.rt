//! The pi that a term begins with.
ghost use Rattle.std.specs.Prelude.{◌≡◌, IfSome, IfNone};
ghost use Rattle.lf_core.specs.Term.{pi};
ghost use Rattle.lf_rules.specs.Telescope as telescope;

use lf_core::{Binder, Expr, ExprNode};

/// A pi, taken apart.
#[derive(Clone, Copy)]
pub struct Front<'a> {
    pub binder: &'a Binder,
    pub domain: &'a Expr,
    pub body: &'a Expr,
}

/// The pi that the term is, where it is one.
pub fn front_of(term: &Expr) -> Option<Front<'_>>
    ensures some { IfSome result (λ p. term.now ≡ pi p.binder.now p.domain.now p.body.now) }
    ensures none { IfNone result (telescope.pi_count term.now ≡ 0) }
{
    match term.node() {
        ExprNode::Pi(binder, domain, body) => Some(Front {
            binder,
            domain,
            body,
        }),
        ExprNode::Bound(_)
        | ExprNode::Free(_)
        | ExprNode::Meta(_)
        | ExprNode::Sort(_)
        | ExprNode::Const(_, _)
        | ExprNode::App(_, _)
        | ExprNode::Lam(_, _, _)
        | ExprNode::Let(_, _, _, _)
        | ExprNode::Lit(_)
        | ExprNode::Proj(_, _, _) => None,
    }
}
