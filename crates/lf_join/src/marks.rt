//! Marks: which constants rest on `sorryAx`.
ghost use Rattle.std.specs.Prelude.{◌≡◌, option_copied};
ghost use Rattle.lf_core.specs.Same.{same_path};
ghost use Rattle.lf_checker.specs.Structures as structures;
ghost use Rattle.lf_elaboration.specs.Closing.{sorry_name};
ghost use Rattle.lf_document.specs.Constants as spec;

use lf_core::{ConstInfo, Expr, ExprNode, Name, Word};

// One part that is `sorryAx`.
fn is_sorry_parts(parts: &[Word]) -> bool
    ensures { result ≡ same_path parts.now sorry_name }
{
    match parts {
        [] => false,
        [word, rest @ ..] => word.as_str() == "sorryAx" && rest.is_empty(),
    }
}

fn is_sorry(name: &Name) -> bool
    ensures { result ≡ same_path name.now sorry_name }
{
    is_sorry_parts(name.parts())
}

/// Whether `sorryAx` stands in the term.
pub fn rests_on_sorry(term: &Expr) -> bool
    ensures { result ≡ structures.mentions sorry_name term.now }
{
    match term.node() {
        ExprNode::Const(name, _) => is_sorry(name),
        ExprNode::App(f, a) => rests_on_sorry(f) || rests_on_sorry(a),
        ExprNode::Lam(_, a, b) | ExprNode::Pi(_, a, b) => rests_on_sorry(a) || rests_on_sorry(b),
        ExprNode::Let(_, a, v, b) => {
            rests_on_sorry(a) || (rests_on_sorry(v) || rests_on_sorry(b))
        }
        ExprNode::Proj(structure, _, t) => is_sorry(structure) || rests_on_sorry(t),
        ExprNode::Bound(_)
        | ExprNode::Free(_)
        | ExprNode::Meta(_)
        | ExprNode::Sort(_)
        | ExprNode::Lit(_) => false,
    }
}

/// Whether `sorryAx` stands in the constant's type or in its value.
pub fn is_marked(constant: &ConstInfo) -> bool
    ensures { result ≡ spec.is_marked constant.now }
{
    rests_on_sorry(&constant.ty)
        || match &constant.value {
            Some(value) => rests_on_sorry(value),
            None => false,
        }
}
