//! Which constants rest on `sorryAx`: it stands in the type or in the value.
ghost use Rattle.std.specs.Prelude.{◌≡◌, Some, option_copied};
ghost use Rattle.lf_checker.specs.Structures.{mentions};
ghost use Rattle.lf_core.specs.Same.{same_path};
ghost use Rattle.lf_document.specs.Constants as spec;
ghost use Rattle.lf_elaboration.specs.Closing.{sorry_name};

use lf_core::{ConstInfo, Expr, ExprNode, Name};

fn is_sorry(name: &Name) -> bool
    ensures { result ≡ same_path name.now sorry_name }
{
    match name.parts() {
        [] => false,
        [word, rest @ ..] => word.as_str() == "sorryAx" && rest.is_empty(),
    }
}

fn mentions_sorry(term: &Expr) -> bool
    ensures { result ≡ mentions sorry_name term.now }
{
    match term.node() {
        ExprNode::Const(constant, _) => is_sorry(constant),
        ExprNode::App(f, a) => mentions_sorry(f) || mentions_sorry(a),
        ExprNode::Lam(_, a, b) | ExprNode::Pi(_, a, b) => mentions_sorry(a) || mentions_sorry(b),
        ExprNode::Let(_, a, v, b) => {
            mentions_sorry(a) || (mentions_sorry(v) || mentions_sorry(b))
        }
        ExprNode::Proj(structure, _, t) => is_sorry(structure) || mentions_sorry(t),
        ExprNode::Bound(_)
        | ExprNode::Free(_)
        | ExprNode::Meta(_)
        | ExprNode::Sort(_)
        | ExprNode::Lit(_) => false,
    }
}

fn rests_on_sorry(value: Option<&Expr>) -> bool
    ensures { result ≡ spec.rests_on_sorry (option_copied value.entry) }
{
    match value {
        None => false,
        Some(term) => mentions_sorry(term),
    }
}

/// Whether the constant rests on `sorryAx`.
pub fn is_marked(info: &ConstInfo) -> bool
    ensures { result ≡ spec.is_marked info.now }
{
    mentions_sorry(&info.ty) || rests_on_sorry(info.value.as_ref())
}

/// Whether the constant rests on `sorryAx` with this value.
pub fn is_marked_with(info: &ConstInfo, value: &Expr) -> bool
    ensures { result ≡ spec.is_marked (record info.now { value = Some value.now }) }
{
    mentions_sorry(&info.ty) || mentions_sorry(value)
}

/// Whether one of the constants rests on `sorryAx`.
pub fn is_one_marked(constants: &[ConstInfo]) -> bool
    ensures { result ≡ spec.is_one_marked constants.now }
{
    'constants: for constant in constants {
        if is_marked(constant) {
            return true;
        }
    }
    false
}
