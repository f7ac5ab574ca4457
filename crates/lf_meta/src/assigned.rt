//! Whether an assigned metavariable stands in a term.
ghost use Rattle.std.specs.Prelude.{◌≡◌, is_some};
ghost use Rattle.lf_elaboration.specs.Metavariables as spec;
ghost use Rattle.lf_meta.specs.Head.{head_is_assigned};

use crate::metas::Metas;
use lf_core::{Expr, ExprNode, Level, LevelNode};

/// Whether one of levels stands in the level.
#[tactic(auto, using(crate::proofs::Absent::level_unassigned))]
pub fn level_has_assigned(metas: &Metas, level: &Level) -> bool
    ensures { result ≡ spec.level_has_assigned metas.now level.now }
{
    if !level.has_metavariable() {
        return false;
    }
    match level.node() {
        LevelNode::Zero | LevelNode::Param(_) => false,
        LevelNode::Meta(k) => metas.level_value(*k).is_some(),
        LevelNode::Succ(l) => level_has_assigned(metas, l),
        LevelNode::Max(k, l) | LevelNode::Imax(k, l) => {
            level_has_assigned(metas, k) || level_has_assigned(metas, l)
        }
    }
}

/// Whether one of levels stands in one of the levels.
pub fn levels_have_assigned(metas: &Metas, levels: &[Level]) -> bool
    ensures { result ≡ spec.levels_have_assigned metas.now levels.now }
{
    match levels {
        [] => false,
        [l, ls @ ..] => level_has_assigned(metas, l) || levels_have_assigned(metas, ls),
    }
}

/// Whether one of terms or of levels stands in the term.
#[tactic(auto, using(crate::proofs::Absent::unassigned))]
pub fn has_assigned(metas: &Metas, term: &Expr) -> bool
    ensures { result ≡ spec.has_assigned metas.now term.now }
{
    if !term.has_metavariable() && !term.has_level_metavariable() {
        return false;
    }
    match term.node() {
        ExprNode::Bound(_) | ExprNode::Free(_) | ExprNode::Lit(_) => false,
        ExprNode::Meta(k) => metas.value(*k).is_some(),
        ExprNode::Sort(l) => level_has_assigned(metas, l),
        ExprNode::Const(_, ls) => levels_have_assigned(metas, ls.as_slice()),
        ExprNode::App(f, a) => has_assigned(metas, f) || has_assigned(metas, a),
        ExprNode::Lam(_, a, b) | ExprNode::Pi(_, a, b) => {
            has_assigned(metas, a) || has_assigned(metas, b)
        }
        ExprNode::Let(_, a, v, b) => {
            has_assigned(metas, a) || (has_assigned(metas, v) || has_assigned(metas, b))
        }
        ExprNode::Proj(_, _, t) => has_assigned(metas, t),
    }
}

/// Whether the head of the term is an assigned metavariable.
pub fn has_assigned_head(metas: &Metas, term: &Expr) -> bool
    ensures { result ≡ head_is_assigned metas.now term.now }
{
    match term.node() {
        ExprNode::Bound(_)
        | ExprNode::Free(_)
        | ExprNode::Sort(_)
        | ExprNode::Const(_, _)
        | ExprNode::Lam(_, _, _)
        | ExprNode::Pi(_, _, _)
        | ExprNode::Let(_, _, _, _)
        | ExprNode::Lit(_)
        | ExprNode::Proj(_, _, _) => false,
        ExprNode::Meta(k) => metas.value(*k).is_some(),
        ExprNode::App(f, _) => has_assigned_head(metas, f),
    }
}
