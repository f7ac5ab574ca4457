//! Whether a declared type eliminates into every sort.
ghost use Rattle.std.specs.Prelude.{◌≡◌, IfOk};
ghost use Rattle.lf_core.specs.Term.{free};
ghost use Rattle.lf_core.specs.Same.{same};
ghost use Rattle.lf_checker.specs.Admission as spec;
ghost use Rattle.lf_recursor.specs.Values.{family_of};

use crate::levels::{is_never_zero, is_zero};
use crate::read::Read;
use lf_core::{Expr, ExprNode, Level, NoMemory};
use lf_recursor::Family;
use std::alloc::Global;

// Whether the term is the variable of this number.
fn is_variable(k: usize, term: &Expr) -> bool
    ensures { result ≡ same (free k) term.now }
{
    match term.node() {
        ExprNode::Free(place) => k == *place as usize,
        ExprNode::Bound(_)
        | ExprNode::Meta(_)
        | ExprNode::Sort(_)
        | ExprNode::Const(_, _)
        | ExprNode::App(_, _)
        | ExprNode::Lam(_, _, _)
        | ExprNode::Pi(_, _, _)
        | ExprNode::Let(_, _, _, _)
        | ExprNode::Lit(_)
        | ExprNode::Proj(_, _, _) => false,
    }
}

// Whether the variable of this number is itself one of the indices.
fn is_index(k: usize, indices: &[Expr]) -> bool
    ensures { result ≡ spec.is_index k indices.now }
{
    match indices {
        [] => false,
        [t, ts @ ..] => is_variable(k, t) || is_index(k, ts),
    }
}

// Whether each field, from the variable `k` on, is a proof or is itself one of the indices.
fn are_proofs_or_indices(
    alloc: Global,
    k: usize,
    levels: &[Level],
    indices: &[Expr],
) -> Result<bool, NoMemory>
    ensures { IfOk result (λ b. b ≡ spec.are_proofs_or_indices k levels.now indices.now) }
{
    match levels {
        [] => Ok(true),
        [level, levels @ ..] => {
            if !is_zero(alloc, level)? && !is_index(k, indices) {
                return Ok(false);
            }
            let next = k.checked_add(1).ok_or(NoMemory)?;
            are_proofs_or_indices(alloc, next, levels, indices)
        }
    }
}

/// Whether the type eliminates into every sort: it is never a proposition, or has no constructor, or one of which each
/// field is a proof or is itself an index. `reads` is what was read of its constructors, `wanted` the level of its sort.
pub fn eliminates_everywhere(
    alloc: Global,
    family: &Family,
    wanted: &Level,
    reads: &[Read],
) -> Result<bool, NoMemory>
    ensures { IfOk result (λ b. b ≡ spec.eliminates_everywhere (family_of family.now) wanted.now reads.now) }
{
    match reads {
        [] => Ok(true),
        [read] => {
            if is_never_zero(alloc, wanted)? {
                return Ok(true);
            }
            let levels = read.levels.as_slice();
            let indices = read.indices.as_slice();
            are_proofs_or_indices(alloc, family.params.len(), levels, indices)
        }
        [_, _, ..] => is_never_zero(alloc, wanted),
    }
}
