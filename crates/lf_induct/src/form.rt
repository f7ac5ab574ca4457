//! Tests of form: where the declared type stands in the type of a field, and how a constructor's type ends.
ghost use Rattle.std.specs.Prelude.{◌≡◌, IfOk};
ghost use Rattle.lf_checker.specs.Admission as spec;
ghost use Rattle.lf_core.specs.Same.{same};
ghost use Rattle.lf_core.specs.Spine as spine;
ghost use Rattle.lf_rules.specs.Recursor as recursor;
ghost use Rattle.lf_checker.specs.Structures as structures;
ghost use Rattle.lf_recursor.specs.Values.{family_of};

use crate::family::{indices_of, self_type};
use lf_core::{Expr, ExprNode, Name, NoMemory};
use lf_recursor::{Family, pi_count};
use lf_steps::apply;
use std::alloc::Global;

/// Whether the constant stands in the term, or is the structure of a projection in it.
fn mentions(name: &Name, term: &Expr) -> bool
    ensures { result ≡ structures.mentions name.now term.now }
{
    match term.node() {
        ExprNode::Const(constant, _) => constant.is(name),
        ExprNode::App(f, a) => mentions(name, f) || mentions(name, a),
        ExprNode::Lam(_, a, b) | ExprNode::Pi(_, a, b) => mentions(name, a) || mentions(name, b),
        ExprNode::Let(_, a, v, b) => {
            mentions(name, a) || (mentions(name, v) || mentions(name, b))
        }
        ExprNode::Proj(structure, _, t) => structure.is(name) || mentions(name, t),
        ExprNode::Bound(_)
        | ExprNode::Free(_)
        | ExprNode::Meta(_)
        | ExprNode::Sort(_)
        | ExprNode::Lit(_) => false,
    }
}

fn any_mentions(name: &Name, terms: &[Expr]) -> bool
    ensures { result ≡ spec.any_mentions name.now terms.now }
{
    match terms {
        [] => false,
        [t, ts @ ..] => mentions(name, t) || any_mentions(name, ts),
    }
}

// Whether the term is the type at its own levels, its parameters and these indices.
fn is_applied(
    alloc: Global,
    family: &Family,
    indices: &[Expr],
    term: &Expr,
) -> Result<bool, NoMemory>
    ensures { IfOk result (λ b. b ≡ same term.now (spine.apply (recursor.self (family_of family.now)) indices.now)) }
{
    let own = apply(alloc, self_type(alloc, family)?, indices)?;
    let same = term.is(&own);
    drop(own);
    Ok(same)
}

/// Whether the term is the type at its own levels and parameters and at as many indices as it has, none of which names it.
pub fn is_at_indices(alloc: Global, family: &Family, term: &Expr) -> Result<bool, NoMemory>
    ensures { IfOk result (λ b. b ≡ spec.is_at_indices (family_of family.now) term.now) }
{
    let indices = indices_of(alloc, family, term)?;
    if !is_applied(alloc, family, indices.as_slice(), term)? {
        return Ok(false);
    }
    let wanted = pi_count(&family.rest).ok_or(NoMemory)?;
    Ok(indices.len() == wanted as usize && !any_mentions(&family.name, indices.as_slice()))
}

// Whether the term is pis that end in the type at indices, with the type in no domain.
fn ends_at_indices(alloc: Global, family: &Family, term: &Expr) -> Result<bool, NoMemory>
    ensures { IfOk result (λ b. b ≡ spec.ends_at_indices (family_of family.now) term.now) }
{
    match term.node() {
        ExprNode::Pi(_, a, b) => {
            if mentions(&family.name, a) {
                return Ok(false);
            }
            ends_at_indices(alloc, family, b)
        }
        ExprNode::Bound(_)
        | ExprNode::Free(_)
        | ExprNode::Meta(_)
        | ExprNode::Sort(_)
        | ExprNode::Const(_, _)
        | ExprNode::App(_, _)
        | ExprNode::Lam(_, _, _)
        | ExprNode::Let(_, _, _, _)
        | ExprNode::Lit(_)
        | ExprNode::Proj(_, _, _) => is_at_indices(alloc, family, term),
    }
}

/// Whether a field of this type is positive: the declared type stands in it nowhere, or at the end of its pis alone.
pub fn is_positive(alloc: Global, family: &Family, field: &Expr) -> Result<bool, NoMemory>
    ensures { IfOk result (λ b. b ≡ spec.is_positive (family_of family.now) field.now) }
{
    if !mentions(&family.name, field) {
        return Ok(true);
    }
    ends_at_indices(alloc, family, field)
}
