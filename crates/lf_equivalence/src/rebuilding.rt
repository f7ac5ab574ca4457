//! The equation of the two sides, proved by those of the fields.
ghost use Rattle.std.specs.Prelude.{◌≡◌, ◌∷◌, [], IfOk};
ghost use Rattle.lf_core.specs.Spine as spine;
ghost use Rattle.lf_core.specs.Term.{app, const};
ghost use Rattle.lf_elaboration.specs.Equivalence as spec;
ghost use Rattle.lf_elaboration.specs.Injectivity as injectivity;
ghost use Rattle.lf_injectivity.specs.Values.{sides};

use crate::equations::at_parameters;
use crate::parts::part;
use crate::rests::Rest;
use lf_core::{Expr, Name, NoMemory};
use lf_injectivity::{Field, Sides};
use sqlite_items::Items;
use std::alloc::Global;

/// The constructor at some of its fields on each side, and a proof that the two are equal.
#[derive(Debug, Drop)]
pub struct Applied {
    pub left: Expr,
    pub right: Expr,
    pub proof: Expr,
}

// This constant at the field's type and at what is left behind it, with their levels.
fn at_types(alloc: Global, word: &str, x: &Field, rest: &Rest) -> Result<Expr, NoMemory>
    ensures { IfOk result (λ t. t ≡ spine.apply (const (word.now ∷ []) (x.now.level ∷ rest.now.1 ∷ [])) (x.now.ty ∷ rest.now.0 ∷ [])) }
{
    let mut levels = Items::new(alloc);
    levels.push(x.level.copy(alloc)?)?;
    levels.push(rest.level.copy(alloc)?)?;
    let whole = Expr::constant(alloc, Name::one(alloc, word)?, levels)?;
    let whole = Expr::app(alloc, whole, x.ty.copy(alloc)?)?;
    Expr::app(alloc, whole, rest.ty.copy(alloc)?)
}

// That one function has equal values at the field on the two sides.
fn congruence(
    alloc: Global,
    x: &Field,
    rest: &Rest,
    function: Expr,
    h: &Expr,
) -> Result<Expr, NoMemory>
    ensures { IfOk result (λ t. t
        ≡ injectivity.congruence x.now.level rest.now.1 x.now.ty rest.now.0 x.now.left x.now.right function h.now) }
{
    let whole = at_types(alloc, "congrArg", x, rest)?;
    let whole = Expr::app(alloc, whole, x.left.copy(alloc)?)?;
    let whole = Expr::app(alloc, whole, x.right.copy(alloc)?)?;
    let whole = Expr::app(alloc, whole, function)?;
    Expr::app(alloc, whole, h.copy(alloc)?)
}

// That equal functions have equal values at the field on the two sides.
fn congr_step(
    alloc: Global,
    x: &Field,
    rest: &Rest,
    so_far: &Applied,
    h: &Expr,
) -> Result<Expr, NoMemory>
    ensures { IfOk result (λ t. t ≡ spec.congr_step x.now.level rest.now.1 x.now.ty rest.now.0 so_far.now.left so_far.now.right x.now.left x.now.right
        so_far.now.proof h.now) }
{
    let whole = at_types(alloc, "congr", x, rest)?;
    let whole = Expr::app(alloc, whole, so_far.left.copy(alloc)?)?;
    let whole = Expr::app(alloc, whole, so_far.right.copy(alloc)?)?;
    let whole = Expr::app(alloc, whole, x.left.copy(alloc)?)?;
    let whole = Expr::app(alloc, whole, x.right.copy(alloc)?)?;
    let whole = Expr::app(alloc, whole, so_far.proof.copy(alloc)?)?;
    Expr::app(alloc, whole, h.copy(alloc)?)
}

// The constructor at one field more.
fn next(
    alloc: Global,
    so_far: &Applied,
    x: &Field,
    rest: &Rest,
    h: &Expr,
) -> Result<Applied, NoMemory>
    ensures left { IfOk result (λ a. a.left ≡ app so_far.now.left x.now.left) }
    ensures right { IfOk result (λ a. a.right ≡ app so_far.now.right x.now.right) }
    ensures proof { IfOk result (λ a. a.proof ≡ spec.congr_step x.now.level rest.now.1 x.now.ty rest.now.0 so_far.now.left so_far.now.right x.now.left
        x.now.right so_far.now.proof h.now) }
{
    Ok(Applied {
        left: Expr::app(alloc, so_far.left.copy(alloc)?, x.left.copy(alloc)?)?,
        right: Expr::app(alloc, so_far.right.copy(alloc)?, x.right.copy(alloc)?)?,
        proof: congr_step(alloc, x, rest, so_far, h)?,
    })
}

// The proof at all fields that are left.
fn further(
    alloc: Global,
    so_far: &Applied,
    of: &[Field],
    rests: &[Rest],
    proofs: &[Expr],
) -> Result<Expr, NoMemory>
    ensures { IfOk result (λ t. (s : injectivity.Sides) → t
        ≡ spec.further s so_far.now.left so_far.now.right so_far.now.proof of.now rests.now proofs.now) }
{
    match of {
        [] => so_far.proof.copy(alloc),
        [x, xs @ ..] => match rests {
            [] => so_far.proof.copy(alloc),
            [b, bs @ ..] => match proofs {
                [] => so_far.proof.copy(alloc),
                [h, hs @ ..] => {
                    let applied = next(alloc, so_far, x, b, h)?;
                    let whole = further(alloc, &applied, xs, bs, hs)?;
                    drop(applied);
                    Ok(whole)
                }
            },
        },
    }
}

// The constructor at its first field.
fn first(alloc: Global, s: &Sides, x: &Field, rest: &Rest, h: &Expr) -> Result<Applied, NoMemory>
    ensures left { IfOk result (λ a. a.left ≡ app (spine.apply (const s.now.constructor s.now.levels) s.now.params.items) x.now.left) }
    ensures right { IfOk result (λ a. a.right ≡ app (spine.apply (const s.now.constructor s.now.levels) s.now.params.items) x.now.right) }
    ensures proof { IfOk result (λ a. a.proof ≡ injectivity.congruence x.now.level rest.now.1 x.now.ty rest.now.0 x.now.left x.now.right
        (spine.apply (const s.now.constructor s.now.levels) s.now.params.items) h.now) }
{
    let function = at_parameters(alloc, s)?;
    Ok(Applied {
        left: Expr::app(alloc, function.copy(alloc)?, x.left.copy(alloc)?)?,
        right: Expr::app(alloc, function.copy(alloc)?, x.right.copy(alloc)?)?,
        proof: congruence(alloc, x, rest, function, h)?,
    })
}

// By a proof of the first field's equation, `h`, and those of the others.
fn from_first(
    alloc: Global,
    s: &Sides,
    rest: &Rest,
    rests: &[Rest],
    h: &Expr,
    proofs: &[Expr],
) -> Result<Expr, NoMemory>
    ensures { IfOk result (λ t. t ≡ spec.rebuilt (sides s.now) (rest.now ∷ rests.now) (h.now ∷ proofs.now)) }
{
    match s.fields.as_slice() {
        [] => h.copy(alloc),
        [x, xs @ ..] => {
            let applied = first(alloc, s, x, rest, h)?;
            let whole = further(alloc, &applied, xs, rests, proofs)?;
            drop(applied);
            Ok(whole)
        }
    }
}

/// A proof that the two sides are equal, by one of each field's equation.
pub fn rebuilt(alloc: Global, s: &Sides, rests: &[Rest], proofs: &[Expr]) -> Result<Expr, NoMemory>
    ensures { IfOk result (λ t. t ≡ spec.rebuilt (sides s.now) rests.now proofs.now) }
{
    match rests {
        [] => part(alloc, "True", "intro"),
        [b, bs @ ..] => match proofs {
            [] => part(alloc, "True", "intro"),
            [h, hs @ ..] => from_first(alloc, s, b, bs, h, hs),
        },
    }
}
