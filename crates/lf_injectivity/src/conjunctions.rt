//! Conjunctions of the fields' equations.
ghost use Rattle.std.specs.Prelude.{◌≡◌, ◌∷◌, [], codes, IfOk};
ghost use Rattle.lf_core.specs.Spine.{apply};
ghost use Rattle.lf_core.specs.Term.{const};
ghost use Rattle.lf_elaboration.specs.Injectivity as spec;
ghost use Rattle.lf_rules.specs.Recursor.{named};

use crate::opening::Field;
use crate::terms::field_equation;
use lf_core::{Expr, Name, NoMemory};
use sqlite_items::Items;
use std::alloc::Global;

// The constant with this name of one part and no levels.
fn word(alloc: Global, text: &str) -> Result<Expr, NoMemory>
    ensures { IfOk result (λ t. t ≡ const (text.now ∷ []) []) }
{
    Expr::constant(alloc, Name::one(alloc, text)?, Items::new(alloc))
}

/// The constant with this name of two parts and no levels.
pub fn part(alloc: Global, first: &str, last: &str) -> Result<Expr, NoMemory>
    ensures { IfOk result (λ t. t ≡ const (first.now ∷ last.now ∷ []) []) }
{
    let name = Name::one(alloc, first)?.child(alloc, last)?;
    Expr::constant(alloc, name, Items::new(alloc))
}

/// That all fields are the same on both sides.
pub fn conjunction(alloc: Global, of: &[Field]) -> Result<Expr, NoMemory>
    ensures { IfOk result (λ t. t ≡ spec.conjunction of.now) }
{
    match of {
        [] => word(alloc, "True"),
        [f] => field_equation(alloc, f),
        [f, fs @ ..] => {
            let first = field_equation(alloc, f)?;
            let rest = conjunction(alloc, fs)?;
            let whole = Expr::app(alloc, word(alloc, "And")?, first)?;
            Expr::app(alloc, whole, rest)
        }
    }
}

// The proof of a conjunction of two.
fn both(
    alloc: Global,
    first: Expr,
    rest: Expr,
    proof: &Expr,
    behind: Expr,
) -> Result<Expr, NoMemory>
    ensures { IfOk result (λ t. t ≡ apply (const (spec.and_part (codes "intro")) []) (first ∷ rest ∷ proof.now ∷ behind ∷ [])) }
{
    let whole = Expr::app(alloc, part(alloc, "And", "intro")?, first)?;
    let whole = Expr::app(alloc, whole, rest)?;
    let whole = Expr::app(alloc, whole, proof.copy(alloc)?)?;
    Expr::app(alloc, whole, behind)
}

/// A proof of the conjunction, by one of each equation.
pub fn conjoined(alloc: Global, of: &[Field], proofs: &[Expr]) -> Result<Expr, NoMemory>
    ensures { IfOk result (λ t. t ≡ spec.conjoined of.now proofs.now) }
{
    match proofs {
        [] => part(alloc, "True", "intro"),
        [p, ps @ ..] => match of {
            [] => part(alloc, "True", "intro"),
            [_f] => p.copy(alloc),
            [f, fs @ ..] => {
                let first = field_equation(alloc, f)?;
                let rest = conjunction(alloc, fs)?;
                let behind = conjoined(alloc, fs, ps)?;
                both(alloc, first, rest, p, behind)
            }
        },
    }
}
