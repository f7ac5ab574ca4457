//! The parts of a conjunction that is proved.
ghost use Rattle.std.specs.Prelude.{◌≡◌, ◌++◌, ◌∷◌, [], codes, IfOk, OnOk};
ghost use Rattle.lf_core.specs.Spine.{apply};
ghost use Rattle.lf_core.specs.Term.{const};
ghost use Rattle.lf_elaboration.specs.Equivalence as spec;
ghost use Rattle.lf_elaboration.specs.Injectivity.{and_part};
ghost use Rattle.lf_equivalence.specs.Parts.{part_at};

use crate::equations::field_equation;
use lf_core::{Expr, Name, NoMemory};
use lf_injectivity::{Field, conjunction};
use sqlite_items::Items;
use std::alloc::Global;

/// The constant with this name of two parts and no levels.
pub fn part(alloc: Global, first: &str, last: &str) -> Result<Expr, NoMemory>
    ensures { IfOk result (λ t. t ≡ const (first.now ∷ last.now ∷ []) []) }
{
    let name = Name::one(alloc, first)?.child(alloc, last)?;
    Expr::constant(alloc, name, Items::new(alloc))
}

// One part of a conjunction of two that `proof` proves.
fn part_of(
    alloc: Global,
    word: &str,
    first: &Expr,
    rest: &Expr,
    proof: &Expr,
) -> Result<Expr, NoMemory>
    ensures { IfOk result (λ t. t ≡ apply (const (and_part word.now) []) (first.now ∷ rest.now ∷ proof.now ∷ [])) }
{
    let whole = part(alloc, "And", word)?;
    let whole = Expr::app(alloc, whole, first.copy(alloc)?)?;
    let whole = Expr::app(alloc, whole, rest.copy(alloc)?)?;
    Expr::app(alloc, whole, proof.copy(alloc)?)
}

// The two parts of the conjunction of a field's equation and the others', which `proof` proves.
fn both_parts(
    alloc: Global,
    f: &Field,
    fs: &[Field],
    proof: &Expr,
) -> Result<(Expr, Expr), NoMemory>
    ensures first { IfOk result (λ r. r.0 ≡ part_at (codes "left") f.now fs.now proof.now) }
    ensures rest { IfOk result (λ r. r.1 ≡ part_at (codes "right") f.now fs.now proof.now) }
{
    let first = field_equation(alloc, f)?;
    let rest = conjunction(alloc, fs)?;
    let left = part_of(alloc, "left", &first, &rest, proof)?;
    let right = part_of(alloc, "right", &first, &rest, proof)?;
    Ok((left, right))
}

/// Puts the parts of the conjunction of the fields' equations, which `proof` proves, behind `all`, in order.
#[tactic(auto, using(crate::proofs::Lists::more_parts))]
pub fn push_parts(all: &mut Vec<Expr>, of: &[Field], proof: Expr) -> Result<(), NoMemory>
    ensures { OnOk result (all.new.items ≡ all.old.items ++ spec.parts of.now proof) }
{
    let alloc = *all.allocator();
    match of {
        [] => {
            drop(proof);
            Ok(())
        }
        [_f] => {
            all.push(proof)?;
            Ok(())
        }
        [f, fs @ ..] => {
            let (left, right) = both_parts(alloc, f, fs, &proof)?;
            drop(proof);
            all.push(left)?;
            push_parts(all, fs, right)
        }
    }
}
