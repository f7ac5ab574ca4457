//! Behind the rules of `rw`, and behind the proof of what a rule leaves.
ghost use Rattle.std.specs.Prelude.{◌≡◌, IfOk, option_copied};
ghost use Rattle.lf_elaboration.specs.Part as parts;
ghost use Rattle.lf_elaboration.specs.Rewrite as spec;
ghost use Rattle.lf_part.specs.Runs.{Runs, Calm};
ghost use Rattle.lf_opening.specs.Rules as rules;

use lf_core::{Expr, Name, NoMemory, copy_all};
use lf_items::{Equation, Step, as_equation, proof_by};
use lf_part::Ended;
use lf_steps::put;
use std::alloc::Global;

/// The first goal that the step leaves.
pub fn first_goal(alloc: Global, step: &Step) -> Result<Expr, NoMemory>
    ensures { IfOk result (λ g. g ≡ spec.first_goal step.now) }
{
    match step.goals.first() {
        Some(goal) => goal.copy(alloc),
        None => Expr::free(alloc, 0),
    }
}

/// The proof that a step of one goal makes of that goal's proof.
#[tactic(auto, using(lf_part::proofs::Runs::check_ends, lf_part::proofs::Runs::told), unfolding(crate::specs::Rules::proved))]
pub fn proved(alloc: Global, units: &mut u64, step: &Step, proof: Expr) -> Result<Expr, Ended>
    ensures value { (s : parts.State) → Runs (rules.proved step.now proof units.old s) result units.new s }
    ensures calm { Calm result }
{
    let mut proofs = Vec::new(alloc);
    proofs.push(proof)?;
    Ok(proof_by(alloc, units, step, proofs.as_slice())?)
}

/// Whether both sides are the same tree.
pub fn is_reflexive(equation: &Equation) -> bool
    ensures { result ≡ spec.is_reflexive (Some equation.now) }
{
    equation.left.is(&equation.right)
}

/// `@Eq.refl ty left`.
pub fn reflexivity(alloc: Global, equation: &Equation) -> Result<Expr, NoMemory>
    ensures { IfOk result (λ t. t ≡ spec.reflexivity (Some equation.now)) }
{
    let name = Name::one(alloc, "Eq")?.child(alloc, "refl")?;
    let levels = copy_all(alloc, equation.levels.as_slice())?;
    let refl = Expr::constant(alloc, name, levels)?;
    let refl = Expr::app(alloc, refl, equation.ty.copy(alloc)?)?;
    Expr::app(alloc, refl, equation.left.copy(alloc)?)
}

#[tactic(auto, using(lf_part::proofs::Runs::check_halts, lf_part::proofs::Runs::check_ends, lf_part::proofs::Runs::told))]
fn by_reflexivity(
    alloc: Global,
    units: &mut u64,
    equation: &Equation,
) -> Result<Option<Expr>, Ended>
    ensures value { (s : parts.State) → Runs (rules.by_reflexivity equation.now units.old s) result units.new s }
    ensures calm { Calm result }
{
    let proof = reflexivity(alloc, equation)?;
    let proof = put(units, proof)?;
    Ok(Some(proof))
}

fn reflexive_with(
    alloc: Global,
    units: &mut u64,
    equation: Option<Equation>,
) -> Result<Option<Expr>, Ended>
    ensures value { (s : parts.State) → Runs (rules.reflexive_with equation units.old s) result units.new s }
    ensures calm { Calm result }
{
    match equation {
        None => Ok(None),
        Some(equation) => {
            if is_reflexive(&equation) {
                by_reflexivity(alloc, units, &equation)
            } else {
                Ok(None)
            }
        }
    }
}

/// The proof of a goal `s = s` of two same trees; None of any other goal.
#[tactic(auto, unfolding(crate::specs::Rules::reflexive_proof))]
pub fn reflexive_proof(alloc: Global, units: &mut u64, goal: &Expr) -> Result<Option<Expr>, Ended>
    ensures value { (s : parts.State) → Runs (rules.reflexive_proof goal.now units.old s) result units.new s }
    ensures calm { Calm result }
{
    let equation = as_equation(alloc, goal)?;
    reflexive_with(alloc, units, equation)
}
