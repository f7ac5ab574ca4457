//! Rewriting a goal by an equation whose subterm is fixed.
ghost use Rattle.std.specs.Prelude.{◌≡◌, ◌∷◌, [], Some, None, IfOk};
ghost use Rattle.lf_elaboration.specs.Equations as spec;
ghost use Rattle.lf_elaboration.specs.Step as step;
ghost use Rattle.lf_steps.specs.Runs.{Runs, Calm};

use crate::equation::Equation;
use crate::lists::push_levels;
use crate::names::{eq_name, eq_part};
use crate::raising::raised;
use crate::step::Step;
use lf_core::{Binder, BinderKind, Expr, Level, Name, NoMemory, copy_all};
use lf_rewrite::motive;
use lf_steps::{Halt, apply, instance, paid, put};
use sqlite_items::Items;
use std::alloc::Global;

/// An explicit binder of this name.
pub fn explicit(alloc: Global, word: &str) -> Result<Binder, NoMemory>
    ensures { IfOk result (λ x. x ≡ step.explicit word.now) }
{
    Ok(Binder {
        name: Name::one(alloc, word)?,
        kind: BinderKind::Explicit,
    })
}

/// The equation with its sides in the other order.
pub fn turned(alloc: Global, equation: &Equation) -> Result<Equation, NoMemory>
    ensures { IfOk result (λ e. e ≡ spec.turned equation.now) }
{
    Ok(Equation {
        levels: copy_all(alloc, equation.levels.as_slice())?,
        ty: equation.ty.copy(alloc)?,
        left: equation.right.copy(alloc)?,
        right: equation.left.copy(alloc)?,
    })
}

/// The equation as a term.
pub fn equation_term(alloc: Global, equation: &Equation) -> Result<Expr, NoMemory>
    ensures { IfOk result (λ t. t ≡ spec.equation_term equation.now) }
{
    let levels = copy_all(alloc, equation.levels.as_slice())?;
    let eq = Expr::constant(alloc, eq_name(alloc)?, levels)?;
    let eq = Expr::app(alloc, eq, equation.ty.copy(alloc)?)?;
    let eq = Expr::app(alloc, eq, equation.left.copy(alloc)?)?;
    Expr::app(alloc, eq, equation.right.copy(alloc)?)
}

/// `@Eq.symm ty left right proof`.
pub fn symmetric(alloc: Global, equation: &Equation, proof: &Expr) -> Result<Expr, NoMemory>
    ensures { IfOk result (λ t. t ≡ spec.symmetric equation.now proof.now) }
{
    let levels = copy_all(alloc, equation.levels.as_slice())?;
    let symm = Expr::constant(alloc, eq_part(alloc, "symm")?, levels)?;
    let symm = Expr::app(alloc, symm, equation.ty.copy(alloc)?)?;
    let symm = Expr::app(alloc, symm, equation.left.copy(alloc)?)?;
    let symm = Expr::app(alloc, symm, equation.right.copy(alloc)?)?;
    Expr::app(alloc, symm, proof.copy(alloc)?)
}

// `fun (z : ty) (_ : right = z) => goal`, of the goal with z loose.
fn rewriting_motive(alloc: Global, equation: &Equation, goal: &Expr) -> Result<Expr, NoMemory>
    ensures { IfOk result (λ t. t ≡ spec.rewriting_motive equation.now goal.now) }
{
    let levels = copy_all(alloc, equation.levels.as_slice())?;
    let domain = Expr::constant(alloc, eq_name(alloc)?, levels)?;
    let domain = Expr::app(alloc, domain, equation.ty.copy(alloc)?)?;
    let domain = Expr::app(alloc, domain, equation.right.copy(alloc)?)?;
    let domain = Expr::app(alloc, domain, Expr::bound(alloc, 0)?)?;
    let inner = Expr::lam(alloc, explicit(alloc, "_")?, domain, raised(alloc, goal)?)?;
    Expr::lam(
        alloc,
        explicit(alloc, "z")?,
        equation.ty.copy(alloc)?,
        inner,
    )
}

// `@Eq.rec ty right` at the motive of the rewriting.
fn rewriting_head(alloc: Global, equation: &Equation, goal: &Expr) -> Result<Expr, NoMemory>
    ensures { IfOk result (λ t. t ≡ spec.rewriting_head equation.now goal.now) }
{
    let mut levels = Items::new(alloc);
    levels.push(Level::zero(alloc)?)?;
    push_levels(alloc, &mut levels, equation.levels.as_slice())?;
    let rec = Expr::constant(alloc, eq_part(alloc, "rec")?, levels)?;
    let rec = Expr::app(alloc, rec, equation.ty.copy(alloc)?)?;
    let rec = Expr::app(alloc, rec, equation.right.copy(alloc)?)?;
    Expr::app(alloc, rec, rewriting_motive(alloc, equation, goal)?)
}

// The one goal that the step leaves, with its head and tail.
fn step_to(
    alloc: Global,
    goal: Expr,
    head: Expr,
    left: &Expr,
    proof: Expr,
) -> Result<Step, NoMemory>
    ensures { IfOk result (λ s. s ≡ record { head = Some head; goals = goal ∷ []; pads = None ∷ []; tail = left.now ∷ proof ∷ []; asked = None }) }
{
    let mut goals = Vec::new(alloc);
    goals.push(goal)?;
    let mut pads = Vec::new(alloc);
    pads.push(None)?;
    let mut tail = Vec::new(alloc);
    tail.push(left.copy(alloc)?)?;
    tail.push(proof)?;
    Ok(Step {
        head: Some(head),
        goals,
        pads,
        tail,
        asked: None,
    })
}

/// The step that rewrites the goal by the equation, which `proof` proves: the goal left has the right side wherever it had
/// the left. None exactly where the left side doesn't stand in the goal. It costs the nodes of the goal with a variable for
/// the left side, and those of the goal left. Out where units or depth don't suffice, and NoMemory; no other halt.
#[tactic(auto, using(lf_steps::proofs::Runs::halts))]
pub fn rewritten(
    alloc: Global,
    units: &mut u64,
    goal: &Expr,
    equation: &Equation,
    proof: &Expr,
) -> Result<Option<Step>, Halt>
    ensures value { Runs (spec.rewritten goal.now equation.now proof.now units.old) result units.new }
    ensures calm { Calm result }
{
    match motive(alloc, goal, &equation.left)? {
        None => Ok(None),
        Some(found) => {
            let over = paid(units, found)?;
            let left = instance(alloc, units, &over, &equation.right)?;
            let head = put(units, rewriting_head(alloc, equation, &over)?)?;
            drop(over);
            let turned_proof = put(units, symmetric(alloc, equation, proof)?)?;
            Ok(Some(step_to(alloc, left, head, &equation.left, turned_proof)?))
        }
    }
}
