//! Injectivity of a constructor: where two applications of it at one list of parameters are equal, so are their fields.
ghost use Rattle.std.specs.Prelude.{◌≡◌, ◌++◌, ◌∷◌, [], Some, None, codes, length, option_map, reverse, IfOk};
ghost use Rattle.lf_core.specs.Spine as spine;
ghost use Rattle.lf_core.specs.Term.{const, free};
ghost use Rattle.lf_elaboration.specs.Injectivity as spec;
ghost use Rattle.lf_rules.specs.Recursor.{named};
ghost use Rattle.lf_rules.specs.Telescope as telescope;
ghost use Rattle.lf_steps.specs.Runs.{RunsAs, Calm};
ghost use Rattle.lf_telescope.specs.Values.{statement};
ghost use Rattle.lf_injectivity.specs.Values.{sides, backwards};

use crate::conjunctions::{conjoined, conjunction};
use crate::opening::{Field, Sides};
use crate::primes::push_copies;
use crate::selecting::selector;
use crate::terms::{left_of, right_of, whole_equation};
use lf_core::{Binder, BinderKind, Expr, Level, Name, NoMemory};
use lf_env::View;
use lf_recursor::Local;
use lf_steps::Halt;
use lf_telescope::{Statement, lambdas_closed, pis_closed};
use sqlite_items::Items;
use std::alloc::Global;

/// `congrArg` at two types with their levels, two terms of the first, a function and an equation of the two.
#[derive(Clone, Copy)]
pub struct Congruence<'a> {
    pub level: &'a Level,
    pub target: &'a Level,
    pub from: &'a Expr,
    pub to: &'a Expr,
    pub left: &'a Expr,
    pub right: &'a Expr,
}

impl Congruence<'_> {
    /// The equation of the two images.
    pub fn of(self, alloc: Global, f: Expr, h: &Expr) -> Result<Expr, NoMemory>
        ensures { IfOk result (λ t. t ≡ spec.congruence self.entry.level.now self.entry.target.now self.entry.from.now self.entry.to.now self.entry.left.now
            self.entry.right.now f h.now) }
    {
        let mut levels = Items::new(alloc);
        levels.push(self.level.copy(alloc)?)?;
        levels.push(self.target.copy(alloc)?)?;
        let whole = Expr::constant(alloc, Name::one(alloc, "congrArg")?, levels)?;
        let whole = Expr::app(alloc, whole, self.from.copy(alloc)?)?;
        let whole = Expr::app(alloc, whole, self.to.copy(alloc)?)?;
        let whole = Expr::app(alloc, whole, self.left.copy(alloc)?)?;
        let whole = Expr::app(alloc, whole, self.right.copy(alloc)?)?;
        let whole = Expr::app(alloc, whole, f)?;
        Expr::app(alloc, whole, h.copy(alloc)?)
    }
}

// The proof for a field, by its function and one of the whole.
fn field_proof(alloc: Global, s: &Sides, f: &Field, g: Expr, h: &Expr) -> Result<Expr, NoMemory>
    ensures { IfOk result (λ t. t ≡ spec.congruence s.now.level f.now.level s.now.ty f.now.ty (spec.left_of (sides s.now)) (spec.right_of (sides s.now)) g
        h.now) }
{
    let left = left_of(alloc, s)?;
    let right = right_of(alloc, s)?;
    let congruence = Congruence {
        level: &s.level,
        target: &f.level,
        from: &s.ty,
        to: &f.ty,
        left: &left,
        right: &right,
    };
    congruence.of(alloc, g, h)
}

// The proofs with one more, which stands before them.
#[tactic(auto, using(crate::proofs::Parts::proof_back))]
fn with_proof(
    alloc: Global,
    s: &Sides,
    f: &Field,
    h: &Expr,
    function: Option<Expr>,
    proofs: Option<Vec<Expr>>,
) -> Result<Option<Vec<Expr>>, NoMemory>
    ensures { IfOk result (λ r. backwards r ≡ spec.with_proof function (sides s.now) f.now h.now (backwards proofs)) }
{
    match function {
        None => {
            drop(proofs);
            Ok(None)
        }
        Some(g) => match proofs {
            None => {
                drop(g);
                Ok(None)
            }
            Some(proofs) => {
                let mut all = proofs;
                all.push(field_proof(alloc, s, f, g, h)?)?;
                Ok(Some(all))
            }
        },
    }
}

// The proofs of the fields' equations from the last on, by one of the whole.
#[tactic(auto, using(lf_steps::proofs::Runs::halts))]
fn proofs_back(
    alloc: Global,
    view: &View,
    units: &mut u64,
    s: &Sides,
    h: &Expr,
    i: u32,
    of: &[Field],
) -> Result<Option<Vec<Expr>>, Halt>
    ensures value { RunsAs backwards (spec.field_proofs view.now (sides s.now) h.now i of.now units.old) result units.new }
    ensures calm { Calm result }
{
    match of {
        [] => Ok(Some(Vec::new(alloc))),
        [f, fs @ ..] => {
            let function = selector(alloc, view, units, s, i, f)?;
            let next = i.checked_add(1).ok_or(NoMemory)?;
            let rest = proofs_back(alloc, view, units, s, h, next, fs)?;
            Ok(with_proof(alloc, s, f, h, function, rest)?)
        }
    }
}

/// A proof of each field's equation, by `h`, one of the whole; `None` where a field has no function that gives it.
#[tactic(auto, using(lf_steps::proofs::Runs::halts))]
pub fn field_proofs(
    alloc: Global,
    view: &View,
    units: &mut u64,
    s: &Sides,
    h: &Expr,
) -> Result<Option<Vec<Expr>>, Halt>
    ensures value { RunsAs (option_map (λ v. v.items)) (spec.field_proofs view.now (sides s.now) h.now 0 s.now.fields.items units.old) result
        units.new }
    ensures calm { Calm result }
{
    match proofs_back(alloc, view, units, s, h, 0, s.fields.as_slice())? {
        None => Ok(None),
        Some(proofs) => {
            let mut all = proofs;
            all.reverse();
            Ok(Some(all))
        }
    }
}

/// The binder `h` of this type.
pub fn hypothesis(alloc: Global, ty: Expr) -> Result<Local, NoMemory>
    ensures { IfOk result (λ x. x ≡ spec.hypothesis ty) }
{
    let name = Name::one(alloc, "h")?;
    let binder = Binder {
        name,
        kind: BinderKind::Explicit,
    };
    Ok(Local { binder, ty })
}

// The statement, with its proof by those of the fields' equations.
#[tactic(auto, using(lf_steps::proofs::Runs::halts))]
fn injectivity_by(
    alloc: Global,
    units: &mut u64,
    s: &Sides,
    proofs: &[Expr],
) -> Result<Statement, Halt>
    ensures value { RunsAs (λ t. Some (statement t)) (spec.injectivity_by (sides s.now) (Some proofs.now) units.old) result units.new }
    ensures calm { Calm result }
{
    let mut all = Vec::new(alloc);
    push_copies(&mut all, s.all.as_slice())?;
    all.push(hypothesis(alloc, whole_equation(alloc, s)?)?)?;
    let body = conjunction(alloc, s.fields.as_slice())?;
    let ty = pis_closed(alloc, units, 0, all.as_slice(), body)?;
    let body = conjoined(alloc, s.fields.as_slice(), proofs)?;
    let proof = lambdas_closed(alloc, units, 0, all.as_slice(), body)?;
    Ok(Statement { ty, proof })
}

/// That the constructor is injective, with its proof; `None` where a field has no function that gives it.
/// Out, and Need, where the definition is. docs/language.md, Realized constants.
#[tactic(auto, using(lf_steps::proofs::Runs::halts))]
pub fn injectivity(
    alloc: Global,
    view: &View,
    units: &mut u64,
    s: &Sides,
) -> Result<Option<Statement>, Halt>
    ensures value { RunsAs (option_map statement) (spec.injectivity view.now (Some (sides s.now)) units.old) result units.new }
    ensures calm { Calm result }
{
    let place = u32::try_from(s.all.len()).map_err(|_| NoMemory)?;
    let h = Expr::free(alloc, place)?;
    match field_proofs(alloc, view, units, s, &h)? {
        None => Ok(None),
        Some(proofs) => {
            let statement = injectivity_by(alloc, units, s, proofs.as_slice())?;
            Ok(Some(statement))
        }
    }
}
