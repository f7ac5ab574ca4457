//! That two applications of a constructor are equal is that their fields are.
ghost use Rattle.std.specs.Prelude.{◌≡◌, ◌≤◌, ◌∷◌, [], codes, Some, option_map, IfOk, length};
ghost use Rattle.lf_checker.specs.Checker.{calls};
ghost use Rattle.lf_core.specs.Spine.{apply};
ghost use Rattle.lf_core.specs.Term.{level_zero, level_succ, const, free, sort};
ghost use Rattle.lf_elaboration.specs.Equivalence as spec;
ghost use Rattle.lf_elaboration.specs.Injectivity as injectivity;
ghost use Rattle.lf_elaboration.specs.Statement as statements;
ghost use Rattle.lf_injectivity.specs.Values.{sides};
ghost use Rattle.lf_steps.specs.Runs.{Runs, RunsAs, Calm, Rose};
ghost use Rattle.lf_telescope.specs.Values.{statement};

use crate::equations::{equation, hypothesis, whole_equation};
use crate::parts::{part, push_parts};
use crate::rebuilding::rebuilt;
use crate::rests::{Rest, rest_types};
use lf_base::Stop;
use lf_check::Cx;
use lf_core::{Expr, Level, Name, NoMemory};
use lf_injectivity::{Sides, conjoined, conjunction, field_proofs};
use lf_steps::Halt;
use lf_telescope::{Statement, lambdas_closed, pis_closed, types};
use sqlite_items::Items;
use std::alloc::Global;

// `Iff.intro` at two propositions.
fn iff(
    alloc: Global,
    whole: &Expr,
    fields: &Expr,
    there: Expr,
    back: Expr,
) -> Result<Expr, NoMemory>
    ensures { IfOk result (λ t. t ≡ apply (const (codes "Iff" ∷ codes "intro" ∷ []) []) (whole.now ∷ fields.now ∷ there ∷ back ∷ [])) }
{
    let term = part(alloc, "Iff", "intro")?;
    let term = Expr::app(alloc, term, whole.copy(alloc)?)?;
    let term = Expr::app(alloc, term, fields.copy(alloc)?)?;
    let term = Expr::app(alloc, term, there)?;
    Expr::app(alloc, term, back)
}

// That the two propositions are equal, by a proof of each from the other.
fn both_ways(alloc: Global, s: &Sides, there: Expr, back: Expr) -> Result<Expr, NoMemory>
    ensures { IfOk result (λ t. t ≡ spec.both_ways (sides s.now) there back) }
{
    let whole = whole_equation(alloc, s)?;
    let fields = conjunction(alloc, s.fields.as_slice())?;
    let equivalent = iff(alloc, &whole, &fields, there, back)?;
    let term = Expr::constant(alloc, Name::one(alloc, "propext")?, Items::new(alloc))?;
    let term = Expr::app(alloc, term, whole)?;
    let term = Expr::app(alloc, term, fields)?;
    Expr::app(alloc, term, equivalent)
}

// That the two propositions are equal.
fn propositions(alloc: Global, s: &Sides) -> Result<Expr, NoMemory>
    ensures { IfOk result (λ t. t ≡ injectivity.equation (level_succ level_zero) (sort level_zero) (injectivity.whole_equation (sides s.now))
        (injectivity.conjunction s.now.fields.items)) }
{
    let whole = whole_equation(alloc, s)?;
    let fields = conjunction(alloc, s.fields.as_slice())?;
    let level = Level::succ(alloc, Level::zero(alloc)?)?;
    let proposition = Expr::sort(alloc, Level::zero(alloc)?)?;
    equation(alloc, &level, &proposition, &whole, &fields)
}

// The term under a binder `h` of this type, which is the variable of number `k`.
fn under_hypothesis(
    alloc: Global,
    units: &mut u64,
    k: usize,
    ty: Expr,
    body: Expr,
) -> Result<Expr, Halt>
    ensures value { Runs (statements.lambdas_closed k (injectivity.hypothesis ty ∷ []) body units.old) result units.new }
    ensures calm { Calm result }
{
    let binder = [hypothesis(alloc, ty)?];
    lambdas_closed(alloc, units, k, &binder, body)
}

// The fields' equations, by that of the two sides.
fn there(alloc: Global, units: &mut u64, s: &Sides, proofs: &[Expr]) -> Result<Expr, Halt>
    ensures value { Runs (statements.lambdas_closed (length s.now.all.items) (injectivity.hypothesis (injectivity.whole_equation (sides s.now)) ∷ [])
        (injectivity.conjoined s.now.fields.items proofs.now) units.old) result units.new }
    ensures calm { Calm result }
{
    let body = conjoined(alloc, s.fields.as_slice(), proofs)?;
    under_hypothesis(alloc, units, s.all.len(), whole_equation(alloc, s)?, body)
}

// The equation of the two sides, by those of the fields.
fn back(alloc: Global, units: &mut u64, s: &Sides, rests: &[Rest]) -> Result<Expr, Halt>
    ensures value { Runs (statements.lambdas_closed (length s.now.all.items) (injectivity.hypothesis (injectivity.conjunction s.now.fields.items) ∷ [])
        (spec.rebuilt (sides s.now) rests.now (spec.parts s.now.fields.items (free (length s.now.all.items)))) units.old) result units.new }
    ensures calm { Calm result }
{
    let place = u32::try_from(s.all.len()).map_err(|_| NoMemory)?;
    let mut parts = Vec::new(alloc);
    push_parts(&mut parts, s.fields.as_slice(), Expr::free(alloc, place)?)?;
    let body = rebuilt(alloc, s, rests, parts.as_slice())?;
    let fields = conjunction(alloc, s.fields.as_slice())?;
    under_hypothesis(alloc, units, s.all.len(), fields, body)
}

// The statement, with its proof by those of the fields' equations.
#[tactic(auto, using(lf_steps::proofs::Runs::halts))]
fn equivalence_by<P: Stop>(
    cx: Cx<'_>,
    units: &mut u64,
    stop: &mut P,
    s: &Sides,
    proofs: &[Expr],
) -> Result<Statement, Halt>
    ensures value { RunsAs (λ t. Some (statement t))
        (spec.equivalence_by (calls cx.entry.view.now cx.entry.depth) (sides s.now) (Some proofs.now) units.old) result units.new }
    ensures count { P.stops stop.old ≤ P.stops stop.new }
    ensures rose { Rose result (P.stops stop.old) (P.stops stop.new) }
{
    let alloc = cx.alloc;
    let mut context = types(alloc, s.all.as_slice())?;
    let first = s.params.len();
    let locals = s.telescope.as_slice();
    let rests = rest_types(cx, &mut context, units, stop, first, locals, &s.ty)?;
    let there = there(alloc, units, s, proofs)?;
    let back = back(alloc, units, s, rests.as_slice())?;
    let ty = propositions(alloc, s)?;
    let ty = pis_closed(alloc, units, 0, s.all.as_slice(), ty)?;
    let proof = both_ways(alloc, s, there, back)?;
    let proof = lambdas_closed(alloc, units, 0, s.all.as_slice(), proof)?;
    Ok(Statement { ty, proof })
}

/// That two applications of the constructor are equal is that their fields are, as an equation of propositions, with its
/// proof; `None` where a field has no function that gives it. That the kernel accepts it isn't said here.
/// Refused, Out, and Need, where the definition is. docs/language.md, Realized constants.
#[tactic(auto, using(lf_steps::proofs::Runs::halts))]
pub fn equivalence<P: Stop>(
    cx: Cx<'_>,
    units: &mut u64,
    stop: &mut P,
    s: &Sides,
) -> Result<Option<Statement>, Halt>
    ensures value { RunsAs (option_map statement)
        (spec.equivalence cx.entry.view.now (calls cx.entry.view.now cx.entry.depth) (Some (sides s.now)) units.old) result units.new }
    ensures count { P.stops stop.old ≤ P.stops stop.new }
    ensures rose { Rose result (P.stops stop.old) (P.stops stop.new) }
{
    let alloc = cx.alloc;
    let place = u32::try_from(s.all.len()).map_err(|_| NoMemory)?;
    let h = Expr::free(alloc, place)?;
    match field_proofs(alloc, cx.view, units, s, &h)? {
        None => Ok(None),
        Some(proofs) => {
            let statement = equivalence_by(cx, units, stop, s, proofs.as_slice())?;
            Ok(Some(statement))
        }
    }
}
