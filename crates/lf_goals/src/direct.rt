//! Proofs as bodies of lambdas, and the proof of the one goal that was left.
ghost use Rattle.std.specs.Prelude.{◌≡◌, ℕ, IfOk};
ghost use Rattle.lf_elaboration.specs.Direct as spec;
ghost use Rattle.lf_elaboration.specs.Part as parts;
ghost use Rattle.lf_part.specs.Runs.{Runs, Calm};
ghost use Rattle.lf_part.specs.Values as own;
ghost use Rattle.lf_goals.specs.Between as between;

use lf_core::{Expr, Name};
use lf_forms::none_escapes;
use lf_name::{Binder, BinderKind};
use lf_part::{Ended, State};
use lf_steps::{abstracted, put};
use std::alloc::Global;

// The lambda over the local of number `k`, which closes, with this proof as its body.
#[tactic(auto, using(lf_part::proofs::Runs::halts, lf_part::proofs::Runs::check_halts, lf_part::proofs::Runs::check_ends, lf_part::proofs::Runs::told))]
fn lambda_over(
    alloc: Global,
    units: &mut u64,
    state: &State,
    k: usize,
    binder: Binder,
    domain: &Expr,
    proof: &Expr,
) -> Result<Expr, Ended>
    ensures value { Runs (spec.lambda_over k binder domain.now proof.now units.old (own.state state.now)) result units.new (own.state state.now) }
    ensures calm { Calm result }
{
    none_escapes(state, k)?;
    let body = abstracted(alloc, units, proof, k)?;
    let domain = domain.copy(alloc)?;
    let term = Expr::lam(alloc, binder, domain, body)?;
    Ok(put(units, term)?)
}

/// The lambda over the local of number `k`, which closes, of the binder's kind, with this proof as its body.
#[tactic(auto, using(lf_part::proofs::Runs::halts), unfolding(crate::specs::Between::lambda_of))]
pub fn lambda_of(
    alloc: Global,
    units: &mut u64,
    state: &State,
    k: usize,
    name: &Name,
    binder: &Binder,
    domain: &Expr,
    proof: &Expr,
) -> Result<Expr, Ended>
    ensures value { Runs (between.lambda_of k name.now binder.now domain.now proof.now units.old (own.state state.now)) result units.new (own.state state.now) }
    ensures calm { Calm result }
{
    let binder = Binder {
        name: name.copy(alloc)?,
        kind: binder.kind,
    };
    lambda_over(alloc, units, state, k, binder, domain, proof)
}

/// The lambda over the local of number `k`, which closes, with this proof as its body, applied to a value.
#[tactic(auto, using(lf_part::proofs::Runs::halts, lf_part::proofs::Runs::check_halts, lf_part::proofs::Runs::check_ends, lf_part::proofs::Runs::told), unfolding(crate::specs::Between::lambda_applied))]
pub fn lambda_applied(
    alloc: Global,
    units: &mut u64,
    state: &State,
    k: usize,
    name: &Name,
    ty: &Expr,
    value: Expr,
    proof: &Expr,
) -> Result<Expr, Ended>
    ensures value { Runs (between.lambda_applied k name.now ty.now value proof.now units.old (own.state state.now)) result units.new (own.state state.now) }
    ensures calm { Calm result }
{
    let binder = Binder {
        name: name.copy(alloc)?,
        kind: BinderKind::Explicit,
    };
    let lambda = lambda_over(alloc, units, state, k, binder, ty, proof)?;
    let term = Expr::app(alloc, lambda, value)?;
    Ok(put(units, term)?)
}

/// The proof of the one goal that was left; out where there is another number of proofs.
#[tactic(auto, using(crate::proofs::Soles::one, crate::proofs::Soles::none, crate::proofs::Soles::more))]
pub fn sole(proofs: Vec<Expr>) -> Result<Expr, Ended>
    ensures value { (u : ℕ) (s : parts.State) → Runs (spec.sole proofs.items u s) result u s }
    ensures calm { Calm result }
{
    let mut others = proofs;
    match others.pop() {
        None => Err(Ended::Out),
        Some(proof) => {
            if others.is_empty() {
                return Ok(proof);
            }
            drop(proof);
            Err(Ended::Out)
        }
    }
}
