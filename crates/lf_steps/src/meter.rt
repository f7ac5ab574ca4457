//! What the checker's steps cost.
ghost use Rattle.std.specs.Prelude.{◌≡◌, ◌<◌, ◌≤◌, ℕ, IfOk, length};
ghost use Rattle.lf_core.specs.Spine as spine;
ghost use Rattle.lf_core.specs.Substitution.{instantiate, level_instantiate, abstract};
ghost use Rattle.lf_base.specs.Outside.{Rises};
ghost use Rattle.lf_checker.specs.Run as run;
ghost use Rattle.lf_steps.specs.Runs.{Runs, Rose, Calm};
ghost use Rattle.lf_steps.specs.Runs as own;

use crate::halt::{Halt, out};
use crate::spine::apply;
use lf_base::Stop;
use lf_core::{Expr, Level};
use lf_subst::{DEEPEST, SubstFault, abstract_free, instantiate, level_inst};
use std::alloc::Global;

/// The greatest number of a variable.
const GREATEST: usize = 4294967294;

/// Starts a call, where `depth` nested ones are still allowed: it asks for a stop, and costs a unit.
#[tactic(auto, unfolding(crate::specs::Runs::enter))]
pub fn enter<P: Stop>(depth: u32, units: &mut u64, stop: &mut P) -> Result<(), Halt>
    ensures value { Runs (own.enter depth units.old) result units.new }
    ensures nested { IfOk result (λ _. 0 < depth) }
    ensures count { P.stops stop.old ≤ P.stops stop.new }
    ensures rose { Rose result (P.stops stop.old) (P.stops stop.new) }
{
    if stop.stopped() {
        return Err(Halt::Stopped);
    }
    if depth == 0 {
        return Err(out(units));
    }
    if *units < 1 {
        return Err(out(units));
    }
    *units -= 1;
    Ok(())
}

/// A term that was put together: it costs nothing, and may not be too deep.
pub fn put(units: &mut u64, term: Expr) -> Result<Expr, Halt>
    ensures value { Runs (run.put term units.old) result units.new }
    ensures calm { Calm result }
{
    if term.depth() > DEEPEST {
        drop(term);
        return Err(out(units));
    }
    Ok(term)
}

/// A term that costs its nodes.
pub fn paid(units: &mut u64, term: Expr) -> Result<Expr, Halt>
    ensures value { Runs (run.made term units.old) result units.new }
    ensures calm { Calm result }
{
    let nodes = term.node_count();
    if *units < nodes {
        drop(term);
        return Err(out(units));
    }
    *units -= nodes;
    put(units, term)
}

/// The body of a binder with `arg` for its variable: it costs its nodes.
#[tactic(auto, using(crate::proofs::Costs::made_done, crate::proofs::Costs::made_deep, crate::proofs::Costs::made_short))]
pub fn instance(alloc: Global, units: &mut u64, body: &Expr, arg: &Expr) -> Result<Expr, Halt>
    ensures value { Runs (run.made (instantiate body.now arg.now) units.old) result units.new }
    ensures calm { Calm result }
{
    match instantiate(alloc, body, arg, *units) {
        Ok((term, nodes)) => {
            *units -= nodes;
            Ok(term)
        }
        Err(SubstFault::TooDeep | SubstFault::Units) => Err(out(units)),
        Err(SubstFault::NoMemory) => Err(Halt::NoMemory),
    }
}

/// A term at these levels: it costs its nodes.
#[tactic(auto, using(crate::proofs::Costs::made_done, crate::proofs::Costs::made_deep, crate::proofs::Costs::made_short))]
pub fn at_levels(
    alloc: Global,
    units: &mut u64,
    levels: &[Level],
    term: &Expr,
) -> Result<Expr, Halt>
    ensures value { Runs (run.made (level_instantiate levels.now term.now) units.old) result units.new }
    ensures calm { Calm result }
{
    match level_inst(alloc, term, levels, *units) {
        Ok((term, nodes)) => {
            *units -= nodes;
            Ok(term)
        }
        Err(SubstFault::TooDeep | SubstFault::Units) => Err(out(units)),
        Err(SubstFault::NoMemory) => Err(Halt::NoMemory),
    }
}

/// The body of a binder whose variable stands where `term` has `Free(k)`: it costs its nodes.
#[tactic(auto, using(crate::proofs::Costs::made_done, crate::proofs::Costs::made_deep, crate::proofs::Costs::made_short))]
fn closed(alloc: Global, units: &mut u64, term: &Expr, k: u32) -> Result<Expr, Halt>
    ensures value { Runs (run.made (abstract term.now k) units.old) result units.new }
    ensures calm { Calm result }
{
    match abstract_free(alloc, term, k, *units) {
        Ok((term, nodes)) => {
            *units -= nodes;
            Ok(term)
        }
        Err(SubstFault::TooDeep | SubstFault::Units) => Err(out(units)),
        Err(SubstFault::NoMemory) => Err(Halt::NoMemory),
    }
}

/// The same of the variable of this number, which no u32 may count.
pub fn abstracted(alloc: Global, units: &mut u64, term: &Expr, k: usize) -> Result<Expr, Halt>
    ensures value { Runs (run.made (abstract term.now k) units.old) result units.new }
    ensures calm { Calm result }
{
    match u32::try_from(k) {
        Ok(k) => closed(alloc, units, term, k),
        Err(_) => Err(Halt::NoMemory),
    }
}

/// `term`, which was paid, applied to these arguments.
pub fn before(alloc: Global, units: &mut u64, term: Expr, arguments: &[Expr]) -> Result<Expr, Halt>
    ensures value { Runs (run.put (spine.apply term arguments.now) units.old) result units.new }
    ensures calm { Calm result }
{
    put(units, apply(alloc, term, arguments)?)
}

/// An instance before these arguments: it costs its nodes.
#[tactic(auto, using(crate::proofs::Costs::made_before_is, crate::proofs::Runs::halts))]
pub fn instance_before(
    alloc: Global,
    units: &mut u64,
    body: &Expr,
    arg: &Expr,
    arguments: &[Expr],
) -> Result<Expr, Halt>
    ensures value { Runs (run.made_before arguments.now (instantiate body.now arg.now) units.old) result units.new }
    ensures calm { Calm result }
{
    let term = instance(alloc, units, body, arg)?;
    before(alloc, units, term, arguments)
}

/// A term at these levels before these arguments: it costs its nodes.
#[tactic(auto, using(crate::proofs::Costs::made_before_is, crate::proofs::Runs::halts))]
pub fn levels_before(
    alloc: Global,
    units: &mut u64,
    levels: &[Level],
    term: &Expr,
    arguments: &[Expr],
) -> Result<Expr, Halt>
    ensures value { Runs (run.made_before arguments.now (level_instantiate levels.now term.now) units.old) result units.new }
    ensures calm { Calm result }
{
    let term = at_levels(alloc, units, levels, term)?;
    before(alloc, units, term, arguments)
}

/// The body of a binder, opened by the next variable.
pub fn opening(alloc: Global, units: &mut u64, locals: &[Expr], body: &Expr) -> Result<Expr, Halt>
    ensures value { Runs (run.opening locals.now body.now units.old) result units.new }
    ensures calm { Calm result }
{
    let next = locals.len();
    if next > GREATEST {
        return Err(out(units));
    }
    let variable = Expr::free(alloc, next as u32)?;
    instance(alloc, units, body, &variable)
}
