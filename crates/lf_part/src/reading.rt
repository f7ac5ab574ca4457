//! Terms with their assigned metavariables put in.
ghost use Rattle.std.specs.Prelude.{◌≡◌, ℕ};
ghost use Rattle.lf_checker.specs.Run as checker;
ghost use Rattle.lf_elaboration.specs.Metavariables as terms;
ghost use Rattle.lf_elaboration.specs.Part as spec;
ghost use Rattle.lf_steps.specs.Runs as steps;
ghost use Rattle.lf_part.specs.Into as into;
ghost use Rattle.lf_part.specs.Runs.{Runs, Calm};
ghost use Rattle.lf_part.specs.Values as own;

use crate::ended::Ended;
use crate::state::State;
use lf_core::Expr;
use lf_meta::Metas;
use lf_steps::{Halt, out, paid};
use sqlite_items::Items;

// The term with its assigned metavariables put in, which costs its nodes.
#[tactic(auto, using(crate::proofs::Costs::made_out))]
fn put_in(units: &mut u64, metas: &Metas, term: &Expr) -> Result<Expr, Halt>
    ensures value { steps.Runs (checker.made (terms.put_in metas.now term.now) units.old) result units.new }
    ensures calm { steps.Calm result }
{
    match metas.put_within(term, *units)? {
        Some(whole) => Ok(paid(units, whole)?),
        None => Err(out(units)),
    }
}

/// The term with its assigned metavariables put in. It costs its nodes, where one stands in it.
#[tactic(auto, using(crate::proofs::Runs::put_ends, crate::proofs::Runs::told))]
pub fn instantiated(units: &mut u64, state: &State, term: &Expr) -> Result<Expr, Ended>
    ensures value { Runs (spec.instantiated term.now units.old (own.state state.now)) result units.new (own.state state.now) }
    ensures calm { Calm result }
{
    if state.metas.has_assigned(term) {
        Ok(put_in(units, &state.metas, term)?)
    } else {
        Ok(term.copy(state.metas.alloc())?)
    }
}

// Puts the terms with their assigned metavariables put in behind `ready`.
#[tactic(auto, using(crate::proofs::Runs::halts))]
fn instantiated_behind(
    units: &mut u64,
    state: &State,
    ready: Items<Expr>,
    terms: &[Expr],
) -> Result<Items<Expr>, Ended>
    ensures value { Runs (into.instantiated_into ready terms.now units.old (own.state state.now)) result units.new
        (own.state state.now) }
    ensures calm { Calm result }
{
    match terms {
        [] => Ok(ready),
        [term, rest @ ..] => {
            let one = instantiated(units, state, term)?;
            let mut more = ready;
            more.push(one)?;
            instantiated_behind(units, state, more, rest)
        }
    }
}

/// The terms with their assigned metavariables put in, in order.
#[tactic(auto, using(crate::proofs::Into::instantiated_nothing))]
pub fn instantiated_all(
    units: &mut u64,
    state: &State,
    terms: &[Expr],
) -> Result<Items<Expr>, Ended>
    ensures value { Runs (spec.instantiated_all terms.now units.old (own.state state.now)) result units.new (own.state state.now) }
    ensures calm { Calm result }
{
    let ready = Items::new(state.metas.alloc());
    let all = instantiated_behind(units, state, ready, terms)?;
    Ok(all)
}
