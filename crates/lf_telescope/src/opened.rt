//! Binders opened, at their costs.
ghost use Rattle.std.specs.Prelude.{◌≡◌, ◌≤◌, ℕ, OnSome};
ghost use Rattle.lf_elaboration.specs.Statement as spec;
ghost use Rattle.lf_recursor.specs.Values.{opened_of};
ghost use Rattle.lf_rules.specs.Telescope.{Telescope};
ghost use Rattle.lf_steps.specs.Runs.{Runs, RunsAs, Calm};
ghost use Rattle.lf_telescope.specs.Opens as opens;

use crate::binding::{Binding, Former, formed_by};
use lf_core::{Expr, NoMemory};
use lf_recursor::{Local, Opened};
use lf_steps::{Halt, instance, out};
use std::alloc::Global;

/// The greatest number of a variable.
const GREATEST: usize = 4294967294;

/// The body of a binder, opened by the variable of this number: it costs its nodes. Out where no variable has the number.
pub fn opening_at(alloc: Global, units: &mut u64, number: usize, body: &Expr) -> Result<Expr, Halt>
    ensures value { Runs (opens.opening_at number body.now units.old) result units.new }
    ensures calm { Calm result }
{
    if number > GREATEST {
        return Err(out(units));
    }
    let variable = Expr::free(alloc, number as u32)?;
    instance(alloc, units, body, &variable)
}

// The next binder, where one is left to be opened.
fn next_binder(former: Former, n: usize, term: &Expr) -> Option<Binding<'_>>
    ensures front { (xs : Telescope) (k u : ℕ) → opens.onto xs (opens.open_from former n k term.now) u ≡ opens.at_front former xs n k term.now result u }
    ensures within { OnSome result (1 ≤ n) }
{
    if n == 0 {
        return None;
    }
    formed_by(former, term)
}

// Puts at most `n` opened binders of the term behind `locals`, by the variables from `number` on, and gives what is left.
#[tactic(auto, using(lf_steps::proofs::Runs::halts))]
fn open_onto(
    alloc: Global,
    former: Former,
    locals: &mut Vec<Local>,
    units: &mut u64,
    n: usize,
    number: usize,
    term: &Expr,
) -> Result<Expr, Halt>
    ensures value { RunsAs (opens.behind_all locals.new.items) (opens.onto locals.old.items (opens.open_from former n number term.now) units.old) result
        units.new }
    ensures calm { Calm result }
{
    match next_binder(former, n, term) {
        None => Ok(term.copy(alloc)?),
        Some(front) => {
            let local = Local {
                binder: front.binder.copy(alloc)?,
                ty: front.domain.copy(alloc)?,
            };
            locals.push(local)?;
            let body = opening_at(alloc, units, number, front.body)?;
            let next = number.checked_add(1).ok_or(NoMemory)?;
            let rest = open_onto(alloc, former, locals, units, n - 1, next, &body);
            drop(body);
            rest
        }
    }
}

/// At most `n` pis of a term opened, where `context` has the types of the variables so far: each costs the nodes of the
/// body that is made. Out where the units, the depth or the number of variables don't suffice.
#[tactic(auto, using(lf_steps::proofs::Runs::halts, crate::proofs::Opens::open_pis_is))]
pub fn open_pis(
    alloc: Global,
    units: &mut u64,
    n: usize,
    context: &[Expr],
    term: &Expr,
) -> Result<Opened, Halt>
    ensures value { RunsAs opened_of (spec.open_pis n context.now term.now units.old) result units.new }
    ensures calm { Calm result }
{
    let mut locals = Vec::new(alloc);
    let number = context.len();
    let rest = open_onto(alloc, Former::Pi, &mut locals, units, n, number, term)?;
    Ok(Opened { locals, rest })
}

/// The same of lambdas.
#[tactic(auto, using(lf_steps::proofs::Runs::halts, crate::proofs::Opens::open_lambdas_is))]
pub fn open_lambdas(
    alloc: Global,
    units: &mut u64,
    n: usize,
    context: &[Expr],
    term: &Expr,
) -> Result<Opened, Halt>
    ensures value { RunsAs opened_of (spec.open_lambdas n context.now term.now units.old) result units.new }
    ensures calm { Calm result }
{
    let mut locals = Vec::new(alloc);
    let number = context.len();
    let rest = open_onto(alloc, Former::Lambda, &mut locals, units, n, number, term)?;
    Ok(Opened { locals, rest })
}
