//! The calls: definitions by equations as terms.
ghost use Rattle.std.specs.Prelude.{◌≡◌, ◌≤◌};
ghost use Rattle.lf_checker.specs.Checker.{calls};
ghost use Rattle.lf_match.specs.Parts as parts;
ghost use Rattle.lf_equations.specs.Argument as arguments;
ghost use Rattle.lf_equations.specs.Compile as spec;
ghost use Rattle.lf_steps.specs.Runs as steps;
ghost use Rattle.lf_steps.specs.Runs.{RunsAs};
ghost use Rattle.lf_check.specs.Answers.{Answers, StopsOnly};
ghost use Rattle.lf_match.specs.Compiles.{Compiles, CompilesAs, Rose, Calm};
ghost use Rattle.lf_match.specs.Values.{argument_of, outcome_of, answer_map};

use crate::argument::{Argument, find_argument};
use crate::coverage::{all_cases, none_missing, none_twice};
use crate::ended::{Ended, settled};
use crate::minors::minors;
use crate::recursor::{motive, recursion, type_at_motive, whole_telescope};
use lf_base::Stop;
use lf_check::{CheckCx, Cx, ended};
use lf_checker::TypeFault;
use lf_core::{Ans, Expr};
use lf_equations::{Case, EquationFault};
use lf_steps::{Halt, out};
use lf_telescope::lambdas_closed;
use std::alloc::Global;

// The term that passes all tests, in their order.
#[tactic(auto, using(lf_steps::proofs::Runs::halts, crate::proofs::Ends::step_ends))]
fn compile_body<P: Stop>(
    cx: Cx<'_>,
    units: &mut u64,
    stop: &mut P,
    ty: &Expr,
    n: usize,
    cases: &[Case],
) -> Result<Expr, Ended>
    ensures value { Compiles (spec.compile_body cx.entry.view.now (calls cx.entry.view.now cx.entry.depth) ty.now n cases.now units.old) result units.new }
    ensures count { P.stops stop.old ≤ P.stops stop.new }
    ensures rose { Rose result (P.stops stop.old) (P.stops stop.new) }
{
    let argument = find_argument(cx, units, stop, n, ty)?;
    let constructors = argument.ind.constructors.as_slice();
    all_cases(cx.alloc, cx.view, units, constructors, cases)?;
    none_twice(cx.alloc, cases)?;
    none_missing(cx.alloc, constructors, cases)?;
    recursion_of(cx, units, &argument, ty, cases)
}

// The recursion over this argument, where each alternative is structural.
#[tactic(auto, using(lf_steps::proofs::Runs::halts, crate::proofs::Ends::step_ends))]
fn recursion_of(
    cx: Cx<'_>,
    units: &mut u64,
    argument: &Argument,
    ty: &Expr,
    cases: &[Case],
) -> Result<Expr, Ended>
    ensures value { Compiles (parts.recursion_of cx.entry.view.now (argument_of argument.now) ty.now cases.now units.old) result units.new }
    ensures calm { Calm result }
{
    let alloc = cx.alloc;
    let motive = motive(alloc, argument)?;
    let left = type_at_motive(alloc, cx.view, units, argument, &motive)?;
    let made = minors(alloc, units, argument, ty, &motive, &left, cases)?;
    let body = recursion(alloc, argument, &motive, made.as_slice())?;
    let binders = whole_telescope(alloc, argument)?;
    Ok(lambdas_closed(alloc, units, 0, binders.as_slice(), body)?)
}

// A unit for the call.
fn spend(units: &mut u64) -> Result<(), Halt>
    ensures value { steps.Runs (parts.spend_one units.old) result units.new }
    ensures calm { steps.Calm result }
{
    if *units < 1 {
        return Err(out(units));
    }
    *units -= 1;
    Ok(())
}

#[tactic(auto, using(crate::proofs::Ends::spends))]
fn compile_spent<P: Stop>(
    cx: Cx<'_>,
    units: &mut u64,
    stop: &mut P,
    ty: &Expr,
    n: usize,
    cases: &[Case],
) -> Result<Expr, Ended>
    ensures value { CompilesAs (λ t. t) (spec.compile cx.entry.view.now cx.entry.depth ty.now n cases.now units.old) result units.new }
    ensures count { P.stops stop.old ≤ P.stops stop.new }
    ensures rose { Rose result (P.stops stop.old) (P.stops stop.new) }
{
    spend(units)?;
    compile_body(cx, units, stop, ty, n, cases)
}

/// The term that alternatives make of a definition with `n` binders and this stated type (docs/language.md, Definitions by
/// equations), or the fault of the first test that they don't pass, within a run. It costs a unit, and each term that is
/// made its nodes. Out where units, nesting or depth don't suffice, Need where the view doesn't tell yet. `NoMemory` also
/// where an alternative's term is deeper than 2,048.
#[tactic(auto, using(crate::proofs::Ends::settled_runs, crate::proofs::Ends::settled_rose))]
pub fn compile_within<P: Stop>(
    cx: Cx<'_>,
    units: &mut u64,
    stop: &mut P,
    ty: &Expr,
    n: usize,
    cases: &[Case],
) -> Result<Result<Expr, EquationFault>, Halt>
    ensures value { RunsAs (outcome_of (λ t. t)) (spec.compile cx.entry.view.now cx.entry.depth ty.now n cases.now units.old) result units.new }
    ensures count { P.stops stop.old ≤ P.stops stop.new }
    ensures rose { steps.Rose result (P.stops stop.old) (P.stops stop.new) }
{
    settled(compile_spent(cx, units, stop, ty, n, cases))
}

/// The argument of such a definition, or the fault of the first test, within a run: what the terms of its alternatives are
/// elaborated against.
#[tactic(auto, using(crate::proofs::Ends::settled_runs, crate::proofs::Ends::settled_rose))]
pub fn argument_within<P: Stop>(
    cx: Cx<'_>,
    units: &mut u64,
    stop: &mut P,
    n: usize,
    ty: &Expr,
) -> Result<Result<Argument, EquationFault>, Halt>
    ensures value { RunsAs (outcome_of argument_of) (arguments.argument cx.entry.view.now (calls cx.entry.view.now cx.entry.depth) n ty.now units.old) result
        units.new }
    ensures count { P.stops stop.old ≤ P.stops stop.new }
    ensures rose { steps.Rose result (P.stops stop.old) (P.stops stop.new) }
{
    settled(find_argument(cx, units, stop, n, ty))
}

/// The same as `compile_within`, over a view, a context, a budget and a stop; the context isn't read, and is as before.
/// Done with the term or the fault, with the units that the definition leaves; Out and Need exactly where it is; Stopped only
/// where the count of stops rose; or NoMemory. After all but Done and Refused no units are left.
#[tactic(auto, using(lf_check::proofs::Ends::ends_answers))]
pub fn compile<P: Stop>(
    alloc: Global,
    cx: &mut CheckCx<'_, P>,
    ty: &Expr,
    n: usize,
    cases: &[Case],
) -> Ans<Result<Expr, EquationFault>, TypeFault>
    ensures value { Answers (spec.compile cx.old.view.now cx.old.budget.depth ty.now n cases.now cx.old.budget.units)
        (answer_map (outcome_of (λ t. t)) result) cx.new.budget.units cx.new.opened.items }
    ensures kept { cx.new.locals.items ≡ cx.old.locals.items }
    ensures nesting { cx.new.budget.depth ≡ cx.old.budget.depth }
    ensures count { P.stops cx.old.stop.now ≤ P.stops cx.new.stop.now }
    ensures stops { StopsOnly result (P.stops cx.old.stop.now) (P.stops cx.new.stop.now) }
{
    let inner = Cx {
        alloc,
        view: cx.view,
        depth: cx.budget.depth,
    };
    let mut left = cx.budget.units;
    let given = compile_within(inner, &mut left, cx.stop, ty, n, cases);
    cx.budget.units = 0;
    cx.opened = Vec::new(alloc);
    match given {
        Ok(made) => {
            cx.budget.units = left;
            Ans::Done(made)
        }
        Err(halt) => ended(&mut cx.opened, &mut cx.budget.units, halt, left),
    }
}
