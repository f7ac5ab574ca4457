//! The recursor of the argument's type, at levels, parameters and motive.
ghost use Rattle.std.specs.Prelude.{◌≡◌, ◌++◌, ◌∷◌, [], IfOk, OnOk};
ghost use Rattle.lf_checker.specs.Calls.{see as spec_see};
ghost use Rattle.lf_elaboration.specs.Induction as induction;
ghost use Rattle.lf_equations.specs.Compile as spec;
ghost use Rattle.lf_steps.specs.Runs as steps;
ghost use Rattle.lf_match.specs.Compiles.{Compiles, Calm};
ghost use Rattle.lf_match.specs.Values.{argument_of};

use crate::argument::Argument;
use crate::ended::Ended;
use crate::hypotheses::push_locals;
use crate::minors::{Minor, push_in_order};
use lf_core::{Expr, Level, Name, NoMemory};
use lf_env::View;
use lf_equations::EquationFault;
use lf_steps::{Halt, Seen, apply, at_levels, instance, need, see};
use lf_telescope::{Local, as_pi};
use sqlite_items::Items;
use std::alloc::Global;

/// The motive: the codomain under its binder.
pub fn motive(alloc: Global, argument: &Argument) -> Result<Expr, NoMemory>
    ensures { IfOk result (λ t. t ≡ spec.motive (argument_of argument.now)) }
{
    Expr::lam(
        alloc,
        argument.binder.copy(alloc)?,
        argument.domain.copy(alloc)?,
        argument.codomain.copy(alloc)?,
    )
}

// Puts the levels behind `all`.
fn push_levels(alloc: Global, all: &mut Items<Level>, levels: &[Level]) -> Result<(), NoMemory>
    ensures { OnOk result (all.new ≡ all.old ++ levels.now) }
{
    match levels {
        [] => Ok(()),
        [l, ls @ ..] => {
            all.push(l.copy(alloc)?)?;
            push_levels(alloc, all, ls)
        }
    }
}

// The levels that the recursor is taken at.
fn recursor_levels(alloc: Global, argument: &Argument) -> Result<Items<Level>, NoMemory>
    ensures { IfOk result (λ ls. ls ≡ spec.recursor_levels (argument_of argument.now)) }
{
    let mut all = Items::new(alloc);
    if argument.ind.large {
        all.push(argument.level.copy(alloc)?)?;
    }
    push_levels(alloc, &mut all, argument.ind.levels.as_slice())?;
    Ok(all)
}

fn recursor_name(alloc: Global, argument: &Argument) -> Result<Name, NoMemory>
    ensures { IfOk result (λ n. n ≡ induction.recursor_path (argument_of argument.now).ind.name) }
{
    argument.ind.name.child(alloc, "rec")
}

// What is left of a type of pis at these arguments.
#[tactic(auto, using(lf_steps::proofs::Runs::halts))]
fn codomain_at(
    alloc: Global,
    units: &mut u64,
    arguments: &[Expr],
    ty: &Expr,
) -> Result<Option<Expr>, Halt>
    ensures value { steps.Runs (induction.codomain_at arguments.now ty.now units.old) result units.new }
    ensures calm { steps.Calm result }
{
    match arguments {
        [] => Ok(Some(ty.copy(alloc)?)),
        [x, rest @ ..] => match as_pi(ty) {
            None => Ok(None),
            Some(front) => {
                let body = instance(alloc, units, front.body, x)?;
                let codomain = codomain_at(alloc, units, rest, &body);
                drop(body);
                codomain
            }
        },
    }
}

// Puts these terms behind `all`.
fn push_terms(all: &mut Vec<Expr>, terms: &[Expr]) -> Result<(), NoMemory>
    ensures { OnOk result (all.new.items ≡ all.old.items ++ terms.now) }
{
    let alloc = *all.allocator();
    match terms {
        [] => Ok(()),
        [x, xs @ ..] => {
            all.push(x.copy(alloc)?)?;
            push_terms(all, xs)
        }
    }
}

// The parameters, and then the motive.
fn parameters_and_motive(
    alloc: Global,
    argument: &Argument,
    motive: &Expr,
) -> Result<Vec<Expr>, NoMemory>
    ensures { IfOk result (λ v. v.items ≡ (argument_of argument.now).ind.params ++ motive.now ∷ []) }
{
    let mut all = Vec::new(alloc);
    push_terms(&mut all, argument.ind.params.as_slice())?;
    all.push(motive.copy(alloc)?)?;
    Ok(all)
}

// The type of the recursor, as far as the view tells it.
#[tactic(auto, using(lf_steps::proofs::Runs::halts))]
fn type_seen(
    alloc: Global,
    view: &View,
    units: &mut u64,
    argument: &Argument,
    motive: &Expr,
) -> Result<Option<Expr>, Halt>
    requires { motive.now ≡ spec.motive (argument_of argument.now) }
    ensures value { steps.Runs (spec.type_seen (argument_of argument.now) (spec_see view.now (induction.recursor_path (argument_of argument.now).ind.name))
        units.old) result units.new }
    ensures calm { steps.Calm result }
{
    let name = recursor_name(alloc, argument)?;
    match see(alloc, view, &name)? {
        Seen::Known(info) => {
            let levels = recursor_levels(alloc, argument)?;
            let ty = at_levels(alloc, units, levels.as_slice(), &info.ty)?;
            let given = parameters_and_motive(alloc, argument, motive)?;
            codomain_at(alloc, units, given.as_slice(), &ty)
        }
        Seen::Unknown => Ok(None),
        Seen::Missing(key) => Err(need(units, key)),
    }
}

/// What is left of the recursor's type at the parameters and the motive: pis over the minor premises come first.
#[tactic(auto, using(lf_steps::proofs::Runs::halts, crate::proofs::Premises::type_is))]
pub fn type_at_motive(
    alloc: Global,
    view: &View,
    units: &mut u64,
    argument: &Argument,
    motive: &Expr,
) -> Result<Expr, Ended>
    requires { motive.now ≡ spec.motive (argument_of argument.now) }
    ensures value { Compiles (spec.type_at_motive view.now (argument_of argument.now) units.old) result units.new }
    ensures calm { Calm result }
{
    match type_seen(alloc, view, units, argument, motive)? {
        Some(ty) => Ok(ty),
        None => Err(Ended::Fault(EquationFault::NotInductive)),
    }
}

// The recursor at its levels.
fn recursor(alloc: Global, argument: &Argument) -> Result<Expr, NoMemory>
    ensures { IfOk result (λ t. t ≡ spec.recursor (argument_of argument.now)) }
{
    let name = recursor_name(alloc, argument)?;
    let levels = recursor_levels(alloc, argument)?;
    Expr::constant(alloc, name, levels)
}

/// The recursor at the parameters, the motive, these minor premises in the order of the constructors, and the argument.
pub fn recursion(
    alloc: Global,
    argument: &Argument,
    motive: &Expr,
    minors: &[Minor],
) -> Result<Expr, NoMemory>
    requires { motive.now ≡ spec.motive (argument_of argument.now) }
    ensures { IfOk result (λ t. t ≡ spec.recursion (argument_of argument.now) (spec.in_order (argument_of argument.now).ind.constructors minors.now)) }
{
    let mut given = parameters_and_motive(alloc, argument, motive)?;
    push_in_order(&mut given, argument.ind.constructors.as_slice(), minors)?;
    let number = u32::try_from(argument.binders.len()).map_err(|_| NoMemory)?;
    given.push(Expr::free(alloc, number)?)?;
    apply(alloc, recursor(alloc, argument)?, given.as_slice())
}

/// The definition's binders, and then the argument's.
pub fn whole_telescope(alloc: Global, argument: &Argument) -> Result<Vec<Local>, NoMemory>
    ensures { IfOk result (λ v. v.items ≡ spec.whole_telescope (argument_of argument.now)) }
{
    let mut all = Vec::new(alloc);
    push_locals(&mut all, argument.binders.as_slice())?;
    let binder = argument.binder.copy(alloc)?;
    let ty = argument.domain.copy(alloc)?;
    all.push(Local { binder, ty })?;
    Ok(all)
}
