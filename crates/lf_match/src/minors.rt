//! The minor premises of a definition by equations.
ghost use Rattle.std.specs.Prelude.{◌≡◌, ◌++◌, ◌∷◌, [], option_map, OnOk};
ghost use Rattle.lf_rules.specs.Telescope as telescope;
ghost use Rattle.lf_equations.specs.Compile as spec;
ghost use Rattle.lf_elaboration.specs.Forms as forms;
ghost use Rattle.lf_match.specs.Compiles.{Compiles, CompilesAs, Calm};
ghost use Rattle.lf_match.specs.Parts as parts;
ghost use Rattle.lf_match.specs.Values.{argument_of};

use crate::argument::Argument;
use crate::ended::Ended;
use crate::hypotheses::minor;
use lf_core::{Expr, Name, NoMemory};
use lf_equations::{Case, EquationFault};
use lf_telescope::{as_pi, types};
use std::alloc::Global;
use std::marker::Model;

/// The minor premise of a constructor.
#[derive(Debug, Drop)]
pub struct Minor {
    pub constructor: Name,
    pub term: Expr,
}

impl Model for Minor {
    ghost use Rattle.std.specs.Coded.{codes};
    ghost use Rattle.lf_core.specs.Codes.{coded_term};
    ghost use Rattle.lf_equations.specs.Compile.{Minor as MinorValue};

    ghost Value = { MinorValue };

    ghost coded = { Prim.hlevel (codes, coded_term) };

    ghost view = { λ m. record { constructor = m.constructor; term = m.term } };
}

// The type of the minor premise of the constructor of this name, where pis over those of these constructors come first.
fn type_of_minor<'a>(constructors: &[Name], name: &Name, ty: &'a Expr) -> Option<&'a Expr>
    ensures { option_map (λ t. t.now) result ≡ spec.type_of_minor constructors.now name.now (forms.as_pi ty.now) }
{
    match constructors {
        [] => None,
        [c, cs @ ..] => {
            let front = as_pi(ty)?;
            if c.is(name) {
                return Some(front.domain);
            }
            type_of_minor(cs, name, front.body)
        }
    }
}

// The term of the minor premise of one alternative.
fn term_of(
    alloc: Global,
    units: &mut u64,
    argument: &Argument,
    ty: &Expr,
    context: &[Expr],
    motive: &Expr,
    left: &Expr,
    case: &Case,
) -> Result<Expr, Ended>
    requires context { context.now ≡ telescope.types argument.now.binders.items ++ ty.now ∷ [] }
    requires motive { motive.now ≡ spec.motive (argument_of argument.now) }
    ensures value { Compiles (parts.term_of ty.now (argument_of argument.now) left.now case.now units.old) result units.new }
    ensures calm { Calm result }
{
    let constructors = argument.ind.constructors.as_slice();
    match type_of_minor(constructors, &case.constructor, left) {
        None => Err(Ended::Fault(EquationFault::NotInductive)),
        Some(premise) => {
            let binders = argument.binders.as_slice();
            minor(alloc, units, binders, ty, context, motive, premise, case)
        }
    }
}

// The minor premise of one alternative.
#[tactic(auto, using(crate::proofs::Ends::step_ends))]
fn minor_of(
    alloc: Global,
    units: &mut u64,
    argument: &Argument,
    ty: &Expr,
    context: &[Expr],
    motive: &Expr,
    left: &Expr,
    case: &Case,
) -> Result<Minor, Ended>
    requires context { context.now ≡ telescope.types argument.now.binders.items ++ ty.now ∷ [] }
    requires motive { motive.now ≡ spec.motive (argument_of argument.now) }
    ensures value { CompilesAs (λ m. m) (parts.minor_of ty.now (argument_of argument.now) left.now case.now units.old) result units.new }
    ensures calm { Calm result }
{
    let term = term_of(alloc, units, argument, ty, context, motive, left, case)?;
    let constructor = case.constructor.copy(alloc)?;
    Ok(Minor { constructor, term })
}

// Puts the minor premises of the alternatives behind `all`.
#[tactic(auto, using(crate::proofs::Ends::step_ends, crate::proofs::Premises::one_more, crate::proofs::Premises::none_left))]
fn push_minors(
    alloc: Global,
    all: &mut Vec<Minor>,
    units: &mut u64,
    argument: &Argument,
    ty: &Expr,
    context: &[Expr],
    motive: &Expr,
    left: &Expr,
    cases: &[Case],
) -> Result<(), Ended>
    requires context { context.now ≡ telescope.types argument.now.binders.items ++ ty.now ∷ [] }
    requires motive { motive.now ≡ spec.motive (argument_of argument.now) }
    ensures value { CompilesAs (λ _. all.new.items) (parts.onto all.old.items (spec.minors ty.now (argument_of argument.now) left.now cases.now) units.old)
        result units.new }
    ensures calm { Calm result }
{
    match cases {
        [] => Ok(()),
        [a, rest @ ..] => {
            let minor = minor_of(alloc, units, argument, ty, context, motive, left, a)?;
            all.push(minor)?;
            push_minors(alloc, all, units, argument, ty, context, motive, left, rest)?;
            Ok(())
        }
    }
}

/// The minor premises in the order of the alternatives, with the last test of each. `left` is what is left of the
/// recursor's type at the motive.
#[tactic(auto, using(crate::proofs::Premises::from_none))]
pub fn minors(
    alloc: Global,
    units: &mut u64,
    argument: &Argument,
    ty: &Expr,
    motive: &Expr,
    left: &Expr,
    cases: &[Case],
) -> Result<Vec<Minor>, Ended>
    requires motive { motive.now ≡ spec.motive (argument_of argument.now) }
    ensures value { CompilesAs (λ v. v.items) (spec.minors ty.now (argument_of argument.now) left.now cases.now units.old) result units.new }
    ensures calm { Calm result }
{
    let mut context = types(alloc, argument.binders.as_slice())?;
    context.push(ty.copy(alloc)?)?;
    let mut all = Vec::new(alloc);
    let at = context.as_slice();
    push_minors(
        alloc, &mut all, units, argument, ty, at, motive, left, cases,
    )?;
    Ok(all)
}

// Puts the minor premise of the constructor of this name behind `all`, where there is one.
fn push_minor_for(all: &mut Vec<Expr>, name: &Name, minors: &[Minor]) -> Result<(), NoMemory>
    ensures { OnOk result (all.new.items ≡ all.old.items ++ spec.minors_for name.now minors.now) }
{
    let alloc = *all.allocator();
    match minors {
        [] => Ok(()),
        [m, ms @ ..] => {
            if m.constructor.is(name) {
                all.push(m.term.copy(alloc)?)?;
                return Ok(());
            }
            push_minor_for(all, name, ms)
        }
    }
}

/// Puts the minor premises behind `all` in the order of the constructors.
pub fn push_in_order(
    all: &mut Vec<Expr>,
    constructors: &[Name],
    minors: &[Minor],
) -> Result<(), NoMemory>
    ensures { OnOk result (all.new.items ≡ all.old.items ++ spec.in_order constructors.now minors.now) }
{
    match constructors {
        [] => Ok(()),
        [n, ns @ ..] => {
            push_minor_for(all, n, minors)?;
            push_in_order(all, ns, minors)
        }
    }
}
