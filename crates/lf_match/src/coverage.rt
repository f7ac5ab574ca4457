//! The tests on the alternatives' constructors.
ghost use Rattle.std.specs.Prelude.{◌≡◌, ℕ};
ghost use Rattle.lf_checker.specs.Calls.{see as spec_see};
ghost use Rattle.lf_elaboration.specs.Induction as induction;
ghost use Rattle.lf_equations.specs.Coverage as spec;
ghost use Rattle.lf_equations.specs.Outcome.{unless_fault};
ghost use Rattle.lf_steps.specs.Runs as steps;
ghost use Rattle.lf_match.specs.Compiles.{Compiles, Calm};
ghost use Rattle.lf_match.specs.Parts as parts;

use crate::ended::Ended;
use crate::names::{has_case, is_among};
use lf_core::{Detail, Name};
use lf_env::View;
use lf_equations::{Case, EquationFault};
use lf_steps::{Halt, Seen, need, see};
use std::alloc::Global;

fn fields_by(detail: &Detail) -> Option<u32>
    ensures { result ≡ induction.fields_by detail.now }
{
    match detail {
        Detail::Ctor { fields, .. } => Some(*fields),
        Detail::Plain | Detail::Ind { .. } | Detail::Rec { .. } => None,
    }
}

// The number of fields of the constructor of this name, where the view has one.
fn fields_of(alloc: Global, view: &View, units: &mut u64, name: &Name) -> Result<Option<u32>, Halt>
    ensures value { steps.Runs (induction.fields_seen (spec_see view.now name.now) units.old) result units.new }
    ensures calm { steps.Calm result }
{
    match see(alloc, view, name)? {
        Seen::Known(info) => Ok(fields_by(&info.detail)),
        Seen::Unknown => Ok(None),
        Seen::Missing(key) => Err(need(units, key)),
    }
}

fn has_fields(case: &Case, fields: Option<u32>) -> bool
    ensures { result ≡ spec.has_fields case.now fields }
{
    match fields {
        Some(n) => case.fields.len() == n as usize,
        None => false,
    }
}

// Whether the alternative's constructor is one of these, with as many fields.
#[tactic(auto, using(lf_steps::proofs::Runs::halts))]
fn is_case(
    alloc: Global,
    view: &View,
    units: &mut u64,
    constructors: &[Name],
    case: &Case,
) -> Result<bool, Halt>
    ensures value { steps.Runs (spec.is_case view.now constructors.now case.now units.old) result units.new }
    ensures calm { steps.Calm result }
{
    if !is_among(&case.constructor, constructors) {
        return Ok(false);
    }
    let fields = fields_of(alloc, view, units, &case.constructor)?;
    Ok(has_fields(case, fields))
}

// Nothing, where the alternative is a case.
#[tactic(auto, using(lf_steps::proofs::Runs::halts))]
fn test_case(
    alloc: Global,
    view: &View,
    units: &mut u64,
    constructors: &[Name],
    case: &Case,
) -> Result<(), Ended>
    ensures value { Compiles (parts.test_case view.now constructors.now case.now units.old) result units.new }
    ensures calm { Calm result }
{
    if !is_case(alloc, view, units, constructors, case)? {
        let name = case.constructor.copy(alloc)?;
        return Err(Ended::Fault(EquationFault::NotACase(name)));
    }
    Ok(())
}

/// The second test: each alternative names a constructor of the type, with as many fields as it has.
#[tactic(auto, using(crate::proofs::Alternatives::ends_here, crate::proofs::Alternatives::one_more, crate::proofs::Alternatives::none_left))]
pub fn all_cases(
    alloc: Global,
    view: &View,
    units: &mut u64,
    constructors: &[Name],
    cases: &[Case],
) -> Result<(), Ended>
    ensures value { Compiles (spec.all_cases view.now constructors.now cases.now units.old) result units.new }
    ensures calm { Calm result }
{
    'cases: for case in cases {
        if let Err(end) = test_case(alloc, view, units, constructors, case) {
            return Err(end);
        }
    }
    Ok(())
}

// None names one of `before`, nor one that stands before it.
fn none_behind(alloc: Global, before: &mut Vec<Name>, cases: &[Case]) -> Result<(), Ended>
    ensures value { (u : ℕ) → Compiles (unless_fault (spec.twice_behind before.old.items cases.now) u) result u }
    ensures calm { Calm result }
{
    match cases {
        [] => Ok(()),
        [a, rest @ ..] => {
            let name = a.constructor.copy(alloc)?;
            if is_among(&a.constructor, before.as_slice()) {
                return Err(Ended::Fault(EquationFault::Twice(name)));
            }
            before.insert(0, name)?;
            none_behind(alloc, before, rest)
        }
    }
}

/// The third test: no alternative names a constructor that stands before.
pub fn none_twice(alloc: Global, cases: &[Case]) -> Result<(), Ended>
    ensures value { (u : ℕ) → Compiles (unless_fault (spec.twice cases.now) u) result u }
    ensures calm { Calm result }
{
    let mut before = Vec::new(alloc);
    none_behind(alloc, &mut before, cases)
}

/// The fourth test: each constructor has an alternative.
pub fn none_missing(alloc: Global, constructors: &[Name], cases: &[Case]) -> Result<(), Ended>
    ensures value { (u : ℕ) → Compiles (unless_fault (spec.missing constructors.now cases.now) u) result u }
    ensures calm { Calm result }
{
    match constructors {
        [] => Ok(()),
        [n, ns @ ..] => {
            if !has_case(n, cases) {
                let name = n.copy(alloc)?;
                return Err(Ended::Fault(EquationFault::Missing(name)));
            }
            none_missing(alloc, ns, cases)
        }
    }
}
