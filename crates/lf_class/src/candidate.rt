//! Classes, and what may be tried for a goal.
ghost use Rattle.std.specs.Prelude.{◌≡◌, IfOk, Some};
ghost use Rattle.lf_rules.specs.Recursor as rules;
ghost use Rattle.lf_checker.specs.Calls as calls;
ghost use Rattle.lf_checker.specs.Extends.{shape_of};
ghost use Rattle.lf_checker.specs.Run as run;
ghost use Rattle.lf_elaboration.specs.Unifier as unifier;
ghost use Rattle.lf_resolution.specs.Candidate as candidates;
ghost use Rattle.lf_resolution.specs.Walk as spec;
ghost use Rattle.lf_steps.specs.Runs.{Runs, Calm};
ghost use Rattle.lf_class.specs.Named.{scope};

use crate::search::Search;
use lf_core::{ConstInfo, Expr, Level, Name, NoMemory};
use lf_items::as_constant;
use lf_steps::{Halt, Seen, at_levels, head, need, out, see};
use sqlite_items::Items;
use std::alloc::Global;
use std::marker::Model;

/// A term with its type, in which metavariables of levels stand, numbered from 0: there are so many.
#[derive(Debug, Drop)]
pub struct Candidate {
    pub term: Expr,
    pub ty: Expr,
    pub levels: u32,
}

impl Model for Candidate {
    ghost use Rattle.std.specs.Coded.{codes};
    ghost use Rattle.lf_core.specs.Codes.{coded_term};
    ghost use Rattle.lf_resolution.specs.Candidate.{Candidate as CandidateValue};

    ghost Value = { CandidateValue };

    ghost coded = { Prim.hlevel (codes, coded_term) };

    ghost view = { λ c. record { term = c.term; ty = c.ty; levels = c.levels } };
}

fn is_among(name: &Name, names: &[Name]) -> bool
    ensures { result ≡ rules.is_among name.now names.now }
{
    for other in names {
        if name.is(other) {
            return true;
        }
    }
    false
}

// Whether the view has a constant of this name.
fn is_known(search: Search<'_>, units: &mut u64, name: &Name) -> Result<bool, Halt>
    ensures value { Runs (spec.seen (calls.see search.entry.check.view.now name.now) units.old) result units.new }
    ensures calm { Calm result }
{
    match see(search.check.alloc, search.check.view, name)? {
        Seen::Known(_) => Ok(true),
        Seen::Unknown => Ok(false),
        Seen::Missing(key) => Err(need(units, key)),
    }
}

/// Whether the head of the term, as it stands, is a class. Need where the view doesn't tell that class yet, and NoMemory;
/// no other halt.
pub fn has_class(search: Search<'_>, units: &mut u64, term: &Expr) -> Result<bool, Halt>
    ensures value { Runs (spec.has_class search.entry.check.view.now (scope search.entry.classes.now search.entry.instances.now) term.now units.old) result
        units.new }
    ensures calm { Calm result }
{
    match as_constant(head(term)) {
        None => Ok(false),
        Some(constant) => {
            if !is_among(constant.name, search.classes) {
                return Ok(false);
            }
            is_known(search, units, constant.name)
        }
    }
}

// A candidate that is tried costs a unit.
fn one_unit(units: &mut u64) -> Result<(), Halt>
    ensures value { Runs (run.spend 1 (run.gives tt) units.old) result units.new }
    ensures calm { Calm result }
{
    if *units < 1 {
        return Err(out(units));
    }
    *units -= 1;
    Ok(())
}

/// Whether metavariables of terms or levels stand in the term.
pub fn has_any_metavariable(term: &Expr) -> bool
    ensures { result ≡ unifier.has_any_metavariable term.now }
{
    term.has_metavariable() || term.has_level_metavariable()
}

/// The local of number `local` with its type, where that has a class as head and no metavariable. It costs a unit. Out where
/// there is none, Need where the view doesn't tell the class yet, and NoMemory; no other halt.
#[tactic(auto, using(lf_steps::proofs::Runs::halts))]
pub fn local_candidate(
    search: Search<'_>,
    units: &mut u64,
    local: u32,
    ty: &Expr,
) -> Result<Option<Candidate>, Halt>
    ensures value { Runs (spec.local_at search.entry.check.view.now (scope search.entry.classes.now search.entry.instances.now) local (Some ty.now) units.old)
        result units.new }
    ensures calm { Calm result }
{
    if !has_class(search, units, ty)? || has_any_metavariable(ty) {
        return Ok(None);
    }
    one_unit(units)?;
    let alloc = search.check.alloc;
    Ok(Some(Candidate {
        term: Expr::free(alloc, local)?,
        ty: ty.copy(alloc)?,
        levels: 0,
    }))
}

// So many metavariables of levels, numbered from 0.
#[tactic(auto, using(crate::proofs::Levels::one_level))]
fn level_metas(alloc: Global, count: u32) -> Result<Items<Level>, NoMemory>
    ensures { IfOk result (λ all. all ≡ candidates.level_metas 0 count) }
{
    let mut all = Items::new(alloc);
    let mut number = 0u32;
    'levels: while number < count {
        all.push(Level::meta(alloc, number)?)?;
        number += 1;
    }
    Ok(all)
}

// The constant with fresh metavariables for its levels. It costs a unit, and its type its nodes.
#[tactic(auto, using(lf_steps::proofs::Runs::halts))]
fn constant_candidate(
    alloc: Global,
    units: &mut u64,
    name: &Name,
    info: &ConstInfo,
) -> Result<Option<Candidate>, Halt>
    ensures value { Runs (spec.tried_constant (candidates.at_fresh_levels name.now (shape_of info.now)) units.old) result units.new }
    ensures calm { Calm result }
{
    one_unit(units)?;
    let count = u32::try_from(info.levels.len()).map_err(|_| NoMemory)?;
    let levels = level_metas(alloc, count)?;
    let ty = at_levels(alloc, units, levels.as_slice(), &info.ty)?;
    let term = Expr::constant(alloc, name.copy(alloc)?, levels)?;
    Ok(Some(Candidate {
        term,
        ty,
        levels: count,
    }))
}

/// The instance of this name with fresh metavariables for its levels, where the view has it. It costs a unit, and its type its
/// nodes. Out where there aren't so many or the type is too deep, Need where the view doesn't tell the name yet, and NoMemory;
/// no other halt.
#[tactic(auto, using(lf_steps::proofs::Runs::halts))]
pub fn instance_candidate(
    search: Search<'_>,
    units: &mut u64,
    name: &Name,
) -> Result<Option<Candidate>, Halt>
    ensures value { Runs (spec.instance_seen name.now (calls.see search.entry.check.view.now name.now) units.old) result units.new }
    ensures calm { Calm result }
{
    match see(search.check.alloc, search.check.view, name)? {
        Seen::Known(info) => constant_candidate(search.check.alloc, units, name, info),
        Seen::Unknown => Ok(None),
        Seen::Missing(key) => Err(need(units, key)),
    }
}
