//! The functions that give the fields of a constructor.
ghost use Rattle.std.specs.Prelude.{◌≡◌, ◌++◌, ◌∷◌, [], Some, None, codes, option_map, IfOk, OnOk, length, nat_eq, if◌then◌else◌};
ghost use Rattle.lf_checker.specs.Extends.{shape_of};
ghost use Rattle.lf_elaboration.specs.Forms.{as_pi};
ghost use Rattle.lf_checker.specs.Calls as checker;
ghost use Rattle.lf_core.specs.Spine as spine;
ghost use Rattle.lf_core.specs.Term.{const, bound};
ghost use Rattle.lf_elaboration.specs.Induction as induction;
ghost use Rattle.lf_elaboration.specs.Injectivity as spec;
ghost use Rattle.lf_steps.specs.Runs.{Runs, RunsAs, Calm};
ghost use Rattle.lf_steps.specs.Values as steps;
ghost use Rattle.lf_injectivity.specs.Values.{sides, recursor};

use crate::opening::{Field, Sides};
use crate::terms::push_terms;
use lf_core::{ConstInfo, Detail, Expr, Level, Name, NoMemory, copy_all};
use lf_env::View;
use lf_items::{as_pi, codomain_at, lambdas_like, recursor_path};
use lf_recursor::pi_count;
use lf_steps::{Halt, Seen, apply, at_levels, instance, need, put, see};
use sqlite_items::Items;
use std::alloc::Global;

/// The recursor at levels, its type, and how many minor premises it has.
#[derive(Debug, Drop)]
pub struct RecursorSeen {
    pub levels: Items<Level>,
    pub ty: Expr,
    pub minors: u32,
}

// The minor premise of the constructor itself, which gives field i; and else that of another, which gives the term.
fn minor_for(alloc: Global, own: bool, i: u32, term: &Expr, minor: &Expr) -> Result<Expr, NoMemory>
    ensures { IfOk result (λ t. t ≡ spec.minor_for own i term.now minor.now) }
{
    if own {
        let pis = pi_count(minor).ok_or(NoMemory)?;
        let next = i.checked_add(1).ok_or(NoMemory)?;
        let variable = Expr::bound(alloc, pis.saturating_sub(next))?;
        return lambdas_like(alloc, minor, variable);
    }
    lambdas_like(alloc, minor, term.copy(alloc)?)
}

// Puts at most `n` minor premises behind `all`, of which the first has the place `j`.
fn push_minors(
    all: &mut Vec<Expr>,
    n: u32,
    index: u32,
    i: u32,
    term: &Expr,
    j: u32,
    ty: &Expr,
) -> Result<(), NoMemory>
    ensures { OnOk result (all.new.items ≡ all.old.items ++ spec.minors_for n index i term.now j ty.now) }
{
    let alloc = *all.allocator();
    if n == 0 {
        return Ok(());
    }
    match as_pi(ty) {
        None => Ok(()),
        Some(front) => {
            let minor = minor_for(alloc, j == index, i, term, front.domain)?;
            all.push(minor)?;
            if j == u32::MAX {
                return Err(NoMemory);
            }
            push_minors(all, n - 1, index, i, term, j + 1, front.body)?;
            Ok(())
        }
    }
}

// Puts copies of these levels behind `all`.
fn push_levels(alloc: Global, all: &mut Items<Level>, levels: &[Level]) -> Result<(), NoMemory>
    ensures { OnOk result (all.new ≡ all.old ++ levels.now) }
{
    match levels {
        [] => Ok(()),
        [l, ls @ ..] => {
            all.push(l.copy(alloc)?)?;
            push_levels(alloc, all, ls)
        }
    }
}

// The levels of the recursor: those of the type, and before them that of the field where it has one for its motive.
fn recursor_levels(
    alloc: Global,
    s: &Sides,
    level: &Level,
    names: &[Name],
) -> Result<Items<Level>, NoMemory>
    ensures { IfOk result (λ ls. ls ≡ (if nat_eq (length names.now) (length s.now.levels) then s.now.levels else level.now ∷ s.now.levels)) }
{
    if names.len() == s.levels.len() {
        return copy_all(alloc, s.levels.as_slice());
    }
    let mut all = Items::new(alloc);
    all.push(level.copy(alloc)?)?;
    push_levels(alloc, &mut all, s.levels.as_slice())?;
    Ok(all)
}

// The recursor at the level of a field.
fn recursor_by(
    alloc: Global,
    s: &Sides,
    level: &Level,
    info: &ConstInfo,
) -> Result<Option<RecursorSeen>, NoMemory>
    ensures { IfOk result (λ r. option_map recursor r ≡ spec.recursor_by (sides s.now) level.now (shape_of info.now) info.now.detail) }
{
    match &info.detail {
        Detail::Rec { minors, .. } => Ok(Some(RecursorSeen {
            levels: recursor_levels(alloc, s, level, info.levels.as_slice())?,
            ty: info.ty.copy(alloc)?,
            minors: *minors,
        })),
        Detail::Plain | Detail::Ind { .. } | Detail::Ctor { .. } => Ok(None),
    }
}

// The same of what the view tells; Need where it has to be made first.
fn recursor_seen(
    alloc: Global,
    units: &mut u64,
    s: &Sides,
    level: &Level,
    seen: Seen<'_>,
) -> Result<Option<RecursorSeen>, Halt>
    ensures value { RunsAs (option_map recursor) (spec.recursor_seen (sides s.now) level.now (steps.seen seen.entry) units.old) result units.new }
    ensures calm { Calm result }
{
    match seen {
        Seen::Known(info) => Ok(recursor_by(alloc, s, level, info)?),
        Seen::Unknown => Ok(None),
        Seen::Missing(key) => Err(need(units, key)),
    }
}

// The recursor at the parameters, the motive, the minor premises and the indices.
fn selecting(
    alloc: Global,
    s: &Sides,
    i: u32,
    f: &Field,
    r: &RecursorSeen,
    motive: Expr,
    ty: &Expr,
) -> Result<Expr, NoMemory>
    ensures { IfOk result (λ t. t ≡ spine.apply (const (induction.recursor_path s.now.ind) r.now.levels)
        (s.now.params.items ++ (motive ∷ spec.minors_for r.now.minors s.now.index i f.now.left 0 ty.now ++ s.now.indices.items))) }
{
    let name = recursor_path(alloc, &s.ind)?;
    let levels = copy_all(alloc, r.levels.as_slice())?;
    let constant = Expr::constant(alloc, name, levels)?;
    let mut all = Vec::new(alloc);
    push_terms(&mut all, s.params.as_slice())?;
    all.push(motive)?;
    push_minors(&mut all, r.minors, s.index, i, &f.left, 0, ty)?;
    push_terms(&mut all, s.indices.as_slice())?;
    apply(alloc, constant, all.as_slice())
}

// The function with a constant motive, where the recursor's type at the parameters is this.
#[tactic(auto, using(lf_steps::proofs::Runs::halts))]
fn at_constant_motive(
    alloc: Global,
    units: &mut u64,
    s: &Sides,
    i: u32,
    f: &Field,
    r: &RecursorSeen,
    ty: &Expr,
) -> Result<Option<Expr>, Halt>
    ensures value { Runs (spec.at_constant_motive (sides s.now) i f.now (recursor r.now) (as_pi ty.now) units.old) result units.new }
    ensures calm { Calm result }
{
    match as_pi(ty) {
        None => Ok(None),
        Some(front) => {
            let motive = lambdas_like(alloc, front.domain, f.ty.copy(alloc)?)?;
            let motive = put(units, motive)?;
            let rest = instance(alloc, units, front.body, &motive)?;
            let whole = selecting(alloc, s, i, f, r, motive, &rest)?;
            Ok(Some(whole))
        }
    }
}

#[tactic(auto, using(lf_steps::proofs::Runs::halts))]
fn selector_by(
    alloc: Global,
    units: &mut u64,
    s: &Sides,
    i: u32,
    f: &Field,
    r: &RecursorSeen,
) -> Result<Option<Expr>, Halt>
    ensures value { Runs (spec.selector_by (sides s.now) i f.now (Some (recursor r.now)) units.old) result units.new }
    ensures calm { Calm result }
{
    let ty = at_levels(alloc, units, r.levels.as_slice(), &r.ty)?;
    let behind = codomain_at(alloc, units, s.params.as_slice(), &ty)?;
    match behind {
        None => Ok(None),
        Some(behind) => at_constant_motive(alloc, units, s, i, f, r, &behind),
    }
}

/// The function that gives field i: the recursor with a constant motive, whose other minor premises give the first side's
/// field. `None` where there is no such recursor. Out, and Need, where the definition is.
#[tactic(auto, using(lf_steps::proofs::Runs::halts))]
pub fn selector(
    alloc: Global,
    view: &View,
    units: &mut u64,
    s: &Sides,
    i: u32,
    f: &Field,
) -> Result<Option<Expr>, Halt>
    ensures value { Runs (spec.selector view.now (sides s.now) i f.now units.old) result units.new }
    ensures calm { Calm result }
{
    let name = recursor_path(alloc, &s.ind)?;
    let seen = see(alloc, view, &name)?;
    let recursor = recursor_seen(alloc, units, s, &f.level, seen)?;
    match recursor {
        None => Ok(None),
        Some(recursor) => selector_by(alloc, units, s, i, f, &recursor),
    }
}
