//! Recursors: their arguments, and the rule of the constructor that heads the major premise.
ghost use Rattle.std.specs.Prelude.{◌≡◌, option_map, slice_get, take, drop};
ghost use Rattle.lf_core.specs.Spine as terms;
ghost use Rattle.std.specs.Option.{option_copied};
ghost use Rattle.lf_core.specs.Substitution.{level_instantiate};
ghost use Rattle.lf_checker.specs.Calls as calls;
ghost use Rattle.lf_checker.specs.Run as run;
ghost use Rattle.lf_checker.specs.Whnf as spec;
ghost use Rattle.lf_steps.specs.Runs.{Runs, RunsAs, Calm, Within};
ghost use Rattle.lf_steps.specs.Steps as steps;
ghost use Rattle.lf_steps.specs.Values as values;

use crate::halt::{Halt, need, out};
use crate::levels::is_prop_level;
use crate::meter::paid;
use crate::seen::{Seen, see};
use crate::spine::{apply, arguments, head};
use lf_core::{ConstInfo, Detail, Expr, ExprNode, Level, Name};
use lf_env::View;
use lf_subst::{SubstFault, level_inst};
use sqlite_items::at as item_at;
use std::alloc::Global;

/// How a turn at the head of a term ends: no rule applies; the term goes on as this one; or it ends as this one.
#[derive(Debug, Drop)]
pub enum Progress {
    Stays,
    Next(Expr),
    Ends(Expr),
}

/// What a recursor is declared with: its type, the numbers of parameters, minor premises and indices, and its rules.
#[derive(Clone, Copy)]
pub struct Recursor<'a> {
    pub ind: &'a Name,
    pub params: u32,
    pub minors: u32,
    pub indices: u32,
    pub rules: &'a [Expr],
}

/// The arguments of a recursor round its major premise.
#[derive(Clone, Copy)]
pub struct Split<'a> {
    pub before: &'a [Expr],
    pub major: &'a Expr,
    pub after: &'a [Expr],
}

fn taken(count: usize, terms: &[Expr]) -> &[Expr]
    ensures { result.now ≡ take count terms.now }
{
    &terms[..count.min(terms.len())]
}

fn dropped(count: usize, terms: &[Expr]) -> &[Expr]
    ensures { result.now ≡ drop count terms.now }
{
    &terms[count.min(terms.len())..]
}

#[tactic(auto, using(crate::proofs::Splits::split_is, crate::proofs::Splits::split_none))]
/// The arguments round the one of this number, where there are so many.
pub fn split_spine(at: usize, arguments: &[Expr]) -> Option<Split<'_>>
    ensures { option_map values.split result ≡ spec.split at arguments.now }
{
    match item_at(arguments, at) {
        None => None,
        Some(major) => Some(Split {
            before: taken(at, arguments),
            major,
            after: dropped(at + 1, arguments),
        }),
    }
}

/// How many arguments a rule takes: the parameters, the motive and the minor premises.
pub fn shared(recursor: Recursor<'_>) -> usize
    ensures { result ≡ spec.shared (values.recursor recursor.entry) }
{
    recursor.params as usize + 1 + recursor.minors as usize
}

#[tactic(auto, using(crate::proofs::Costs::made_deep, crate::proofs::Costs::made_short))]
// A rule at these levels, where it isn't too deep and has no more nodes than there are units.
fn rule_at(alloc: Global, units: &mut u64, levels: &[Level], rule: &Expr) -> Result<Expr, Halt>
    ensures value { Within (level_instantiate levels.now rule.now) units.old units.new result }
    ensures calm { Calm result }
{
    match level_inst(alloc, rule, levels, *units) {
        Ok((term, _nodes)) => Ok(term),
        Err(SubstFault::TooDeep | SubstFault::Units) => Err(out(units)),
        Err(SubstFault::NoMemory) => Err(Halt::NoMemory),
    }
}

// The rule applied to what it takes of the arguments before, to the fields, and to the arguments after.
#[tactic(auto, using(crate::proofs::Costs::rule_spent))]
fn by_rule_made(
    alloc: Global,
    units: &mut u64,
    rule: &Expr,
    levels: &[Level],
    taken: &[Expr],
    fields: &[Expr],
    after: &[Expr],
) -> Result<Expr, Halt>
    ensures value { Runs (run.made (terms.apply (terms.apply (terms.apply (level_instantiate levels.now rule.now) taken.now) fields.now) after.now) units.old)
        result units.new }
    ensures calm { Calm result }
{
    let term = rule_at(alloc, units, levels, rule)?;
    let term = apply(alloc, term, taken)?;
    let term = apply(alloc, term, fields)?;
    let term = apply(alloc, term, after)?;
    paid(units, term)
}

#[tactic(auto, using(crate::proofs::Splits::apply_append))]
fn fire_rule(
    alloc: Global,
    units: &mut u64,
    recursor: Recursor<'_>,
    levels: &[Level],
    split: Split<'_>,
    own: u32,
    fields: &[Expr],
    rule: Option<&Expr>,
) -> Result<Progress, Halt>
    ensures value { RunsAs values.progress (spec.fire_rule (values.recursor recursor.entry) levels.now (values.split split.entry) own fields.now
        (option_copied rule.entry) units.old) result units.new }
    ensures calm { Calm result }
{
    match rule {
        Some(rule) => {
            let used = taken(shared(recursor), split.before);
            let own = dropped(own as usize, fields);
            let term = by_rule_made(alloc, units, rule, levels, used, own, split.after)?;
            Ok(Progress::Next(term))
        }
        None => Ok(Progress::Stays),
    }
}

fn fire_detail(
    alloc: Global,
    units: &mut u64,
    recursor: Recursor<'_>,
    levels: &[Level],
    split: Split<'_>,
    fields: &[Expr],
    detail: &Detail,
) -> Result<Progress, Halt>
    ensures value { RunsAs values.progress (spec.fire_detail (values.recursor recursor.entry) levels.now (values.split split.entry) fields.now detail.now
        units.old) result units.new }
    ensures calm { Calm result }
{
    match detail {
        Detail::Ctor {
            ind,
            index,
            params,
            fields: own,
        } => {
            if ind.is(recursor.ind) && fields.len() == *params as usize + *own as usize {
                let rule = item_at(recursor.rules, *index as usize);
                fire_rule(alloc, units, recursor, levels, split, *params, fields, rule)
            } else {
                Ok(Progress::Stays)
            }
        }
        Detail::Plain | Detail::Ind { .. } | Detail::Rec { .. } => Ok(Progress::Stays),
    }
}

/// The rule of the constructor that heads the major premise `major`, where it is one of the recursor's type with all
/// its arguments. What is made costs its nodes.
pub fn fire(
    alloc: Global,
    view: &View,
    units: &mut u64,
    recursor: Recursor<'_>,
    levels: &[Level],
    split: Split<'_>,
    major: &Expr,
) -> Result<Progress, Halt>
    ensures value { RunsAs values.progress (spec.fire view.now (values.recursor recursor.entry) levels.now (values.split split.entry) major.now units.old)
        result units.new }
    ensures calm { Calm result }
{
    match head(major).node() {
        ExprNode::Const(name, _) => match see(alloc, view, name)? {
            Seen::Known(info) => {
                let fields = arguments(alloc, major)?;
                fire_detail(
                    alloc,
                    units,
                    recursor,
                    levels,
                    split,
                    fields.as_slice(),
                    &info.detail,
                )
            }
            Seen::Unknown => Ok(Progress::Stays),
            Seen::Missing(key) => Err(need(units, key)),
        },
        _ => Ok(Progress::Stays),
    }
}

fn is_fieldless(recursor: Recursor<'_>, detail: &Detail) -> bool
    ensures { result ≡ spec.is_fieldless (values.recursor recursor.entry) detail.now }
{
    match detail {
        Detail::Ctor {
            ind,
            index: _,
            params,
            fields,
        } => ind.is(recursor.ind) && *params == recursor.params && *fields == 0,
        Detail::Plain | Detail::Ind { .. } | Detail::Rec { .. } => false,
    }
}

fn fieldless_named<'a>(
    alloc: Global,
    view: &View,
    units: &mut u64,
    recursor: Recursor<'_>,
    name: &'a Name,
) -> Result<Option<&'a Name>, Halt>
    ensures value { RunsAs option_copied (steps.fieldless_seen (values.recursor recursor.entry) name.now (calls.see view.now name.now) units.old) result
        units.new }
    ensures calm { Calm result }
{
    match see(alloc, view, name)? {
        Seen::Known(info) => {
            if is_fieldless(recursor, &info.detail) {
                Ok(Some(name))
            } else {
                Ok(None)
            }
        }
        Seen::Unknown => Ok(None),
        Seen::Missing(key) => Err(need(units, key)),
    }
}

/// The constructor that may take the place of a major premise: the only one of a type declared in `Prop`, with the
/// recursor's parameters and no fields.
pub fn fieldless<'a>(
    alloc: Global,
    view: &View,
    units: &mut u64,
    recursor: Recursor<'_>,
    info: &'a ConstInfo,
) -> Result<Option<&'a Name>, Halt>
    ensures value { RunsAs option_copied (steps.fieldless view.now (values.recursor recursor.entry) info.now.ty info.now.detail units.old) result units.new }
    ensures calm { Calm result }
{
    match &info.detail {
        Detail::Ind { ctors, .. } => match ctors.as_slice() {
            [] => Ok(None),
            [name] => {
                if is_prop_level(alloc, &info.ty)? {
                    fieldless_named(alloc, view, units, recursor, name)
                } else {
                    Ok(None)
                }
            }
            [_, _, ..] => Ok(None),
        },
        Detail::Plain | Detail::Ctor { .. } | Detail::Rec { .. } => Ok(None),
    }
}
