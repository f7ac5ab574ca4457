//! A constructor opened twice.
ghost use Rattle.std.specs.Prelude.{◌≡◌, ◌≤◌, ◌+◌, ◌++◌, ◌∷◌, length, reverse, option_map, is_none, drop, IfOk, OnOk};
ghost use Rattle.lf_rules.specs.Recursor.{parameters_from};
ghost use Rattle.lf_elaboration.specs.Metavariables.{outside};
ghost use Rattle.lf_checker.specs.Checker.{calls};
ghost use Rattle.lf_core.specs.Term.{free};
ghost use Rattle.lf_elaboration.specs.Injectivity as spec;
ghost use Rattle.lf_recursor.specs.Values.{opened_of};
ghost use Rattle.lf_rules.specs.Telescope as telescope;
ghost use Rattle.lf_injectivity.specs.Values.{sides};
ghost use Rattle.lf_core.specs.Spine.{arguments_of};
ghost use Rattle.lf_steps.specs.Runs.{RunsAs, Rose};

use crate::primes::{push_copies, with_primes};
use crate::terms::push_terms;
use lf_base::Stop;
use lf_check::{Cx, Mode, sort_of};
use lf_core::{Expr, ExprNode, Level, Name, NoMemory};
use lf_recursor::{Local, Opened};
use lf_steps::{Halt, arguments};
use lf_telescope::{implicit, open_pis, types, variables};
use sqlite_items::Items;
use std::alloc::Global;
use std::marker::Model;

/// A field of the two sides, with its type and the level of that. Contracts see the definition's.
#[derive(Debug, Drop)]
pub struct Field {
    pub ty: Expr,
    pub level: Level,
    pub left: Expr,
    pub right: Expr,
}

impl Model for Field {
    ghost use Rattle.std.specs.Coded.{codes};
    ghost use Rattle.lf_core.specs.Codes.{coded_term, coded_universe};
    ghost use Rattle.lf_elaboration.specs.Injectivity.{Field as FieldValue};

    ghost Value = { FieldValue };

    ghost coded = { Prim.hlevel (codes, coded_term, coded_universe) };

    ghost view = { λ f. record { ty = f.ty; level = f.level; left = f.left; right = f.right } };
}

/// A constructor opened twice: parameters, fields, and fields again. `index` is its place in its type, `ty` its result's
/// type with the level of that, and `telescope` has the fields of the first side.
#[derive(Debug, Drop)]
pub struct Sides {
    pub constructor: Name,
    pub index: u32,
    pub levels: Items<Level>,
    pub ind: Name,
    pub all: Vec<Local>,
    pub params: Vec<Expr>,
    pub indices: Vec<Expr>,
    pub ty: Expr,
    pub level: Level,
    pub fields: Vec<Field>,
    pub telescope: Vec<Local>,
}

/// A constructor: its name, level parameters and type; its type's name, its place there, and the numbers of its parameters
/// and fields.
#[derive(Clone, Copy)]
pub struct Constructor<'a> {
    pub name: &'a Name,
    pub levels: &'a [Name],
    pub ty: &'a Expr,
    pub ind: &'a Name,
    pub index: u32,
    pub params: u32,
    pub fields: u32,
}

// The terms behind the first n.
fn behind(alloc: Global, terms: Vec<Expr>, n: u32) -> Result<Vec<Expr>, NoMemory>
    ensures { IfOk result (λ all. all.items ≡ drop n terms.items) }
{
    let mut all = Vec::new(alloc);
    let start = (n as usize).min(terms.len());
    push_terms(&mut all, &terms[start..])?;
    Ok(all)
}

// Whether the term speaks of no variable behind the parameters.
#[tactic(auto, using(lf_meta::proofs::Absent::all_inside, crate::proofs::Parts::none_both))]
fn is_inside(params: u32, term: &Expr) -> bool
    ensures { result ≡ is_none (outside params term.now) }
{
    if term.free_bound() <= params {
        return true;
    }
    match term.node() {
        ExprNode::Bound(_)
        | ExprNode::Meta(_)
        | ExprNode::Sort(_)
        | ExprNode::Const(_, _)
        | ExprNode::Lit(_) => true,
        ExprNode::Free(k) => *k < params,
        ExprNode::App(f, a) => is_inside(params, f) && is_inside(params, a),
        ExprNode::Lam(_, a, b) | ExprNode::Pi(_, a, b) => {
            is_inside(params, a) && is_inside(params, b)
        }
        ExprNode::Let(_, a, v, b) => {
            is_inside(params, a) && (is_inside(params, v) && is_inside(params, b))
        }
        ExprNode::Proj(_, _, t) => is_inside(params, t),
    }
}

// Whether no type speaks of a variable behind the parameters.
fn are_independent(params: u32, locals: &[Local]) -> bool
    ensures { result ≡ spec.are_independent params locals.now }
{
    match locals {
        [] => true,
        [x, xs @ ..] => is_inside(params, &x.ty) && are_independent(params, xs),
    }
}

// How many locals these are.
fn count(locals: &[Local]) -> Result<u32, NoMemory>
    ensures { IfOk result (λ n. n ≡ length locals.now) }
{
    u32::try_from(locals.len()).map_err(|_| NoMemory)
}

// Puts `n` level parameters from `k` on behind `all`.
#[tactic(auto, using(lf_recursor::proofs::Lists::parameters_one))]
fn push_parameters(alloc: Global, all: &mut Items<Level>, k: u32, n: usize) -> Result<(), NoMemory>
    ensures { OnOk result (all.new ≡ all.old ++ parameters_from k n) }
{
    if n == 0 {
        return Ok(());
    }
    all.push(Level::param(alloc, k)?)?;
    let next = k.checked_add(1).ok_or(NoMemory)?;
    push_parameters(alloc, all, next, n - 1)
}

fn parameters_from(alloc: Global, k: u32, n: usize) -> Result<Items<Level>, NoMemory>
    ensures { IfOk result (λ ls. ls ≡ parameters_from k n) }
{
    let mut all = Items::new(alloc);
    push_parameters(alloc, &mut all, k, n)?;
    Ok(all)
}

// The binders of both sides.
fn both_sides(alloc: Global, params: &[Local], locals: &[Local]) -> Result<Vec<Local>, NoMemory>
    ensures { IfOk result (λ all. all.items
        ≡ telescope.implicit params.now ++ (telescope.implicit locals.now ++ telescope.implicit (spec.with_primes locals.now))) }
{
    let mut all = implicit(alloc, params)?;
    let first = implicit(alloc, locals)?;
    push_copies(&mut all, first.as_slice())?;
    let primed = with_primes(alloc, locals)?;
    let second = implicit(alloc, primed.as_slice())?;
    push_copies(&mut all, second.as_slice())?;
    Ok(all)
}

// The fields from the last on with one more, which stands before them.
#[tactic(auto, using(crate::proofs::Parts::one_back))]
fn with_field(
    alloc: Global,
    rest: Vec<Field>,
    ty: &Expr,
    level: Level,
    j: u32,
    k: u32,
) -> Result<Vec<Field>, NoMemory>
    ensures { IfOk result (λ v. reverse v.items
        ≡ record { ty = ty.now; level = level; left = free j; right = free k } ∷ reverse rest.items) }
{
    let mut all = rest;
    all.push(Field {
        ty: ty.copy(alloc)?,
        level,
        left: Expr::free(alloc, j)?,
        right: Expr::free(alloc, k)?,
    })?;
    Ok(all)
}

// The fields from the last on, where the first has the variables `j` and `k`.
#[tactic(auto, using(lf_steps::proofs::Runs::halts))]
fn fields_back<P: Stop>(
    cx: Cx<'_>,
    context: &mut Vec<Expr>,
    units: &mut u64,
    stop: &mut P,
    j: u32,
    k: u32,
    locals: &[Local],
) -> Result<Vec<Field>, Halt>
    ensures value { RunsAs (λ v. reverse v.items)
        (spec.fields_at (calls cx.entry.view.now cx.entry.depth) context.old.items j k locals.now units.old) result units.new }
    ensures kept { context.new.items ≡ context.old.items }
    ensures count { P.stops stop.old ≤ P.stops stop.new }
    ensures rose { Rose result (P.stops stop.old) (P.stops stop.new) }
{
    let alloc = cx.alloc;
    match locals {
        [] => Ok(Vec::new(alloc)),
        [x, xs @ ..] => {
            let level = sort_of(cx, context, units, stop, Mode::Checked, &x.ty)?;
            let next = j.checked_add(1).ok_or(NoMemory)?;
            let after = k.checked_add(1).ok_or(NoMemory)?;
            let rest = fields_back(cx, context, units, stop, next, after, xs)?;
            Ok(with_field(alloc, rest, &x.ty, level, j, k)?)
        }
    }
}

// The fields, where the first has the variables `j` and `k`.
#[tactic(auto, using(lf_steps::proofs::Runs::halts))]
fn fields_of<P: Stop>(
    cx: Cx<'_>,
    context: &mut Vec<Expr>,
    units: &mut u64,
    stop: &mut P,
    j: u32,
    k: u32,
    locals: &[Local],
) -> Result<Vec<Field>, Halt>
    ensures value { RunsAs (λ v. v.items)
        (spec.fields_at (calls cx.entry.view.now cx.entry.depth) context.old.items j k locals.now units.old) result units.new }
    ensures count { P.stops stop.old ≤ P.stops stop.new }
    ensures rose { Rose result (P.stops stop.old) (P.stops stop.new) }
{
    let mut all = fields_back(cx, context, units, stop, j, k, locals)?;
    all.reverse();
    Ok(all)
}

// The sides, of these parts.
fn assembled(
    alloc: Global,
    of: Constructor<'_>,
    params: &[Local],
    opened: Opened,
    all: Vec<Local>,
    level: Level,
    fields: Vec<Field>,
) -> Result<Sides, NoMemory>
    ensures { IfOk result (λ s. sides s ≡ record {
      constructor = of.entry.name.now;
      index = of.entry.index;
      levels = parameters_from 0 (length of.entry.levels.now);
      ind = of.entry.ind.now;
      all = all.items;
      params = telescope.variables 0 params.now;
      indices = drop of.entry.params (arguments_of opened.rest);
      ty = opened.rest;
      level = level;
      fields = fields.items;
      telescope = opened.locals.items;
    }) }
{
    let Opened { locals, rest } = opened;
    let constructor = of.name.copy(alloc)?;
    let levels = parameters_from(alloc, 0, of.levels.len())?;
    let ind = of.ind.copy(alloc)?;
    let params = variables(alloc, 0, params)?;
    let indices = behind(alloc, arguments(alloc, &rest)?, of.params)?;
    Ok(Sides {
        constructor,
        index: of.index,
        levels,
        ind,
        all,
        params,
        indices,
        ty: rest,
        level,
        fields,
        telescope: locals,
    })
}

// The sides of a constructor that is opened so.
#[tactic(auto, using(lf_steps::proofs::Runs::halts))]
fn sides_by<P: Stop>(
    cx: Cx<'_>,
    units: &mut u64,
    stop: &mut P,
    of: Constructor<'_>,
    params: &[Local],
    opened: Opened,
) -> Result<Sides, Halt>
    ensures value { RunsAs sides
        (spec.sides_by (calls cx.entry.view.now cx.entry.depth) of.entry.name.now of.entry.levels.now of.entry.ind.now of.entry.index of.entry.params
        params.now (opened_of opened) units.old)
        result units.new }
    ensures count { P.stops stop.old ≤ P.stops stop.new }
    ensures rose { Rose result (P.stops stop.old) (P.stops stop.new) }
{
    let alloc = cx.alloc;
    let Opened { locals, rest } = opened;
    let all = both_sides(alloc, params, locals.as_slice())?;
    let mut context = types(alloc, all.as_slice())?;
    let first = count(params)?;
    let second = first
        .checked_add(count(locals.as_slice())?)
        .ok_or(NoMemory)?;
    let level = sort_of(cx, &mut context, units, stop, Mode::Checked, &rest)?;
    let fields = fields_of(
        cx,
        &mut context,
        units,
        stop,
        first,
        second,
        locals.as_slice(),
    )?;
    let opened = Opened { locals, rest };
    Ok(assembled(alloc, of, params, opened, all, level, fields)?)
}

/// The constructor opened twice; `None` where it has no fields, or one of which the type speaks of an earlier one.
/// Refused, Out and Need where the definition is.
#[tactic(auto, using(lf_steps::proofs::Runs::halts))]
pub fn sides_of<P: Stop>(
    cx: Cx<'_>,
    units: &mut u64,
    stop: &mut P,
    of: Constructor<'_>,
) -> Result<Option<Sides>, Halt>
    ensures value { RunsAs (option_map sides)
        (spec.sides_of (calls cx.entry.view.now cx.entry.depth) of.entry.name.now of.entry.levels.now of.entry.ty.now of.entry.ind.now of.entry.index
        of.entry.params of.entry.fields units.old)
        result units.new }
    ensures count { P.stops stop.old ≤ P.stops stop.new }
    ensures rose { Rose result (P.stops stop.old) (P.stops stop.new) }
{
    let alloc = cx.alloc;
    let outer = open_pis(alloc, units, of.params as usize, &[], of.ty)?;
    let context = types(alloc, outer.locals.as_slice())?;
    let inner = open_pis(
        alloc,
        units,
        of.fields as usize,
        context.as_slice(),
        &outer.rest,
    )?;
    let params = count(outer.locals.as_slice())?;
    if of.fields > 0 && are_independent(params, inner.locals.as_slice()) {
        let sides = sides_by(cx, units, stop, of, outer.locals.as_slice(), inner)?;
        return Ok(Some(sides));
    }
    drop(inner);
    Ok(None)
}
