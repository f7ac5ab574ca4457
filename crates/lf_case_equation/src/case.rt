//! The equation of one constructor.
ghost use Rattle.std.specs.Prelude.{◌≡◌, ◌≤◌, ◌++◌, Some, option_map, IfOk, OnOk};
ghost use Rattle.lf_checker.specs.Checker.{calls};
ghost use Rattle.lf_checker.specs.Extends.{shape_of};
ghost use Rattle.lf_checker.specs.Calls as checker;
ghost use Rattle.lf_core.specs.Spine as spine;
ghost use Rattle.lf_core.specs.Term.{app, const};
ghost use Rattle.lf_elaboration.specs.CaseEquation as spec;
ghost use Rattle.lf_elaboration.specs.Metavariables.{leading_lambdas};
ghost use Rattle.lf_steps.specs.Runs.{RunsAs, Rose};
ghost use Rattle.lf_telescope.specs.Values.{statement, some_statement};
ghost use Rattle.lf_case_equation.specs.Values.{recursion};

use crate::fields::{push_hypotheses, recursive_fields};
use crate::putting::put_all;
use crate::recursion::Recursion;
use lf_base::Stop;
use lf_check::Cx;
use lf_core::{ConstInfo, Expr, Name, NoMemory, copy_all};
use lf_items::{codomain_at, push_all};
use lf_recursor::{Local, pi_count};
use lf_steps::{Halt, apply, at_levels, paid};
use lf_telescope::{Statement, at_itself, by_reflexivity, open_pis, types, variables};
use std::alloc::Global;

/// The definition that an equation is of: its name and its level parameters.
#[derive(Clone, Copy)]
pub struct Defined<'a> {
    pub name: &'a Name,
    pub levels: &'a [Name],
}

/// A constructor, whether each of its fields is recursive, and its minor premise.
#[derive(Clone, Copy)]
pub struct Case<'a> {
    pub constructor: &'a Name,
    pub recursive: &'a [bool],
    pub minor: &'a Expr,
}

// The constructor at the parameters and these fields.
fn at_fields(
    alloc: Global,
    constructor: &Name,
    r: Recursion<'_>,
    fields: &[Expr],
) -> Result<Expr, NoMemory>
    ensures { IfOk result (λ t. t ≡ spine.apply (const constructor.now r.entry.levels.now) (r.entry.params.now ++ fields.now)) }
{
    let levels = copy_all(alloc, r.levels)?;
    let constant = Expr::constant(alloc, constructor.copy(alloc)?, levels)?;
    let mut all = Vec::new(alloc);
    push_all(&mut all, r.params)?;
    push_all(&mut all, fields)?;
    apply(alloc, constant, all.as_slice())
}

// What the function at the constructor with these fields is: the minor premise at the fields and the hypotheses.
fn right_of(
    alloc: Global,
    function: &Expr,
    k: u32,
    case: Case<'_>,
    locals: &[Local],
    fields: &[Expr],
) -> Result<Expr, NoMemory>
    ensures { IfOk result (λ t. t ≡ spec.put_all (record { term = case.entry.minor.now; lambdas = leading_lambdas case.entry.minor.now })
        (fields.now ++ spec.hypotheses function.now k case.entry.recursive.now locals.now)) }
{
    let mut all = Vec::new(alloc);
    push_all(&mut all, fields)?;
    push_hypotheses(&mut all, function, k, case.recursive, locals)?;
    put_all(alloc, case.minor, all.as_slice())
}

// Puts copies of these locals behind `all`.
fn push_locals(all: &mut Vec<Local>, locals: &[Local]) -> Result<(), NoMemory>
    ensures { OnOk result (all.new.items ≡ all.old.items ++ locals.now) }
{
    let alloc = *all.allocator();
    match locals {
        [] => Ok(()),
        [x, xs @ ..] => {
            all.push(x.copy(alloc)?)?;
            push_locals(all, xs)
        }
    }
}

// Two telescopes, one behind the other.
fn joined(alloc: Global, first: &[Local], rest: &[Local]) -> Result<Vec<Local>, NoMemory>
    ensures { IfOk result (λ all. all.items ≡ first.now ++ rest.now) }
{
    let mut all = Vec::new(alloc);
    push_locals(&mut all, first)?;
    push_locals(&mut all, rest)?;
    Ok(all)
}

// The equation of the case, where the constructor at the parameters has this type.
#[tactic(auto, using(lf_steps::proofs::Runs::halts))]
fn case_at<P: Stop>(
    cx: Cx<'_>,
    units: &mut u64,
    stop: &mut P,
    f: Defined<'_>,
    r: Recursion<'_>,
    case: Case<'_>,
    ty: &Expr,
) -> Result<Statement, Halt>
    ensures value { RunsAs some_statement
        (spec.case_at (calls cx.entry.view.now cx.entry.depth) f.entry.name.now f.entry.levels.now (recursion r.entry) case.entry.constructor.now
        case.entry.recursive.now ty.now (Some case.entry.minor.now) units.old)
        result units.new }
    ensures count { P.stops stop.old ≤ P.stops stop.new }
    ensures rose { Rose result (P.stops stop.old) (P.stops stop.new) }
{
    let alloc = cx.alloc;
    let k = u32::try_from(r.binders.len()).map_err(|_| NoMemory)?;
    let function = at_itself(alloc, f.name, f.levels, r.binders)?;
    let pis = pi_count(ty).ok_or(NoMemory)? as usize;
    let context = types(alloc, r.binders)?;
    let opened = open_pis(alloc, units, pis, context.as_slice(), ty)?;
    let locals = opened.locals.as_slice();
    let fields = variables(alloc, k, locals)?;
    let right = right_of(alloc, &function, k, case, locals, fields.as_slice())?;
    let right = paid(units, right)?;
    let argument = at_fields(alloc, case.constructor, r, fields.as_slice())?;
    let left = Expr::app(alloc, function, argument)?;
    let all = joined(alloc, r.binders, locals)?;
    by_reflexivity(cx, units, stop, all.as_slice(), &left, &right)
}

// The type of the constructor, as it is known, at the levels and the parameters.
#[tactic(auto, using(lf_steps::proofs::Runs::halts))]
pub fn case_known<P: Stop>(
    cx: Cx<'_>,
    units: &mut u64,
    stop: &mut P,
    f: Defined<'_>,
    r: Recursion<'_>,
    i: usize,
    constructor: &Name,
    info: &ConstInfo,
) -> Result<Option<Statement>, Halt>
    ensures value { RunsAs (option_map statement)
        (spec.case_seen (calls cx.entry.view.now cx.entry.depth) f.entry.name.now f.entry.levels.now (recursion r.entry) i constructor.now
        (checker.known (shape_of info.now)) units.old)
        result units.new }
    ensures count { P.stops stop.old ≤ P.stops stop.new }
    ensures rose { Rose result (P.stops stop.old) (P.stops stop.new) }
{
    let alloc = cx.alloc;
    let whole = at_levels(alloc, units, r.levels, &info.ty)?;
    let behind = codomain_at(alloc, units, r.params, &whole)?;
    let recursive = recursive_fields(alloc, r.ind, r.params.len(), &info.ty)?;
    match behind {
        None => Ok(None),
        Some(ty) => match r.minors.get(i) {
            None => Ok(None),
            Some(minor) => {
                let case = Case {
                    constructor,
                    recursive: recursive.as_slice(),
                    minor,
                };
                let statement = case_at(cx, units, stop, f, r, case, &ty)?;
                Ok(Some(statement))
            }
        },
    }
}
