//! An alternative as a minor premise: hypotheses for recursive uses of the definition.
ghost use Rattle.std.specs.Prelude.{◌≡◌, suc, ◌<◌, ◌+◌, ◌++◌, ◌∷◌, [], length, IfOk, OnOk};
ghost use Rattle.lf_core.specs.Spine as spine;
ghost use Rattle.lf_core.specs.Summary as summary;
ghost use Rattle.lf_core.specs.Term.{free};
ghost use Rattle.lf_rules.specs.Telescope as telescope;
ghost use Rattle.lf_checker.specs.Run as run;
ghost use Rattle.lf_elaboration.specs.Forms as forms;
ghost use Rattle.lf_elaboration.specs.Induction as induction;
ghost use Rattle.lf_equations.specs.Recursion as spec;
ghost use Rattle.lf_steps.specs.Runs as steps;
ghost use Rattle.lf_match.specs.Compiles.{Compiles, Calm};
ghost use Rattle.lf_match.specs.Parts as parts;

use crate::ended::Ended;
use lf_core::{Binder, Expr, ExprNode, Name, NoMemory};
use lf_equations::{Case, EquationFault};
use lf_recursor::pi_count;
use lf_steps::{Halt, apply, paid};
use lf_telescope::{Local, extended, lambdas_closed, open_pis, variables};
use std::alloc::Global;

/// The greatest depth of an alternative's term that the stack has room for. No term that is elaborated is as deep.
const DEEPEST: u32 = 2048;

/// The greatest number of its nodes.
const MOST: u64 = 16777216;

fn as_variable(term: &Expr) -> Option<u32>
    ensures { result ≡ forms.as_variable term.now }
{
    match term.node() {
        ExprNode::Free(k) => Some(*k),
        _ => None,
    }
}

// Whether the variable stands in the term.
fn speaks_of(number: u32, term: &Expr) -> bool
    ensures { result ≡ induction.speaks_of number term.now }
{
    if term.free_bound() <= number {
        return false;
    }
    match term.node() {
        ExprNode::Free(k) => *k == number,
        ExprNode::App(f, a) => speaks_of(number, f) || speaks_of(number, a),
        ExprNode::Lam(_, a, b) | ExprNode::Pi(_, a, b) => {
            speaks_of(number, a) || speaks_of(number, b)
        }
        ExprNode::Let(_, a, v, b) => {
            speaks_of(number, a) || (speaks_of(number, v) || speaks_of(number, b))
        }
        ExprNode::Proj(_, _, t) => speaks_of(number, t),
        ExprNode::Bound(_)
        | ExprNode::Meta(_)
        | ExprNode::Sort(_)
        | ExprNode::Const(_, _)
        | ExprNode::Lit(_) => false,
    }
}

// The first of these locals, which begin at `first`, that has this type.
fn of_type(first: u32, locals: &[Local], ty: &Expr) -> Result<Option<u32>, NoMemory>
    ensures { IfOk result (λ h. h ≡ parts.of_type ty.now first locals.now) }
{
    match locals {
        [] => Ok(None),
        [x, xs @ ..] => {
            if x.ty.is(ty) {
                return Ok(Some(first));
            }
            let next = first.checked_add(1).ok_or(NoMemory)?;
            of_type(next, xs, ty)
        }
    }
}

// The hypothesis of a field among these, which begin at `first`: its type is the motive at the field.
#[tactic(auto, using(crate::proofs::Calls::hypothesis_is))]
fn hypothesis_of(
    alloc: Global,
    motive: &Expr,
    first: u32,
    locals: &[Local],
    field: u32,
) -> Result<Option<u32>, NoMemory>
    ensures { IfOk result (λ h. h ≡ spec.hypothesis_of motive.now first locals.now field) }
{
    let variable = Expr::free(alloc, field)?;
    let ty = Expr::app(alloc, motive.copy(alloc)?, variable)?;
    of_type(first, locals, &ty)
}

// What stands for an application of the definition at its binders.
fn call(
    alloc: Global,
    itself: &Expr,
    motive: &Expr,
    first: u32,
    locals: &[Local],
    f: &Expr,
    a: &Expr,
) -> Result<Option<u32>, NoMemory>
    ensures { IfOk result (λ h. h ≡ spec.call itself.now (spec.hypothesis_of motive.now first locals.now) f.now a.now) }
{
    if !f.is(itself) {
        return Ok(None);
    }
    match as_variable(a) {
        None => Ok(None),
        Some(field) => hypothesis_of(alloc, motive, first, locals, field),
    }
}

// The term with hypotheses for such applications. A part without the definition, whose variable has this number, stays.
#[tactic(auto, using(crate::proofs::Calls::stays))]
fn by_hypotheses(
    alloc: Global,
    number: u32,
    itself: &Expr,
    motive: &Expr,
    first: u32,
    locals: &[Local],
    term: &Expr,
) -> Result<Expr, NoMemory>
    requires { number < summary.free_bound itself.now }
    ensures { IfOk result (λ t. t ≡ spec.by_hypotheses itself.now (spec.hypothesis_of motive.now first locals.now) term.now) }
{
    if term.free_bound() <= number {
        return term.copy(alloc);
    }
    match term.node() {
        ExprNode::App(f, a) => match call(alloc, itself, motive, first, locals, f, a)? {
            Some(h) => Expr::free(alloc, h),
            None => {
                let f = by_hypotheses(alloc, number, itself, motive, first, locals, f)?;
                let a = by_hypotheses(alloc, number, itself, motive, first, locals, a)?;
                Expr::app(alloc, f, a)
            }
        },
        ExprNode::Lam(x, a, b) => {
            let a = by_hypotheses(alloc, number, itself, motive, first, locals, a)?;
            let b = by_hypotheses(alloc, number, itself, motive, first, locals, b)?;
            Expr::lam(alloc, x.copy(alloc)?, a, b)
        }
        ExprNode::Pi(x, a, b) => {
            let a = by_hypotheses(alloc, number, itself, motive, first, locals, a)?;
            let b = by_hypotheses(alloc, number, itself, motive, first, locals, b)?;
            Expr::pi(alloc, x.copy(alloc)?, a, b)
        }
        ExprNode::Let(x, a, v, b) => {
            let a = by_hypotheses(alloc, number, itself, motive, first, locals, a)?;
            let v = by_hypotheses(alloc, number, itself, motive, first, locals, v)?;
            let b = by_hypotheses(alloc, number, itself, motive, first, locals, b)?;
            Expr::let_in(alloc, x.copy(alloc)?, a, v, b)
        }
        ExprNode::Proj(s, i, t) => {
            let t = by_hypotheses(alloc, number, itself, motive, first, locals, t)?;
            Expr::proj(alloc, s.copy(alloc)?, *i, t)
        }
        ExprNode::Bound(_)
        | ExprNode::Free(_)
        | ExprNode::Meta(_)
        | ExprNode::Sort(_)
        | ExprNode::Const(_, _)
        | ExprNode::Lit(_) => term.copy(alloc),
    }
}

// The number of the variable behind the definition's binders, the definition and these fields.
fn first_hypothesis(binders: &[Local], fields: &[Local]) -> Result<u32, NoMemory>
    ensures { IfOk result (λ h. h ≡ suc (length binders.now) + length fields.now) }
{
    let own = u32::try_from(binders.len()).map_err(|_| NoMemory)?;
    let count = u32::try_from(fields.len()).map_err(|_| NoMemory)?;
    let next = own.checked_add(1).ok_or(NoMemory)?;
    next.checked_add(count).ok_or(NoMemory)
}

// The alternative's term with hypotheses, where these locals stand behind the fields.
#[tactic(auto, using(crate::proofs::Calls::names_itself))]
fn hypotheses_in(
    alloc: Global,
    binders: &[Local],
    motive: &Expr,
    fields: &[Local],
    locals: &[Local],
    term: &Expr,
) -> Result<Expr, NoMemory>
    ensures { IfOk result (λ t. t ≡ spec.by_hypotheses (spine.apply (free (length binders.now)) (telescope.variables 0 binders.now))
        (spec.hypothesis_of motive.now (suc (length binders.now) + length fields.now) locals.now) term.now) }
{
    let number = u32::try_from(binders.len()).map_err(|_| NoMemory)?;
    let first = first_hypothesis(binders, fields)?;
    let at = variables(alloc, 0, binders)?;
    let itself = apply(alloc, Expr::free(alloc, number)?, at.as_slice())?;
    by_hypotheses(alloc, number, &itself, motive, first, locals, term)
}

// The same, which costs its nodes.
fn with_hypotheses(
    alloc: Global,
    units: &mut u64,
    binders: &[Local],
    motive: &Expr,
    fields: &[Local],
    locals: &[Local],
    term: &Expr,
) -> Result<Expr, Halt>
    ensures value { steps.Runs (run.made (spec.by_hypotheses (spine.apply (free (length binders.now)) (telescope.variables 0 binders.now))
        (spec.hypothesis_of motive.now (suc (length binders.now) + length fields.now) locals.now) term.now) units.old) result units.new }
    ensures calm { steps.Calm result }
{
    if term.depth() > DEEPEST || term.node_count() > MOST {
        return Err(Halt::NoMemory);
    }
    let made = hypotheses_in(alloc, binders, motive, fields, locals, term)?;
    paid(units, made)
}

// Puts the fields, by the names that are written, behind `all`.
fn push_renamed(all: &mut Vec<Local>, names: &[Name], locals: &[Local]) -> Result<(), NoMemory>
    ensures { OnOk result (all.new.items ≡ all.old.items ++ spec.renamed names.now locals.now) }
{
    let alloc = *all.allocator();
    match names {
        [] => push_locals(all, locals),
        [n, ns @ ..] => match locals {
            [] => Ok(()),
            [x, xs @ ..] => {
                let name = n.copy(alloc)?;
                let ty = x.ty.copy(alloc)?;
                let kind = x.binder.kind;
                let binder = Binder { name, kind };
                all.push(Local { binder, ty })?;
                push_renamed(all, ns, xs)
            }
        },
    }
}

// The fields by their written names, and then the hypotheses.
fn whole_binders(
    alloc: Global,
    names: &[Name],
    fields: &[Local],
    hypotheses: &[Local],
) -> Result<Vec<Local>, NoMemory>
    ensures { IfOk result (λ all. all.items ≡ spec.renamed names.now fields.now ++ hypotheses.now) }
{
    let mut all = Vec::new(alloc);
    push_renamed(&mut all, names, fields)?;
    push_locals(&mut all, hypotheses)?;
    Ok(all)
}

/// Puts the locals behind `all`.
pub fn push_locals(all: &mut Vec<Local>, locals: &[Local]) -> Result<(), NoMemory>
    ensures { OnOk result (all.new.items ≡ all.old.items ++ locals.now) }
{
    let alloc = *all.allocator();
    match locals {
        [] => Ok(()),
        [x, xs @ ..] => {
            all.push(x.copy(alloc)?)?;
            push_locals(all, xs)
        }
    }
}

// The last test, and the alternative closed over its fields and hypotheses.
#[tactic(auto, using(lf_steps::proofs::Runs::halts))]
fn structural(
    alloc: Global,
    units: &mut u64,
    definition: &[Local],
    case: &Case,
    binders: &[Local],
    term: Expr,
) -> Result<Expr, Ended>
    ensures value { Compiles (parts.structural (length definition.now) case.now.constructor binders.now term units.old) result units.new }
    ensures calm { Calm result }
{
    let number = u32::try_from(definition.len()).map_err(|_| NoMemory)?;
    if speaks_of(number, &term) {
        let name = case.constructor.copy(alloc)?;
        drop(term);
        return Err(Ended::Fault(EquationFault::NotStructural(name)));
    }
    let first = number as usize + 1;
    Ok(lambdas_closed(alloc, units, first, binders, term)?)
}

// The term of an alternative behind these fields and hypotheses, and the last test.
#[tactic(auto, using(lf_steps::proofs::Runs::halts))]
fn behind_hypotheses(
    alloc: Global,
    units: &mut u64,
    binders: &[Local],
    motive: &Expr,
    fields: &[Local],
    hypotheses: &[Local],
    case: &Case,
) -> Result<Expr, Ended>
    ensures value { Compiles (parts.behind_hypotheses binders.now motive.now fields.now hypotheses.now case.now units.old) result units.new }
    ensures calm { Calm result }
{
    let body = &case.body;
    let term = with_hypotheses(alloc, units, binders, motive, fields, hypotheses, body)?;
    let whole = whole_binders(alloc, case.fields.as_slice(), fields, hypotheses)?;
    let closed = structural(alloc, units, binders, case, whole.as_slice(), term)?;
    Ok(closed)
}

// How many pis the term begins with.
fn count_of(term: &Expr) -> Result<usize, NoMemory>
    ensures { IfOk result (λ n. n ≡ telescope.pi_count term.now) }
{
    let count = pi_count(term).ok_or(NoMemory)?;
    Ok(count as usize)
}

/// The minor premise of an alternative, whose type at the motive is `premise`: the last test. `context` has the types of
/// the definition's binders and its own.
#[tactic(auto, using(lf_steps::proofs::Runs::halts, crate::proofs::Calls::minor_is))]
pub fn minor(
    alloc: Global,
    units: &mut u64,
    binders: &[Local],
    ty: &Expr,
    context: &[Expr],
    motive: &Expr,
    premise: &Expr,
    case: &Case,
) -> Result<Expr, Ended>
    requires { context.now ≡ telescope.types binders.now ++ ty.now ∷ [] }
    ensures value { Compiles (spec.minor binders.now ty.now motive.now premise.now case.now units.old) result units.new }
    ensures calm { Calm result }
{
    let opened = open_pis(alloc, units, case.fields.len(), context, premise)?;
    let inner = extended(alloc, context, opened.locals.as_slice())?;
    let count = count_of(&opened.rest)?;
    let behind = open_pis(alloc, units, count, inner.as_slice(), &opened.rest)?;
    behind_hypotheses(
        alloc,
        units,
        binders,
        motive,
        opened.locals.as_slice(),
        behind.locals.as_slice(),
        case,
    )
}
