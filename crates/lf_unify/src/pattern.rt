//! Metavariables alone or applied to distinct variables.
ghost use Rattle.std.specs.Prelude.{◌≡◌, ◌≤◌, ℕ, length, take, option_map, unwrap_or, slice_get, IfOk};
ghost use Rattle.lf_core.specs.Term.{sort, level_zero};
ghost use Rattle.lf_elaboration.specs.Forms as forms;
ghost use Rattle.lf_elaboration.specs.Unifier as spec;
ghost use Rattle.lf_steps.specs.Runs as steps;
ghost use Rattle.lf_steps.specs.Runs.{Calm};
ghost use Rattle.lf_unify.specs.Runs.{Runs};
ghost use Rattle.lf_unify.specs.Tower as tower;
ghost use Rattle.lf_unify.specs.Values.{pattern};

use crate::change::assign;
use lf_core::{Binder, BinderKind, Expr, ExprNode, Level, Name, NoMemory};
use lf_meta::Metas;
use lf_steps::{Halt, abstracted, arguments, head, put};
use std::alloc::Global;

/// A metavariable and the distinct variables that it is applied to, by their numbers.
#[derive(Debug, Drop)]
pub struct Pattern {
    pub metavariable: u32,
    pub variables: Vec<u32>,
}

fn as_variable(term: &Expr) -> Option<u32>
    ensures { result ≡ forms.as_variable term.now }
{
    match term.node() {
        ExprNode::Free(k) => Some(*k),
        _ => None,
    }
}

fn as_metavariable(term: &Expr) -> Option<u32>
    ensures { result ≡ forms.as_metavariable term.now }
{
    match term.node() {
        ExprNode::Meta(k) => Some(*k),
        _ => None,
    }
}

fn is_one_of(k: u32, numbers: &[u32]) -> bool
    ensures { result ≡ spec.is_one_of k numbers.now }
{
    match numbers {
        [] => false,
        [j, rest @ ..] => *j == k || is_one_of(k, rest),
    }
}

// The numbers of these variables, where they are distinct variables.
fn distinct_variables(alloc: Global, terms: &[Expr]) -> Result<Option<Vec<u32>>, NoMemory>
    ensures { IfOk result (λ found. option_map (λ v. v.items) found ≡ spec.distinct_variables terms.now) }
{
    match terms {
        [] => Ok(Some(Vec::new(alloc))),
        [term, rest @ ..] => match distinct_variables(alloc, rest)? {
            Some(found) => with_distinct(as_variable(term), found),
            None => Ok(None),
        },
    }
}

// One more, where it is a variable and none of these.
fn with_distinct(number: Option<u32>, found: Vec<u32>) -> Result<Option<Vec<u32>>, NoMemory>
    ensures { IfOk result (λ all. option_map (λ v. v.items) all ≡ spec.with_distinct number (Some found.items)) }
{
    let mut all = found;
    match number {
        Some(k) => {
            if is_one_of(k, all.as_slice()) {
                return Ok(None);
            }
            all.insert(0, k)?;
            Ok(Some(all))
        }
        None => Ok(None),
    }
}

/// The pattern that the term is, where it is one.
pub fn pattern_of(alloc: Global, term: &Expr) -> Result<Option<Pattern>, NoMemory>
    ensures { IfOk result (λ found. option_map pattern found ≡ spec.pattern_of term.now) }
{
    match as_metavariable(head(term)) {
        Some(metavariable) => {
            let terms = arguments(alloc, term)?;
            match distinct_variables(alloc, terms.as_slice())? {
                Some(variables) => Ok(Some(Pattern {
                    metavariable,
                    variables,
                })),
                None => Ok(None),
            }
        }
        None => Ok(None),
    }
}

/// The type of this number, or `Prop` where there is none.
pub fn type_at(alloc: Global, types: &[Expr], number: u32) -> Result<Expr, NoMemory>
    ensures { IfOk result (λ t. t ≡ unwrap_or (slice_get types.now number) (sort level_zero)) }
{
    match types.get(number as usize) {
        Some(ty) => ty.copy(alloc),
        None => Expr::sort(alloc, Level::zero(alloc)?),
    }
}

fn plain_binder(alloc: Global) -> Result<Binder, NoMemory>
    ensures { IfOk result (λ x. x ≡ spec.plain_binder) }
{
    Ok(Binder {
        name: Name::one(alloc, "a")?,
        kind: BinderKind::Explicit,
    })
}

// The binder over a variable of a function of this type.
fn binder_in(alloc: Global, ty: &Expr) -> Result<Binder, NoMemory>
    ensures { IfOk result (λ x. x ≡ spec.binder_in (forms.as_pi ty.now)) }
{
    match ty.node() {
        ExprNode::Pi(binder, _, _) => binder.copy(alloc),
        _ => plain_binder(alloc),
    }
}

// The type behind one argument.
fn behind(ty: &Expr) -> &Expr
    ensures { result.now ≡ spec.behind ty.now (forms.as_pi ty.now) }
{
    match ty.node() {
        ExprNode::Pi(_, _, codomain) => codomain,
        _ => ty,
    }
}

// The term as a function of these variables, where the function has this type.
#[tactic(auto, using(lf_steps::proofs::Runs::halts))]
fn abstraction(
    alloc: Global,
    units: &mut u64,
    locals: &[Expr],
    ty: &Expr,
    variables: &[u32],
    term: &Expr,
) -> Result<Expr, Halt>
    ensures value { steps.Runs (tower.abstraction locals.now ty.now variables.now term.now units.old) result units.new }
    ensures calm { Calm result }
{
    match variables {
        [] => Ok(term.copy(alloc)?),
        [k, rest @ ..] => {
            let body = abstraction(alloc, units, locals, behind(ty), rest, term)?;
            let closed = abstracted(alloc, units, &body, *k as usize);
            drop(body);
            let closed = closed?;
            let binder = binder_in(alloc, ty)?;
            let domain = type_at(alloc, locals, *k)?;
            put(units, Expr::lam(alloc, binder, domain, closed)?)
        }
    }
}

/// The metavariable of the pattern is assigned the term as a function of the variables.
#[tactic(auto, using(crate::proofs::Runs::check_halts, crate::proofs::Patterns::abstraction_is), unfolding(crate::specs::Tower::assigned))]
pub fn assigned(
    alloc: Global,
    floor: usize,
    locals: &[Expr],
    units: &mut u64,
    metas: &mut Metas,
    found: &Pattern,
    term: &Expr,
) -> Result<bool, Halt>
    requires { floor ≤ length metas.old }
    ensures value { Runs (tower.assigned locals.now (pattern found.now) term.now units.old metas.old) result units.new metas.new }
    ensures floor { floor ≤ length metas.new }
    ensures below { take floor metas.new ≡ take floor metas.old }
    ensures calm { Calm result }
{
    let ty = type_at(alloc, metas.types(), found.metavariable)?;
    let value = abstraction(alloc, units, locals, &ty, found.variables.as_slice(), term);
    drop(ty);
    assign(floor, metas, found.metavariable, value?)
}
