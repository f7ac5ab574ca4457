//! Values that are a recursor at the last of their binders.
ghost use Rattle.std.specs.Prelude.{◌≡◌, drop, option_map, IfOk};
ghost use Rattle.lf_core.specs.Same.{same};
ghost use Rattle.lf_core.specs.Term.{free};
ghost use Rattle.lf_elaboration.specs.CaseEquation as spec;
ghost use Rattle.lf_elaboration.specs.Induction as induction;
ghost use Rattle.lf_items.specs.Values.{instance};
ghost use Rattle.lf_case_equation.specs.Values.{recursion, recursion_at, is_at_last};

use lf_core::{Detail, Expr, ExprNode, Level, Name, NoMemory};
use lf_items::{Instance, behind, first};
use lf_recursor::Local;

/// `fun bs x => I.rec ps M minors x`, where x stands nowhere else: the binders are those before x.
#[derive(Clone, Copy)]
pub struct Recursion<'a> {
    pub binders: &'a [Local],
    pub ind: &'a Name,
    pub levels: &'a [Level],
    pub params: &'a [Expr],
    pub minors: &'a [Expr],
}

// Whether the variable stands in the term. A part without variables of its number or a later one isn't walked.
#[tactic(auto, using(crate::proofs::Speaks::silent))]
fn speaks_of(k: u32, term: &Expr) -> bool
    ensures { result ≡ induction.speaks_of k term.now }
{
    if term.free_bound() <= k {
        return false;
    }
    match term.node() {
        ExprNode::Free(j) => *j == k,
        ExprNode::App(f, a) => speaks_of(k, f) || speaks_of(k, a),
        ExprNode::Lam(_, a, b) | ExprNode::Pi(_, a, b) => speaks_of(k, a) || speaks_of(k, b),
        ExprNode::Let(_, a, v, b) => { speaks_of(k, a) || (speaks_of(k, v) || speaks_of(k, b)) }
        ExprNode::Proj(_, _, t) => speaks_of(k, t),
        ExprNode::Bound(_)
        | ExprNode::Meta(_)
        | ExprNode::Sort(_)
        | ExprNode::Const(_, _)
        | ExprNode::Lit(_) => false,
    }
}

// Whether the variable stands in none of the terms.
fn none_speaks(k: u32, terms: &[Expr]) -> bool
    ensures { result ≡ spec.none_speaks k terms.now }
{
    match terms {
        [] => true,
        [t, ts @ ..] => !speaks_of(k, t) && none_speaks(k, ts),
    }
}

// Whether the term is this variable.
fn is_variable(k: u32, term: &Expr) -> bool
    ensures { result ≡ same term.now (free k) }
{
    match term.node() {
        ExprNode::Free(j) => *j == k,
        ExprNode::Bound(_)
        | ExprNode::Meta(_)
        | ExprNode::Sort(_)
        | ExprNode::Const(_, _)
        | ExprNode::App(_, _)
        | ExprNode::Lam(_, _, _)
        | ExprNode::Pi(_, _, _)
        | ExprNode::Let(_, _, _, _)
        | ExprNode::Lit(_)
        | ExprNode::Proj(_, _, _) => false,
    }
}

// Whether the argument behind the first `n` is the last of all, the variable of this number, and stands nowhere before.
#[tactic(auto, using(crate::proofs::Fronts::too_few, crate::proofs::Fronts::too_many, crate::proofs::Fronts::as_many))]
fn is_at(last: u32, arguments: &[Expr], n: usize) -> bool
    ensures { result ≡ is_at_last last arguments.now n }
{
    match arguments.get(n) {
        None => false,
        Some(argument) => {
            if arguments.len() - 1 != n {
                return false;
            }
            is_variable(last, argument) && none_speaks(last, first(n, arguments))
        }
    }
}

// The locals but the last.
#[tactic(auto, using(crate::proofs::Fronts::front_is))]
fn all_but_last(locals: &[Local]) -> &[Local]
    ensures { result.now ≡ spec.all_but_last locals.now }
{
    &locals[..locals.len().saturating_sub(1)]
}

// The levels behind the first `n`.
fn levels_behind(n: usize, levels: &[Level]) -> &[Level]
    ensures { result.now ≡ drop n levels.now }
{
    &levels[n.min(levels.len())..]
}

// The same of the recursor of this inductive type, which has no indices.
fn at_recursor<'a>(
    locals: &'a [Local],
    head: Instance<'a>,
    arguments: &'a [Expr],
    extra: usize,
    ind: &'a Name,
    params: u32,
    minors: u32,
) -> Result<Option<Recursion<'a>>, NoMemory>
    ensures { IfOk result (λ r. option_map recursion r ≡ recursion_at locals.now (instance head.entry) arguments.now extra ind.now params minors) }
{
    if locals.is_empty() {
        return Ok(None);
    }
    let last = u32::try_from(locals.len() - 1).map_err(|_| NoMemory)?;
    let before = params as usize + 1 + minors as usize;
    if !is_at(last, arguments, before) {
        return Ok(None);
    }
    Ok(Some(Recursion {
        binders: all_but_last(locals),
        ind,
        levels: levels_behind(extra, head.levels),
        params: first(params as usize, arguments),
        minors: first(minors as usize, behind(params as usize + 1, arguments)),
    }))
}

/// What a value under these binders is: its head, a constant with this detail, at these arguments; `extra` is how many
/// levels the head has before those of the inductive type. `None` where it isn't a recursor without indices at the last
/// binder, which stands nowhere else.
#[tactic(auto, using(crate::proofs::Fronts::with_indices))]
pub fn recursion_by<'a>(
    locals: &'a [Local],
    head: Instance<'a>,
    arguments: &'a [Expr],
    extra: usize,
    detail: &'a Detail,
) -> Result<Option<Recursion<'a>>, NoMemory>
    ensures { IfOk result (λ r. option_map recursion r ≡ spec.recursion_by locals.now (instance head.entry) arguments.now extra detail.now) }
{
    match detail {
        Detail::Rec {
            ind,
            params,
            minors,
            indices,
            ..
        } => {
            if *indices > 0 {
                return Ok(None);
            }
            at_recursor(locals, head, arguments, extra, ind, *params, *minors)
        }
        Detail::Plain | Detail::Ind { .. } | Detail::Ctor { .. } => Ok(None),
    }
}
