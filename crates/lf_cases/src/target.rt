//! The local that induction is on: of an inductive type whose indices are distinct variables on which no other depends.
ghost use Rattle.std.specs.Prelude.{◌≡◌, Some, IfOk, option_map, length};
ghost use Rattle.lf_core.specs.Spine as spine;
ghost use Rattle.lf_elaboration.specs.Forms as forms;
ghost use Rattle.lf_elaboration.specs.Induction as spec;
ghost use Rattle.lf_elaboration.specs.Unifier as unifier;
ghost use Rattle.lf_cases.specs.Parts as parts;
ghost use Rattle.lf_cases.specs.Values as values;
ghost use Rattle.lf_items.specs.Values as items;
ghost use Rattle.lf_steps.specs.Runs.{RunsAs, Calm};

use lf_core::{ConstInfo, Detail, Expr, ExprNode, Name, NoMemory};
use lf_env::View;
use lf_items::{Instance, as_constant, as_variable, behind, first};
use lf_steps::{Halt, Seen, head, need, see};
use std::alloc::Global;

/// The local, and its type at these levels, parameters and indices, which are variables; the type's constructors, and
/// whether it eliminates into every sort.
#[derive(Drop)]
pub struct Target<'a> {
    pub local: u32,
    pub constant: Instance<'a>,
    pub params: &'a [Expr],
    pub indices: Vec<u32>,
    pub constructors: &'a [Name],
    pub large: bool,
}

fn is_one_of(k: u32, numbers: &[u32]) -> bool
    ensures { result ≡ unifier.is_one_of k numbers.now }
{
    match numbers {
        [] => false,
        [j, rest @ ..] => *j == k || is_one_of(k, rest),
    }
}

// One more, where it is a variable and none of these.
fn with_distinct(number: Option<u32>, found: Vec<u32>) -> Result<Option<Vec<u32>>, NoMemory>
    ensures { IfOk result (λ all. option_map (λ v. v.items) all ≡ unifier.with_distinct number (Some found.items)) }
{
    let mut all = found;
    match number {
        Some(k) => {
            if is_one_of(k, all.as_slice()) {
                return Ok(None);
            }
            all.insert(0, k)?;
            Ok(Some(all))
        }
        None => Ok(None),
    }
}

// The numbers of these variables, where they are distinct variables.
fn distinct_variables(alloc: Global, terms: &[Expr]) -> Result<Option<Vec<u32>>, NoMemory>
    ensures { IfOk result (λ found. option_map (λ v. v.items) found ≡ unifier.distinct_variables terms.now) }
{
    match terms {
        [] => Ok(Some(Vec::new(alloc))),
        [term, rest @ ..] => match distinct_variables(alloc, rest)? {
            Some(found) => with_distinct(as_variable(term), found),
            None => Ok(None),
        },
    }
}

// Whether the variable stands in the term. A part without variables of its number or a later one isn't walked.
#[tactic(auto, using(crate::proofs::Speaks::silent))]
fn speaks_of(k: u32, term: &Expr) -> bool
    ensures { result ≡ spec.speaks_of k term.now }
{
    if term.free_bound() <= k {
        return false;
    }
    match term.node() {
        ExprNode::Free(j) => *j == k,
        ExprNode::App(f, a) => speaks_of(k, f) || speaks_of(k, a),
        ExprNode::Lam(_, a, b) | ExprNode::Pi(_, a, b) => speaks_of(k, a) || speaks_of(k, b),
        ExprNode::Let(_, a, v, b) => { speaks_of(k, a) || (speaks_of(k, v) || speaks_of(k, b)) }
        ExprNode::Proj(_, _, t) => speaks_of(k, t),
        ExprNode::Bound(_)
        | ExprNode::Meta(_)
        | ExprNode::Sort(_)
        | ExprNode::Const(_, _)
        | ExprNode::Lit(_) => false,
    }
}

fn speaks_of_some(numbers: &[u32], term: &Expr) -> bool
    ensures { result ≡ spec.speaks_of_some numbers.now term.now }
{
    match numbers {
        [] => false,
        [k, rest @ ..] => speaks_of(*k, term) || speaks_of_some(rest, term),
    }
}

// Whether the local of number `i` is the local `x` itself, an index, or of a type that speaks of no index.
fn is_independent(x: u32, indices: &[u32], i: u32, ty: &Expr) -> bool
    ensures { result ≡ parts.is_independent x indices.now i ty.now }
{
    i == x || (is_one_of(i, indices) || !speaks_of_some(indices, ty))
}

// Whether of the locals none depends on the indices, but the indices and the local `x` itself.
#[tactic(auto, using(crate::proofs::Speaks::one_dependent, crate::proofs::Speaks::one_independent, crate::proofs::Speaks::none_left))]
fn none_depends(x: u32, indices: &[u32], locals: &[Expr]) -> Result<bool, NoMemory>
    ensures { IfOk result (λ b. b ≡ spec.none_depends x indices.now 0 locals.now) }
{
    let count = u32::try_from(locals.len()).map_err(|_| NoMemory)?;
    let mut number = 0u32;
    'locals: while number < count {
        if !is_independent(x, indices, number, &locals[number as usize]) {
            return Ok(false);
        }
        number += 1;
    }
    Ok(true)
}

// The target whose type has these indices.
fn at_indices<'a>(
    locals: &[Expr],
    local: u32,
    constant: Instance<'a>,
    params: &'a [Expr],
    indices: Vec<u32>,
    constructors: &'a [Name],
    large: bool,
) -> Result<Option<Target<'a>>, NoMemory>
    ensures { IfOk result (λ t. option_map values.target t ≡ parts.target_at locals.now local (items.instance constant.entry) params.now indices.items
        constructors.now large) }
{
    if is_one_of(local, indices.as_slice()) || !none_depends(local, indices.as_slice(), locals)? {
        drop(indices);
        return Ok(None);
    }
    Ok(Some(Target {
        local,
        constant,
        params,
        indices,
        constructors,
        large,
    }))
}

// The target of a constant at these arguments, of which this is known.
fn target_known<'a>(
    alloc: Global,
    locals: &[Expr],
    local: u32,
    constant: Instance<'a>,
    given: &'a [Expr],
    info: &'a ConstInfo,
) -> Result<Option<Target<'a>>, NoMemory>
    ensures { IfOk result (λ t. option_map values.target t ≡ spec.target_detail locals.now local (items.instance constant.entry) given.now
        (length info.now.levels) info.now.detail) }
{
    match &info.detail {
        Detail::Ind {
            params,
            indices,
            ctors,
            large,
        } => {
            let count = *params as usize + *indices as usize;
            if constant.levels.len() != info.levels.len() || given.len() != count {
                return Ok(None);
            }
            let before = *params as usize;
            match distinct_variables(alloc, behind(before, given))? {
                None => Ok(None),
                Some(found) => {
                    let own = first(before, given);
                    at_indices(
                        locals,
                        local,
                        constant,
                        own,
                        found,
                        ctors.as_slice(),
                        *large,
                    )
                }
            }
        }
        Detail::Plain | Detail::Ctor { .. } | Detail::Rec { .. } => Ok(None),
    }
}

/// The target of the local of number `local`, of whose type this is the weak head form, at these arguments; None where it
/// is none. Need where the view doesn't tell the type yet, and NoMemory; no other halt.
pub fn target_of<'a>(
    alloc: Global,
    view: &'a View,
    units: &mut u64,
    locals: &[Expr],
    local: u32,
    form: &'a Expr,
    given: &'a [Expr],
) -> Result<Option<Target<'a>>, Halt>
    ensures value { RunsAs (option_map values.target) (spec.target_of view.now locals.now local (forms.as_constant (spine.head_of form.now)) given.now
        units.old) result units.new }
    ensures calm { Calm result }
{
    match as_constant(head(form)) {
        None => Ok(None),
        Some(constant) => match see(alloc, view, constant.name)? {
            Seen::Known(info) => Ok(target_known(alloc, locals, local, constant, given, info)?),
            Seen::Unknown => Ok(None),
            Seen::Missing(key) => Err(need(units, key)),
        },
    }
}
