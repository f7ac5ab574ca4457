//! The recursor of a declaration: its type, and its rules.
ghost use Rattle.std.specs.Prelude.{◌≡◌, ◌∷◌, ◌++◌, length, IfOk, OnOk, if◌then◌else◌};
ghost use Rattle.lf_rules.specs.Recursor as spec;
ghost use Rattle.lf_recursor.specs.Values.{family_of, called_of, Shares};

use crate::family::{Case, Family, opened_family};
use crate::minors::{at_innermost, is_recursive, major, motive, push_indices, push_locals, shared};
use crate::names::{motive_level_name, parameters_from};
use crate::telescope::{
    Local, count, lambdas_over, open_all, pi_count, pis_over, push_of_kind, push_variables,
};
use lf_core::{
    BinderKind, ConstInfo, ConstKind, Detail, Expr, ExprNode, IndDecl, Level, Name, NoMemory,
    copy_all,
};
use lf_steps::apply;
use sqlite_items::Items;
use std::alloc::Global;

/// The recursor as its rules call it.
#[derive(Debug, Drop)]
pub struct Called {
    pub name: Name,
    pub levels: Items<Level>,
}

/// What the recursor's type and rules are made of: the declaration in the recursor's levels, the level of the motive's sort,
/// and the parameters, motive and minor premises.
#[derive(Debug, Drop)]
pub struct Scheme {
    pub family: Family,
    pub level: Level,
    pub shared: Vec<Local>,
    pub called: Called,
}

/// The recursor's type.
fn recursor_type(alloc: Global, scheme: &Scheme) -> Result<Expr, NoMemory>
    requires { Shares scheme.now }
    ensures { IfOk result (λ t. t ≡ spec.recursor_type (family_of scheme.now.family) scheme.now.level) }
{
    let first = count(scheme.shared.as_slice())?;
    let indices = open_all(alloc, first, &scheme.family.rest)?.locals;
    let mut telescope = Vec::new(alloc);
    push_locals(&mut telescope, scheme.shared.as_slice())?;
    push_of_kind(&mut telescope, BinderKind::Implicit, indices.as_slice())?;
    telescope.push(major(alloc, &scheme.family, first, indices.as_slice())?)?;
    let mut places = Vec::new(alloc);
    push_variables(&mut places, first, indices.as_slice())?;
    let indices = count(indices.as_slice())?;
    let member = first.checked_add(indices).ok_or(NoMemory)?;
    places.push(Expr::free(alloc, member)?)?;
    let end = apply(alloc, motive(alloc, &scheme.family)?, places.as_slice())?;
    pis_over(alloc, 0, telescope.as_slice(), end)
}

// What the recursor gives for the field `x` under all pis of its type, of which `n` are passed.
fn recursive_call(
    alloc: Global,
    scheme: &Scheme,
    x: &Expr,
    n: u32,
    ty: &Expr,
) -> Result<Expr, NoMemory>
    requires { Shares scheme.now }
    ensures { IfOk result (λ t. t ≡ spec.recursive_call (family_of scheme.now.family) scheme.now.level (called_of scheme.now.called) x.now n ty.now) }
{
    match ty.node() {
        ExprNode::Pi(z, a, b) => {
            let next = n.checked_add(1).ok_or(NoMemory)?;
            let under = recursive_call(alloc, scheme, x, next, b)?;
            Expr::lam(alloc, z.copy(alloc)?, a.copy(alloc)?, under)
        }
        _ => {
            let mut places = Vec::new(alloc);
            push_variables(&mut places, 0, scheme.shared.as_slice())?;
            push_indices(&mut places, &scheme.family, ty)?;
            places.push(at_innermost(alloc, x, n)?)?;
            let levels = copy_all(alloc, scheme.called.levels.as_slice())?;
            let name = scheme.called.name.copy(alloc)?;
            let constant = Expr::constant(alloc, name, levels)?;
            apply(alloc, constant, places.as_slice())
        }
    }
}

// Puts what the recursor gives for the recursive ones of fields that begin at `i` behind `all`.
fn push_recursive_calls(
    all: &mut Vec<Expr>,
    scheme: &Scheme,
    i: u32,
    fields: &[Local],
) -> Result<(), NoMemory>
    requires { Shares scheme.now }
    ensures { OnOk result (all.new.items ≡ all.old.items ++ spec.recursive_calls (family_of scheme.now.family) scheme.now.level (called_of scheme.now.called)
        i fields.now) }
{
    let alloc = *all.allocator();
    match fields {
        [] => Ok(()),
        [x, xs @ ..] => {
            if is_recursive(&scheme.family, &x.ty) {
                let field = Expr::free(alloc, i)?;
                all.push(recursive_call(alloc, scheme, &field, 0, &x.ty)?)?;
            }
            let next = i.checked_add(1).ok_or(NoMemory)?;
            push_recursive_calls(all, scheme, next, xs)
        }
    }
}

// The rule of the constructor whose minor premise is the variable `m`.
fn rule(alloc: Global, scheme: &Scheme, m: u32, case: &Case) -> Result<Expr, NoMemory>
    requires { Shares scheme.now }
    ensures { IfOk result (λ t. t ≡ spec.rule (family_of scheme.now.family) scheme.now.level (called_of scheme.now.called) m case.now) }
{
    let first = count(scheme.shared.as_slice())?;
    let fields = open_all(alloc, first, &case.body)?.locals;
    let mut places = Vec::new(alloc);
    push_variables(&mut places, first, fields.as_slice())?;
    push_recursive_calls(&mut places, scheme, first, fields.as_slice())?;
    let body = apply(alloc, Expr::free(alloc, m)?, places.as_slice())?;
    let mut telescope = Vec::new(alloc);
    push_locals(&mut telescope, scheme.shared.as_slice())?;
    push_locals(&mut telescope, fields.as_slice())?;
    lambdas_over(alloc, 0, telescope.as_slice(), body)
}

// Puts the rules of constructors whose minor premises are the variables from `m` on behind `all`.
fn push_rules(
    alloc: Global,
    all: &mut Items<Expr>,
    scheme: &Scheme,
    m: u32,
    cases: &[Case],
) -> Result<(), NoMemory>
    requires { Shares scheme.now }
    ensures { OnOk result (all.new ≡ all.old ++ spec.rules (family_of scheme.now.family) scheme.now.level (called_of scheme.now.called) m cases.now) }
{
    match cases {
        [] => Ok(()),
        [c, cs @ ..] => {
            all.push(rule(alloc, scheme, m, c)?)?;
            let next = m.checked_add(1).ok_or(NoMemory)?;
            push_rules(alloc, all, scheme, next, cs)
        }
    }
}

// The recursor's level parameters; the motive's comes first, where the type eliminates into every sort.
fn recursor_levels(alloc: Global, levels: &[Name], large: bool) -> Result<Items<Name>, NoMemory>
    ensures { IfOk result (λ ns. ns ≡ (if large then spec.motive_level_name levels.now ∷ levels.now else levels.now)) }
{
    let mut all = Items::new(alloc);
    if large {
        all.push(motive_level_name(alloc, levels)?)?;
    }
    push_names(alloc, &mut all, levels)?;
    Ok(all)
}

fn push_names(alloc: Global, all: &mut Items<Name>, names: &[Name]) -> Result<(), NoMemory>
    ensures { OnOk result (all.new ≡ all.old ++ names.now) }
{
    match names {
        [] => Ok(()),
        [n, ns @ ..] => {
            all.push(n.copy(alloc)?)?;
            push_names(alloc, all, ns)
        }
    }
}

fn motive_level(alloc: Global, large: bool) -> Result<Level, NoMemory>
    ensures { IfOk result (λ l. l ≡ spec.motive_level large) }
{
    if large {
        Level::param(alloc, 0)
    } else {
        Level::zero(alloc)
    }
}

// What the recursor is made of; `levels` are its level parameters.
fn scheme_of(alloc: Global, decl: &IndDecl, large: bool, levels: usize) -> Result<Scheme, NoMemory>
    requires { levels ≡ length (spec.recursor_levels decl.now large) }
    ensures family { IfOk result (λ s. family_of s.family ≡ spec.recursor_family decl.now large) }
    ensures level { IfOk result (λ s. s.level ≡ spec.motive_level large) }
    ensures called { IfOk result (λ s. called_of s.called ≡ spec.recursor_called decl.now large) }
    ensures shared { IfOk result Shares }
{
    let first = if large { 1 } else { 0 };
    let own = parameters_from(alloc, first, decl.levels.len())?;
    let family = opened_family(alloc, own.as_slice(), decl)?;
    let level = motive_level(alloc, large)?;
    let shared = shared(alloc, &family, &level)?;
    let name = decl.name.child(alloc, "rec")?;
    let levels = parameters_from(alloc, 0, levels)?;
    Ok(Scheme {
        family,
        level,
        shared,
        called: Called { name, levels },
    })
}

/// The recursor of a declaration; `large` says that it eliminates into every sort.
pub fn recursor_of(alloc: Global, decl: &IndDecl, large: bool) -> Result<ConstInfo, NoMemory>
    ensures { IfOk result (λ c. c ≡ spec.recursor_of decl.now large) }
{
    let levels = recursor_levels(alloc, decl.levels.as_slice(), large)?;
    let scheme = scheme_of(alloc, decl, large, levels.len())?;
    let first = decl.params.checked_add(1).ok_or(NoMemory)?;
    let mut rules = Items::new(alloc);
    push_rules(
        alloc,
        &mut rules,
        &scheme,
        first,
        scheme.family.cases.as_slice(),
    )?;
    let minors = u32::try_from(scheme.family.cases.len()).map_err(|_| NoMemory)?;
    let indices = pi_count(&scheme.family.rest).ok_or(NoMemory)?;
    Ok(ConstInfo {
        name: scheme.called.name.copy(alloc)?,
        kind: ConstKind::Recursor,
        levels,
        ty: recursor_type(alloc, &scheme)?,
        value: None,
        height: 0,
        detail: Detail::Rec {
            ind: decl.name.copy(alloc)?,
            params: decl.params,
            minors,
            indices,
            rules,
        },
    })
}
