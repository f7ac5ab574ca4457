//! Types of sorts, constants, variables and pis.
ghost use Rattle.std.specs.Prelude.{◌≡◌, ◌↔◌, IsTrue, ◌≤◌, ◌++◌, ◌∷◌, [], All, IfOk, Ok, length, option_copied, slice_get};
ghost use Rattle.lf_core.specs.Size as size;
ghost use Rattle.lf_core.specs.Substitution.{instantiate, level_instantiate};
ghost use Rattle.lf_core.specs.Term.{free};
ghost use Rattle.lf_rules.specs.Environment.{opened, with};
ghost use Rattle.lf_rules.specs.Judgment.{HasType};
ghost use Rattle.lf_core.specs.Scope.{Scoped};
ghost use Rattle.lf_front.specs.Infer as spec;
ghost use Rattle.lf_front.specs.Answers.{Tells, Answers, IfDone, IsShallow};

use crate::fault::{Halt, TypeFault};
use lf_core::{Ans, ConstInfo, Expr, ExprNode, Level, Name, NoMemory};
use lf_subst::{SubstFault, instantiate, level_inst};
use std::alloc::Global;

/// What a term is checked over: the constants, and the types of its free variables.
#[derive(Drop)]
pub struct CheckCx<'a> {
    pub consts: &'a [ConstInfo],
    pub locals: Vec<Expr>,
}

/// A pi's codomain with the next free variable for its variable.
fn open(alloc: Global, variable: u32, body: &Expr) -> Result<Expr, Halt>
    requires { size.depth body.now ≤ 1024 }
    ensures { Tells result (spec.made (instantiate body.now (free variable))) }
{
    let variable = Expr::free(alloc, variable)?;
    match instantiate(alloc, body, &variable, u64::MAX) {
        Ok((term, _)) => Ok(term),
        Err(SubstFault::TooDeep) => Err(Halt::Out),
        Err(_) => Err(Halt::NoMemory),
    }
}

/// A term at these levels.
fn at_levels(alloc: Global, levels: &[Level], term: &Expr) -> Result<Expr, Halt>
    requires { size.depth term.now ≤ 1024 }
    ensures { Tells result (spec.made (level_instantiate levels.now term.now)) }
{
    match level_inst(alloc, term, levels, u64::MAX) {
        Ok((term, _)) => Ok(term),
        Err(SubstFault::TooDeep) => Err(Halt::Out),
        Err(_) => Err(Halt::NoMemory),
    }
}

fn variable_type(alloc: Global, locals: &[Expr], k: u32) -> Result<Expr, Halt>
    ensures { Tells result (spec.variable_type (slice_get locals.now k)) }
{
    match locals.get(k as usize) {
        Some(ty) => Ok(ty.copy(alloc)?),
        None => Err(Halt::Refused(TypeFault::NotClosed)),
    }
}

/// The first constant of this name.
fn find_constant<'a>(consts: &'a [ConstInfo], name: &Name) -> Option<&'a ConstInfo>
    ensures { option_copied result ≡ spec.find_constant consts.now name.now }
{
    consts.iter().find(|c| name.is(&c.name))
}

fn constant_type(
    alloc: Global,
    consts: &[ConstInfo],
    name: &Name,
    levels: &[Level],
) -> Result<Expr, Halt>
    requires { All IsShallow consts.now }
    ensures { Tells result (spec.constant_type name.now levels.now (spec.find_constant consts.now name.now)) }
{
    let Some(found) = find_constant(consts, name) else {
        return Err(Halt::Refused(TypeFault::Unknown(name.copy(alloc)?)));
    };
    if levels.len() != found.levels.len() {
        return Err(Halt::Refused(TypeFault::Levels(name.copy(alloc)?)));
    }
    at_levels(alloc, levels, &found.ty)
}

/// The level of the sort that a type is.
fn sort_level(alloc: Global, ty: Expr) -> Result<Level, Halt>
    ensures { Tells result (spec.sort_level (Ok ty)) }
{
    match ty.node() {
        ExprNode::Sort(level) => Ok(level.copy(alloc)?),
        _ => Err(Halt::Refused(TypeFault::NotType(ty.copy(alloc)?))),
    }
}

fn imax_sort(alloc: Global, domain: &Level, codomain: Level) -> Result<Expr, Halt>
    ensures { Tells result (spec.imax_sort domain.now (Ok codomain)) }
{
    let level = Level::imax(alloc, domain.copy(alloc)?, codomain)?;
    Ok(Expr::sort(alloc, level)?)
}

fn copied(alloc: Global, locals: &[Expr]) -> Result<Vec<Expr>, NoMemory>
    ensures { IfOk result (λ all. all.items ≡ locals.now) }
{
    let mut all = Vec::new(alloc);
    for local in locals {
        all.push(local.copy(alloc)?)?;
    }
    Ok(all)
}

/// The context with one more variable.
fn with(alloc: Global, locals: &[Expr], ty: &Expr) -> Result<Vec<Expr>, NoMemory>
    ensures { IfOk result (λ all. all.items ≡ with locals.now ty.now) }
{
    let mut all = copied(alloc, locals)?;
    all.push(ty.copy(alloc)?)?;
    Ok(all)
}

/// The type of a term, with so many nested calls left.
#[cycle(types)]
fn type_at(
    alloc: Global,
    consts: &[ConstInfo],
    locals: &[Expr],
    depth: u32,
    term: &Expr,
) -> Result<Expr, Halt>
    requires shallow { All IsShallow consts.now }
    requires term { size.depth term.now ≤ 1024 }
    ensures { Tells result (spec.type_at depth consts.now locals.now term.now) }
{
    if depth == 0 {
        return Err(Halt::Out);
    }
    form_type(alloc, consts, locals, depth - 1, term)
}

#[cycle(types)]
fn form_type(
    alloc: Global,
    consts: &[ConstInfo],
    locals: &[Expr],
    depth: u32,
    term: &Expr,
) -> Result<Expr, Halt>
    requires shallow { All IsShallow consts.now }
    requires term { size.depth term.now ≤ 1024 }
    ensures { Tells result (spec.form_type (spec.type_at depth consts.now) consts.now locals.now term.now) }
{
    match term.node() {
        ExprNode::Free(k) => variable_type(alloc, locals, *k),
        ExprNode::Sort(l) => {
            let level = Level::succ(alloc, l.copy(alloc)?)?;
            Ok(Expr::sort(alloc, level)?)
        }
        ExprNode::Const(name, levels) => constant_type(alloc, consts, name, levels.as_slice()),
        ExprNode::Pi(_, domain, body) => pi_type(alloc, consts, locals, depth, domain, body),
        ExprNode::Bound(_) | ExprNode::Meta(_) => Err(Halt::Refused(TypeFault::NotClosed)),
        ExprNode::App(_, _)
        | ExprNode::Lam(_, _, _)
        | ExprNode::Let(_, _, _, _)
        | ExprNode::Lit(_)
        | ExprNode::Proj(_, _, _) => { Err(Halt::Refused(TypeFault::NotBuilt)) }
    }
}

#[cycle(types)]
fn pi_type(
    alloc: Global,
    consts: &[ConstInfo],
    locals: &[Expr],
    depth: u32,
    domain: &Expr,
    body: &Expr,
) -> Result<Expr, Halt>
    requires shallow { All IsShallow consts.now }
    requires domain { size.depth domain.now ≤ 1024 }
    requires body { size.depth body.now ≤ 1024 }
    ensures { Tells result (spec.pi_type (spec.type_at depth consts.now) locals.now domain.now body.now
        (spec.sort_level (spec.type_at depth consts.now locals.now domain.now))) }
{
    let ty = type_at(alloc, consts, locals, depth, domain)?;
    let level = sort_level(alloc, ty)?;
    let ty = codomain_type(alloc, consts, locals, depth, domain, body)?;
    imax_sort(alloc, &level, sort_level(alloc, ty)?)
}

/// The type of a pi's codomain, in the context with its variable.
#[cycle(types)]
fn codomain_type(
    alloc: Global,
    consts: &[ConstInfo],
    locals: &[Expr],
    depth: u32,
    domain: &Expr,
    body: &Expr,
) -> Result<Expr, Halt>
    requires shallow { All IsShallow consts.now }
    requires body { size.depth body.now ≤ 1024 }
    ensures { Tells result (spec.inside (spec.type_at depth consts.now) locals.now domain.now (spec.made (opened locals.now body.now))) }
{
    let Ok(variable) = u32::try_from(locals.len()) else {
        return Err(Halt::NoMemory);
    };
    let body = open(alloc, variable, body)?;
    let all = with(alloc, locals, domain)?;
    let ty = type_at(alloc, consts, all.as_slice(), depth, &body);
    drop(body);
    ty
}

/// The type of `term`: by the context for a variable, the next sort for a sort, the declared type at its levels for a constant, the sort
/// of `imax` for a pi. Refused with `Unknown`, `Levels`, `NotType` and `NotClosed` as they say, and with `NotBuilt` for the other forms. Out
/// where more than 512 calls are nested or a term is made that is deeper than 1,024.
pub fn infer(alloc: Global, cx: &mut CheckCx<'_>, term: &Expr) -> Ans<Expr, TypeFault>
    requires shallow { All IsShallow cx.old.consts.now }
    requires term { size.depth term.now ≤ 1024 }
    ensures value { Answers result (spec.type_of cx.old.consts.now cx.old.locals.items term.now) }
    ensures typed { Scoped 0 (length cx.old.locals.items) term.now → IfDone result (HasType cx.old.consts.now cx.old.locals.items term.now) }
    ensures same { cx.new ≡ cx.old }
{
    match type_at(alloc, cx.consts, cx.locals.as_slice(), 512, term) {
        Ok(ty) => Ans::Done(ty),
        Err(Halt::Refused(fault)) => Ans::Refused(fault),
        Err(Halt::Out) => Ans::Out,
        Err(Halt::NoMemory) => Ans::NoMemory,
    }
}

/// Whether no constant has a type that is deeper than 1,024, as `infer` asks.
pub fn is_shallow(consts: &[ConstInfo]) -> bool
    ensures { IsTrue result ↔ All IsShallow consts.now }
{
    consts.iter().all(|c| c.ty.depth() <= 1024)
}
