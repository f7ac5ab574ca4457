//! Steps of inference that make no nested call.
ghost use Rattle.std.specs.Prelude.{◌≡◌, ◌++◌, [], Some, IfOk, slice_get};
ghost use Rattle.std.specs.Option.{option_copied};
ghost use Rattle.lf_core.specs.Spine as spine;
ghost use Rattle.lf_check.specs.Forms as forms;
ghost use Rattle.lf_core.specs.Term.{level_succ, level_imax, sort};
ghost use Rattle.lf_rules.specs.Structure.{projections};
ghost use Rattle.lf_rules.specs.Environment.{nat_type};
ghost use Rattle.lf_checker.specs.Calls.{see as spec_see};
ghost use Rattle.lf_checker.specs.declared.fault.TypeFault.TheVariants as fault;
ghost use Rattle.lf_checker.specs.Infer as spec;
ghost use Rattle.lf_checker.specs.Run as run;
ghost use Rattle.lf_steps.specs.Runs.{Runs, Calm};
ghost use Rattle.lf_steps.specs.Values as values;
ghost use Rattle.lf_check.specs.Values as own;

use crate::mode::Mode;
use lf_checker::TypeFault;
use lf_core::{Expr, ExprNode, Level, Name, NoMemory};
use lf_env::View;
use lf_steps::{
    Halt, Seen, Structure, arguments, at_levels, head, instance, need, put, refusal, see,
    structure_of,
};
use sqlite_items::at as item_at;
use std::alloc::Global;

fn of_context(alloc: Global, units: &mut u64, ty: Option<&Expr>) -> Result<Expr, Halt>
    ensures value { Runs (spec.of_context (option_copied ty.entry) units.old) result units.new }
    ensures calm { Calm result }
{
    let _left = *units;
    match ty {
        Some(ty) => Ok(ty.copy(alloc)?),
        None => Err(Halt::Refused(refusal(alloc, TypeFault::NotClosed))),
    }
}

/// The type of the variable of this place in the context.
pub fn of_variable(
    alloc: Global,
    units: &mut u64,
    locals: &[Expr],
    place: u32,
) -> Result<Expr, Halt>
    ensures value { Runs (spec.of_context (slice_get locals.now place) units.old) result units.new }
    ensures calm { Calm result }
{
    of_context(alloc, units, item_at(locals, place as usize))
}

/// The type of the metavariable of this number; where tests are made it is refused.
pub fn of_metavariable(
    alloc: Global,
    units: &mut u64,
    mode: Mode<'_>,
    number: u32,
) -> Result<Expr, Halt>
    ensures value { Runs (spec.of_metavariable (own.mode mode.entry) number units.old) result units.new }
    ensures calm { Calm result }
{
    match mode {
        Mode::Checked => of_context(alloc, units, None),
        Mode::Unchecked(types) => of_context(alloc, units, item_at(types, number as usize)),
    }
}

/// The type of a constant at these levels. It costs its nodes.
pub fn of_constant(
    alloc: Global,
    view: &View,
    units: &mut u64,
    name: &Name,
    levels: &[Level],
) -> Result<Expr, Halt>
    ensures value { Runs (spec.of_constant name.now levels.now (spec_see view.now name.now) units.old) result units.new }
    ensures calm { Calm result }
{
    match see(alloc, view, name)? {
        Seen::Known(info) => {
            if levels.len() == info.levels.len() {
                at_levels(alloc, units, levels, &info.ty)
            } else {
                let fault = TypeFault::Levels(name.copy(alloc)?);
                Err(Halt::Refused(refusal(alloc, fault)))
            }
        }
        Seen::Unknown => {
            let fault = TypeFault::Unknown(name.copy(alloc)?);
            Err(Halt::Refused(refusal(alloc, fault)))
        }
        Seen::Missing(key) => Err(need(units, key)),
    }
}

/// The sort of a sort.
pub fn of_sort(alloc: Global, units: &mut u64, level: &Level) -> Result<Expr, Halt>
    ensures value { Runs (run.put (sort (level_succ level.now)) units.old) result units.new }
    ensures calm { Calm result }
{
    let level = Level::succ(alloc, level.copy(alloc)?)?;
    put(units, Expr::sort(alloc, level)?)
}

/// The sort of a pi, from those of its domain and codomain.
pub fn of_pi(alloc: Global, units: &mut u64, domain: Level, codomain: Level) -> Result<Expr, Halt>
    ensures value { Runs (run.put (sort (level_imax domain codomain)) units.old) result units.new }
    ensures calm { Calm result }
{
    let level = Level::imax(alloc, domain, codomain)?;
    put(units, Expr::sort(alloc, level)?)
}

/// `Nat`, the type of a literal.
pub fn of_literal(alloc: Global) -> Result<Expr, NoMemory>
    ensures { IfOk result (λ t. t ≡ nat_type) }
{
    let name = Name::one(alloc, "Nat")?;
    Expr::constant(alloc, name, sqlite_items::Items::new(alloc))
}

/// The level of the sort `form`; else a refusal of what has the type `has`.
pub fn on_sort(alloc: Global, units: &mut u64, has: &Expr, form: &Expr) -> Result<Level, Halt>
    ensures value { Runs (spec.on_sort has.now form.now units.old) result units.new }
    ensures calm { Calm result }
{
    let _left = *units;
    match form.node() {
        ExprNode::Sort(level) => Ok(level.copy(alloc)?),
        _ => {
            let fault = TypeFault::NotType(has.copy(alloc)?);
            Err(Halt::Refused(refusal(alloc, fault)))
        }
    }
}

/// A refusal of what has this type as a function.
pub fn no_function(alloc: Global, units: &mut u64, has: &Expr) -> Result<Expr, Halt>
    ensures value { Runs (run.refuse (fault.NotFunction has.now) units.old) result units.new }
    ensures calm { Calm result }
{
    let _left = *units;
    let fault = TypeFault::NotFunction(has.copy(alloc)?);
    Err(Halt::Refused(refusal(alloc, fault)))
}

/// Nothing where the argument fits; else a refusal of its type where another is expected.
pub fn argument_fits(
    alloc: Global,
    units: &mut u64,
    fits: bool,
    has: &Expr,
    wanted: &Expr,
) -> Result<(), Halt>
    ensures value { Runs (run.choose fits (run.gives tt) (run.refuse (fault.Argument has.now wanted.now)) units.old) result units.new }
    ensures calm { Calm result }
{
    let _left = *units;
    if fits {
        return Ok(());
    }
    let fault = TypeFault::Argument(has.copy(alloc)?, wanted.copy(alloc)?);
    Err(Halt::Refused(refusal(alloc, fault)))
}

/// Nothing where the value fits; else a refusal of its type where another is expected.
pub fn value_fits(
    alloc: Global,
    units: &mut u64,
    fits: bool,
    has: &Expr,
    wanted: &Expr,
) -> Result<(), Halt>
    ensures value { Runs (run.choose fits (run.gives tt) (run.refuse (fault.Value has.now wanted.now)) units.old) result units.new }
    ensures calm { Calm result }
{
    let _left = *units;
    if fits {
        return Ok(());
    }
    let fault = TypeFault::Value(has.copy(alloc)?, wanted.copy(alloc)?);
    Err(Halt::Refused(refusal(alloc, fault)))
}

fn no_structure(alloc: Global, units: &mut u64, has: &Expr) -> Result<Expr, Halt>
    ensures value { Runs (run.refuse (fault.NotStructure has.now) units.old) result units.new }
    ensures calm { Calm result }
{
    let _left = *units;
    let fault = TypeFault::NotStructure(has.copy(alloc)?);
    Err(Halt::Refused(refusal(alloc, fault)))
}

// The domain of a pi.
fn domain(alloc: Global, units: &mut u64, has: &Expr, ty: &Expr) -> Result<Expr, Halt>
    ensures value { Runs (spec.domain_at has.now ty.now [] units.old) result units.new }
    ensures calm { Calm result }
{
    match ty.node() {
        ExprNode::Pi(_, domain, _) => Ok(domain.copy(alloc)?),
        _ => no_structure(alloc, units, has),
    }
}

fn codomain(ty: &Expr) -> Option<&Expr>
    ensures { option_copied result ≡ forms.codomain_of ty.now }
{
    match ty.node() {
        ExprNode::Pi(_, _, codomain) => Some(codomain),
        _ => None,
    }
}

// The domain that is left of a type of pis at these arguments.
fn domain_at(
    alloc: Global,
    units: &mut u64,
    has: &Expr,
    ty: &Expr,
    arguments: &[Expr],
) -> Result<Expr, Halt>
    ensures value { Runs (forms.along has.now ty.now arguments.now units.old) result units.new }
    ensures calm { Calm result }
{
    match arguments {
        [] => domain(alloc, units, has, ty),
        [y, rest @ ..] => match codomain(ty) {
            Some(body) => {
                let ty = instance(alloc, units, body, y)?;
                let domain = domain_at(alloc, units, has, &ty, rest);
                drop(ty);
                domain
            }
            None => no_structure(alloc, units, has),
        },
    }
}

// Puts the first `count` projections of a term at the end of the list.
fn with_projections(
    alloc: Global,
    all: Vec<Expr>,
    structure: &Name,
    count: u32,
    term: &Expr,
) -> Result<Vec<Expr>, NoMemory>
    ensures { IfOk result (λ more. more.items ≡ all.items ++ projections structure.now count term.now) }
{
    let mut more = all;
    let mut place = 0u32;
    'fields: while place < count {
        let structure = structure.copy(alloc)?;
        more.push(Expr::proj(alloc, structure, place, term.copy(alloc)?)?)?;
        place += 1;
    }
    Ok(more)
}

fn fits(structure: Structure<'_>, levels: &[Level], params: &[Expr], field: u32) -> bool
    ensures { result ≡ own.fits levels.now params.now field (values.structure structure.entry) }
{
    levels.len() == structure.levels
        && params.len() == structure.params as usize
        && field < structure.fields
}

#[tactic(auto, using(crate::proofs::Domains::along_is))]
fn of_structure(
    alloc: Global,
    units: &mut u64,
    has: &Expr,
    name: &Name,
    place: u32,
    term: &Expr,
    levels: &[Level],
    params: Vec<Expr>,
    structure: Structure<'_>,
) -> Result<Expr, Halt>
    ensures value { Runs (spec.of_structure has.now name.now place term.now levels.now params.items (Some (values.structure structure.entry)) units.old)
        result units.new }
    ensures calm { Calm result }
{
    if fits(structure, levels, params.as_slice(), place) {
        let ty = at_levels(alloc, units, levels, structure.ty)?;
        let all = with_projections(alloc, params, name, place, term)?;
        let domain = domain_at(alloc, units, has, &ty, all.as_slice());
        drop(ty);
        domain
    } else {
        no_structure(alloc, units, has)
    }
}

fn with_structure(
    alloc: Global,
    view: &View,
    units: &mut u64,
    has: &Expr,
    name: &Name,
    place: u32,
    term: &Expr,
    levels: &[Level],
    form: &Expr,
) -> Result<Expr, Halt>
    ensures value { Runs (forms.with_structure view.now has.now name.now place term.now levels.now (spine.arguments_of form.now) units.old) result units.new }
    ensures calm { Calm result }
{
    let params = arguments(alloc, form)?;
    match structure_of(alloc, view, units, name)? {
        Some(s) => of_structure(alloc, units, has, name, place, term, levels, params, s),
        None => no_structure(alloc, units, has),
    }
}

fn at_constant(
    alloc: Global,
    view: &View,
    units: &mut u64,
    has: &Expr,
    name: &Name,
    place: u32,
    term: &Expr,
    constant: &Name,
    levels: &[Level],
    form: &Expr,
) -> Result<Expr, Halt>
    ensures value { Runs (forms.at_constant view.now has.now name.now place term.now constant.now levels.now (spine.arguments_of form.now) units.old) result
        units.new }
    ensures calm { Calm result }
{
    if constant.is(name) {
        with_structure(alloc, view, units, has, name, place, term, levels, form)
    } else {
        no_structure(alloc, units, has)
    }
}

/// The type of the field `place` of `term`, whose type `has` has the weak head form `form`: `form` is the structure
/// `name` at its parameters. What is made costs its nodes.
pub fn on_structure(
    alloc: Global,
    view: &View,
    units: &mut u64,
    has: &Expr,
    name: &Name,
    place: u32,
    term: &Expr,
    form: &Expr,
) -> Result<Expr, Halt>
    ensures value { Runs (spec.on_structure view.now has.now name.now place term.now (spine.head_of form.now) (spine.arguments_of form.now) units.old) result
        units.new }
    ensures calm { Calm result }
{
    match head(form).node() {
        ExprNode::Const(constant, levels) => {
            let levels = levels.as_slice();
            at_constant(
                alloc, view, units, has, name, place, term, constant, levels, form,
            )
        }
        _ => no_structure(alloc, units, has),
    }
}
