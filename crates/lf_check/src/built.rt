//! Eta for structures: what is built by a constructor, before any nested call.
ghost use Rattle.std.specs.Prelude.{◌≡◌, IfOk, option_map, take, drop};
ghost use Rattle.lf_core.specs.Spine as spine;
ghost use Rattle.lf_core.specs.Term.{Term};
ghost use Rattle.lf_rules.specs.Environment.{Context};
ghost use Rattle.lf_checker.specs.Calls.{Calls};
ghost use Rattle.lf_checker.specs.Equal as spec;
ghost use Rattle.lf_steps.specs.Runs.{RunsAs, Calm};
ghost use Rattle.lf_steps.specs.Values as values;
ghost use Rattle.lf_check.specs.Forms as forms;
ghost use Rattle.lf_check.specs.Tower as tower;
ghost use Rattle.lf_check.specs.Values as own;

use lf_core::{ConstInfo, Detail, Expr, ExprNode, Level, Name, NoMemory};
use lf_env::View;
use lf_steps::{
    Halt, Seen, Structure, are_same, arguments, head, is_built, need, see, structure_of,
};
use std::alloc::Global;

/// A structure's constructor with all its arguments: the structure's name, what its declaration says, and the
/// constructor's levels and arguments.
#[derive(Drop)]
pub struct Built<'a> {
    pub name: &'a Name,
    pub structure: Structure<'a>,
    pub levels: &'a [Level],
    pub arguments: Vec<Expr>,
}

fn built_by<'a>(
    name: &'a Name,
    constructor: &Name,
    levels: &'a [Level],
    arguments: Vec<Expr>,
    structure: Option<Structure<'a>>,
) -> Option<Built<'a>>
    ensures { option_map own.built result ≡ spec.built_by name.now constructor.now levels.now arguments.items (option_map values.structure structure.entry) }
{
    match structure {
        Some(structure) => {
            if is_built(structure, constructor, arguments.as_slice()) {
                Some(Built {
                    name,
                    structure,
                    levels,
                    arguments,
                })
            } else {
                None
            }
        }
        None => None,
    }
}

fn built_detail<'a>(
    alloc: Global,
    view: &'a View,
    units: &mut u64,
    constructor: &Name,
    info: &'a ConstInfo,
    levels: &'a [Level],
    arguments: Vec<Expr>,
) -> Result<Option<Built<'a>>, Halt>
    ensures value { RunsAs (option_map own.built) (spec.built_detail view.now constructor.now levels.now arguments.items info.now.detail units.old) result
        units.new }
    ensures calm { Calm result }
{
    match &info.detail {
        Detail::Ctor { ind, .. } => {
            let structure = structure_of(alloc, view, units, ind)?;
            Ok(built_by(ind, constructor, levels, arguments, structure))
        }
        Detail::Plain | Detail::Ind { .. } | Detail::Rec { .. } => Ok(None),
    }
}

/// What the term is built by, where it is a structure's constructor with all its arguments.
#[tactic(auto, unfolding(crate::specs::Tower::built_of))]
pub fn built_of<'a>(
    alloc: Global,
    view: &'a View,
    units: &mut u64,
    term: &'a Expr,
) -> Result<Option<Built<'a>>, Halt>
    ensures value { RunsAs (option_map own.built) (tower.built_of view.now term.now units.old) result units.new }
    ensures calm { Calm result }
{
    match head(term).node() {
        ExprNode::Const(name, levels) => match see(alloc, view, name)? {
            Seen::Known(info) => {
                let all = arguments(alloc, term)?;
                built_detail(alloc, view, units, name, info, levels.as_slice(), all)
            }
            Seen::Unknown => Ok(None),
            Seen::Missing(key) => Err(need(units, key)),
        },
        _ => Ok(None),
    }
}

/// Whether the term is headed by the constant of this name.
pub fn is_headed(name: &Name, term: &Expr) -> bool
    ensures { result ≡ spec.is_headed name.now (spine.head_of term.now) }
{
    match head(term).node() {
        ExprNode::Const(constant, _) => constant.is(name),
        _ => false,
    }
}

fn fits(
    alloc: Global,
    built: &Built<'_>,
    name: &Name,
    levels: &[Level],
    params: &[Expr],
) -> Result<bool, NoMemory>
    ensures { IfOk result (λ r. r ≡ own.type_fits (own.built built.now) name.now levels.now params.now) }
{
    if name.is(built.name)
        && levels.len() == built.structure.levels
        && params.len() == built.structure.params as usize
    {
        are_same(alloc, built.levels, levels)
    } else {
        Ok(false)
    }
}

/// Whether the head of a type with these arguments is the structure with as many levels and parameters, at levels that
/// are the same.
#[tactic(auto, unfolding(crate::specs::Tower::eta_by))]
pub fn is_type_of(
    alloc: Global,
    built: &Built<'_>,
    head: &Expr,
    params: &[Expr],
) -> Result<bool, NoMemory>
    ensures { IfOk result (λ r. (c : Calls) (C : Context) (y : Term)
        → tower.eta_by c C (own.built built.now) y head.now params.now ≡ forms.if_fits c C (own.built built.now) y params.now r) }
{
    match head.node() {
        ExprNode::Const(name, levels) => fits(alloc, built, name, levels.as_slice(), params),
        _ => Ok(false),
    }
}

/// The arguments of the constructor before its fields.
pub fn params<'a>(built: &'a Built<'_>) -> &'a [Expr]
    ensures { result.now ≡ take built.now.structure.params built.now.arguments.items }
{
    let all = built.arguments.as_slice();
    &all[..(built.structure.params as usize).min(all.len())]
}

/// The fields among the arguments of the constructor.
pub fn fields<'a>(built: &'a Built<'_>) -> &'a [Expr]
    ensures { result.now ≡ drop built.now.structure.params built.now.arguments.items }
{
    let all = built.arguments.as_slice();
    &all[(built.structure.params as usize).min(all.len())..]
}
