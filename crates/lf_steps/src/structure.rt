//! Structures: what the view tells of the type and of its constructor.
ghost use Rattle.std.specs.Prelude.{◌≡◌, Some, option_map};
ghost use Rattle.lf_rules.specs.Structure.{result_level};
ghost use Rattle.lf_checker.specs.Calls.{see};
ghost use Rattle.lf_checker.specs.Extends.{shape_of};
ghost use Rattle.lf_checker.specs.Structures as spec;
ghost use Rattle.lf_steps.specs.Runs.{RunsAs, Calm};
ghost use Rattle.lf_steps.specs.Values as values;

use crate::halt::{Halt, need};
use crate::seen::{Seen, see};
use lf_core::{ConstInfo, Detail, Expr, ExprNode, Level, LevelNode, Name};
use lf_env::View;
use std::alloc::Global;

/// A structure, with what its declaration says of its constructor. `levels` is the number of the type's levels.
#[derive(Clone, Copy)]
pub struct Structure<'a> {
    pub constructor: &'a Name,
    pub ty: &'a Expr,
    pub levels: usize,
    pub params: u32,
    pub fields: u32,
}

fn mentions(name: &Name, term: &Expr) -> bool
    ensures { result ≡ spec.mentions name.now term.now }
{
    match term.node() {
        ExprNode::Const(constant, _) => constant.is(name),
        ExprNode::App(f, a) => mentions(name, f) || mentions(name, a),
        ExprNode::Lam(_, a, b) | ExprNode::Pi(_, a, b) => mentions(name, a) || mentions(name, b),
        ExprNode::Let(_, a, v, b) => {
            mentions(name, a) || (mentions(name, v) || mentions(name, b))
        }
        ExprNode::Proj(structure, _, t) => structure.is(name) || mentions(name, t),
        ExprNode::Bound(_)
        | ExprNode::Free(_)
        | ExprNode::Meta(_)
        | ExprNode::Sort(_)
        | ExprNode::Lit(_) => false,
    }
}

// Whether behind so many parameters no field's type names the structure.
#[tactic(auto, using(crate::proofs::Structures::at_field, crate::proofs::Structures::at_parameter))]
fn fields_without(name: &Name, params: u32, ty: &Expr) -> bool
    ensures { result ≡ spec.fields_without name.now params ty.now }
{
    match ty.node() {
        ExprNode::Pi(_, a, b) => {
            if params == 0 {
                !mentions(name, a) && fields_without(name, 0, b)
            } else {
                fields_without(name, params - 1, b)
            }
        }
        ExprNode::Bound(_)
        | ExprNode::Free(_)
        | ExprNode::Meta(_)
        | ExprNode::Sort(_)
        | ExprNode::Const(_, _)
        | ExprNode::App(_, _)
        | ExprNode::Lam(_, _, _)
        | ExprNode::Let(_, _, _, _)
        | ExprNode::Lit(_)
        | ExprNode::Proj(_, _, _) => true,
    }
}

fn is_successor(level: &Level) -> bool
    ensures { result ≡ spec.is_successor (Some level.now) }
{
    match level.node() {
        LevelNode::Succ(_) => true,
        _ => false,
    }
}

// Whether the level of the sort in which a type of pis ends is written as a successor.
fn ends_in_successor(ty: &Expr) -> bool
    ensures { result ≡ spec.is_successor (result_level ty.now) }
{
    match ty.node() {
        ExprNode::Sort(level) => is_successor(level),
        ExprNode::Pi(_, _, b) => ends_in_successor(b),
        _ => false,
    }
}

fn by_constructor<'a>(
    name: &Name,
    levels: usize,
    params: u32,
    constructor: &'a Name,
    info: &'a ConstInfo,
) -> Option<Structure<'a>>
    ensures { option_map values.structure result ≡ spec.by_constructor name.now levels params constructor.now info.now.ty info.now.detail }
{
    match &info.detail {
        Detail::Ctor {
            ind,
            index,
            params: own,
            fields,
        } => {
            let fits = ind.is(name)
                && *index == 0
                && *own == params
                && fields_without(name, params, &info.ty);
            if fits {
                Some(Structure {
                    constructor,
                    ty: &info.ty,
                    levels,
                    params,
                    fields: *fields,
                })
            } else {
                None
            }
        }
        Detail::Plain | Detail::Ind { .. } | Detail::Rec { .. } => None,
    }
}

fn with_constructor<'a>(
    alloc: Global,
    view: &'a View,
    units: &mut u64,
    name: &Name,
    levels: usize,
    params: u32,
    constructor: &'a Name,
) -> Result<Option<Structure<'a>>, Halt>
    ensures value { RunsAs (option_map values.structure)
        (spec.constructor_seen name.now levels params constructor.now (see view.now constructor.now) units.old) result units.new }
    ensures calm { Calm result }
{
    match see(alloc, view, constructor)? {
        Seen::Known(info) => Ok(by_constructor(name, levels, params, constructor, info)),
        Seen::Unknown => Ok(None),
        Seen::Missing(key) => Err(need(units, key)),
    }
}

fn by_type<'a>(
    alloc: Global,
    view: &'a View,
    units: &mut u64,
    name: &Name,
    info: &'a ConstInfo,
) -> Result<Option<Structure<'a>>, Halt>
    ensures value { RunsAs (option_map values.structure) (spec.by_type view.now name.now (shape_of info.now) info.now.detail units.old) result units.new }
    ensures calm { Calm result }
{
    match &info.detail {
        Detail::Ind {
            params,
            indices,
            ctors,
            large: _,
        } => match ctors.as_slice() {
            [] => Ok(None),
            [constructor] => {
                if *indices == 0 && ends_in_successor(&info.ty) {
                    let levels = info.levels.len();
                    with_constructor(alloc, view, units, name, levels, *params, constructor)
                } else {
                    Ok(None)
                }
            }
            [_, _, ..] => Ok(None),
        },
        Detail::Plain | Detail::Ctor { .. } | Detail::Rec { .. } => Ok(None),
    }
}

/// The structure of this name: a type without indices, with one constructor, not recursive, and never in `Prop`.
pub fn structure_of<'a>(
    alloc: Global,
    view: &'a View,
    units: &mut u64,
    name: &Name,
) -> Result<Option<Structure<'a>>, Halt>
    ensures value { RunsAs (option_map values.structure) (spec.structure_of view.now name.now units.old) result units.new }
    ensures calm { Calm result }
{
    match see(alloc, view, name)? {
        Seen::Known(info) => by_type(alloc, view, units, name, info),
        Seen::Unknown => Ok(None),
        Seen::Missing(key) => Err(need(units, key)),
    }
}

/// Whether so many arguments are all that the structure's constructor takes, and the name is its constructor's.
pub fn is_built(structure: Structure<'_>, name: &Name, arguments: &[Expr]) -> bool
    ensures { result ≡ spec.is_built (values.structure structure.entry) name.now arguments.now }
{
    name.is(structure.constructor)
        && arguments.len() == structure.params as usize + structure.fields as usize
}
