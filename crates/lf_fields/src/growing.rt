//! The definitions of all fields, each over the view with those before it.
ghost use Rattle.std.specs.Prelude.{◌≡◌, ◌≤◌, ◌∷◌, ◌++◌, [], None, OnOk, IfOk, IfSome, length, drop, ◌<◌};
ghost use Rattle.lf_checker.specs.View.{placed_of, pushed};
ghost use Rattle.lf_document.specs.Setting.{Declaration, nesting};
ghost use Rattle.lf_document.specs.StructureCommand as spec;
ghost use Rattle.lf_elaboration.specs.Forms.{as_pi};
ghost use Rattle.lf_steps.specs.Runs.{Runs, RunsAs, Calm, Rose};
ghost use Rattle.lf_telescope.specs.Values.{binding};
ghost use Rattle.lf_fields.specs.Parts as own;
ghost use Rattle.lf_fields.specs.Within.{IsOf, AreNew};

use crate::fields::{field_definition, with_self};
use crate::naming::joined;
use crate::owner::Owner;
use lf_base::Stop;
use lf_check::Cx;
use lf_core::{BinderKind, ConstInfo, Expr, Name, NoMemory};
use lf_env::View;
use lf_steps::{Halt, instance, out};
use lf_syntax::Ident;
use lf_telescope::{Binding, Local, Opened, as_pi, at_itself, open_pis};
use std::alloc::Global;

// What is the same for all fields: the declaration, its parameters and `self`, the position of the command.
#[derive(Clone, Copy)]
struct Fields<'a> {
    pub owner: Owner<'a>,
    pub locals: &'a [Local],
    pub position: u32,
}

// The definition of the field of number `i` under this name, and what is left of the constructor's type behind the field.
#[tactic(auto, using(lf_steps::proofs::Runs::halts))]
fn step(
    cx: Cx<'_>,
    units: &mut u64,
    of: Fields<'_>,
    i: u32,
    name: &Name,
    front: Binding<'_>,
) -> Result<(ConstInfo, Expr), Halt>
    ensures value { Runs (own.step cx.entry.depth cx.entry.view.now of.entry.owner.name.now of.entry.owner.levels.now of.entry.owner.params
        of.entry.locals.now i name.now (binding front.entry) units.old) result units.new }
    ensures new { IfOk result (λ r. placed_of cx.entry.view.now r.0.name ≡ None) }
    ensures calm { Calm result }
{
    let owner = of.owner;
    let info = field_definition(cx, units, owner, of.locals, i, name, front.domain)?;
    let at_self = at_itself(cx.alloc, name, owner.levels, of.locals)?;
    let rest = instance(cx.alloc, units, front.body, &at_self)?;
    Ok((info, rest))
}

// The same, by the constructor's type from the field on, which has to be a pi.
#[tactic(auto, using(lf_steps::proofs::Runs::halts))]
fn defined(
    cx: Cx<'_>,
    units: &mut u64,
    of: Fields<'_>,
    i: u32,
    name: &Name,
    ty: &Expr,
) -> Result<Option<(ConstInfo, Expr)>, Halt>
    ensures value { Runs (own.defined cx.entry.depth cx.entry.view.now of.entry.owner.name.now of.entry.owner.levels.now of.entry.owner.params
        of.entry.locals.now i name.now (as_pi ty.now) units.old) result units.new }
    ensures new { IfOk result (λ o. IfSome o (λ r. placed_of cx.entry.view.now r.0.name ≡ None)) }
    ensures calm { Calm result }
{
    match as_pi(ty) {
        None => Err(out(units)),
        Some(front) => {
            let made = step(cx, units, of, i, name, front)?;
            Ok(Some(made))
        }
    }
}

// The same of the first of the fields, where there is one.
#[tactic(auto, unfolding(crate::specs::Parts::first))]
fn first(
    cx: Cx<'_>,
    units: &mut u64,
    of: Fields<'_>,
    i: u32,
    fields: &[Ident],
    ty: &Expr,
) -> Result<Option<(ConstInfo, Expr)>, Halt>
    ensures value { Runs (own.first cx.entry.depth cx.entry.view.now of.entry.owner.name.now of.entry.owner.levels.now of.entry.owner.params
        of.entry.locals.now i fields.now ty.now units.old) result units.new }
    ensures new { IfOk result (λ o. IfSome o (λ r. placed_of cx.entry.view.now r.0.name ≡ None)) }
    ensures more { IfOk result (λ o. IfSome o (λ _. 1 ≤ length fields.now)) }
    ensures calm { Calm result }
{
    match fields {
        [] => Ok(None),
        [f, ..] => {
            let name = joined(cx.alloc, of.owner.name, &f.name)?;
            let made = defined(cx, units, of, i, &name, ty);
            drop(name);
            made
        }
    }
}

// Puts the constant at the end of the view and of `all`.
fn put_in(
    alloc: Global,
    grown: &mut View,
    all: &mut Vec<ConstInfo>,
    info: ConstInfo,
    position: u32,
) -> Result<(), NoMemory>
    requires { placed_of grown.old info.name ≡ None }
    ensures view { OnOk result (grown.new ≡ pushed grown.old info position) }
    ensures all { OnOk result (all.new.items ≡ all.old.items ++ info ∷ []) }
{
    grown.push(info.copy(alloc)?, position)?;
    all.push(info)?;
    Ok(())
}

// The fields but for the first.
fn others(fields: &[Ident]) -> &[Ident]
    ensures rest { result.now ≡ drop 1 fields.now }
    ensures fewer { 1 ≤ length fields.now → length result.now < length fields.now }
{
    match fields {
        [] => fields,
        [_first, rest @ ..] => rest,
    }
}

// The definitions of the fields from number `i` on, behind `all`.
#[tactic(auto, using(lf_steps::proofs::Runs::halts, crate::proofs::Steps::unrolled))]
fn definitions<P: Stop>(
    alloc: Global,
    depth: u32,
    units: &mut u64,
    stop: &mut P,
    grown: &mut View,
    all: Vec<ConstInfo>,
    of: Fields<'_>,
    i: u32,
    fields: &[Ident],
    ty: &Expr,
) -> Result<Vec<ConstInfo>, Halt>
    ensures value { RunsAs (λ v. v.items) (own.behind all.items depth of.entry.position of.entry.owner.name.now of.entry.owner.levels.now
        of.entry.owner.params of.entry.locals.now i fields.now grown.old ty.now units.old) result units.new }
    ensures count { P.stops stop.old ≤ P.stops stop.new }
    ensures rose { Rose result (P.stops stop.old) (P.stops stop.new) }
{
    if stop.stopped() {
        return Err(Halt::Stopped);
    }
    let cx = Cx {
        alloc,
        view: grown,
        depth,
    };
    match first(cx, units, of, i, fields, ty)? {
        None => Ok(all),
        Some((info, rest)) => {
            let mut all = all;
            put_in(alloc, grown, &mut all, info, of.position)?;
            let next = i.checked_add(1).ok_or(NoMemory)?;
            let others = others(fields);
            let end = definitions(
                alloc, depth, units, stop, grown, all, of, next, others, &rest,
            );
            drop(rest);
            end
        }
    }
}

// From the constructor's type.
#[tactic(auto, using(lf_steps::proofs::Runs::halts, crate::proofs::Steps::behind_none))]
fn from_constructor<P: Stop>(
    cx: Cx<'_>,
    units: &mut u64,
    stop: &mut P,
    kind: BinderKind,
    owner: Owner<'_>,
    position: u32,
    fields: &[Ident],
    ty: &Expr,
) -> Result<Vec<ConstInfo>, Halt>
    ensures value { RunsAs (λ all. all.items) (own.all_fields cx.entry.depth kind cx.entry.view.now position owner.entry.name.now owner.entry.levels.now
        owner.entry.params fields.now ty.now units.old) result units.new }
    ensures count { P.stops stop.old ≤ P.stops stop.new }
    ensures rose { Rose result (P.stops stop.old) (P.stops stop.new) }
{
    let alloc = cx.alloc;
    let Opened { locals, rest } = open_pis(alloc, units, owner.params as usize, &[], ty)?;
    let locals = with_self(alloc, kind, owner, locals)?;
    let of = Fields {
        owner,
        locals: locals.as_slice(),
        position,
    };
    let mut grown = cx.view.share()?;
    let none = Vec::new(alloc);
    definitions(
        alloc, cx.depth, units, stop, &mut grown, none, of, 0, fields, &rest,
    )
}

/// The definitions of all fields of a declaration, whose constructor has this type, in order: each field's projection over the
/// parameters and `self`, whose binder is of this kind, as the kernel accepts it over the view with those before it. The view
/// has the type already, and `position` is the command's. A stop is asked for at each field. Refused, Out and Need where the
/// definition is.
#[tactic(auto, using(crate::proofs::Command::all_fields_run))]
pub fn all_fields<P: Stop>(
    cx: Cx<'_>,
    units: &mut u64,
    stop: &mut P,
    kind: BinderKind,
    owner: Owner<'_>,
    position: u32,
    fields: &[Ident],
    ty: &Expr,
) -> Result<Vec<ConstInfo>, Halt>
    ensures value { (D : Declaration) → IsOf owner.entry D → cx.entry.depth ≡ nesting
        → RunsAs (λ all. all.items) (spec.all_fields kind cx.entry.view.now position D fields.now ty.now units.old) result units.new }
    ensures count { P.stops stop.old ≤ P.stops stop.new }
    ensures rose { Rose result (P.stops stop.old) (P.stops stop.new) }
{
    from_constructor(cx, units, stop, kind, owner, position, fields, ty)
}

/// Puts the constants of the command at `position` at the end of the view, in order. No entry has the name of one, and no two
/// have one name. `NoMemory` is the one fault; some of the constants are there then.
pub fn push_all(
    alloc: Global,
    view: &mut View,
    infos: &[ConstInfo],
    position: u32,
) -> Result<(), NoMemory>
    requires { AreNew view.old infos.now position }
    ensures { OnOk result (view.new ≡ spec.pushed_all view.old infos.now position) }
{
    match infos {
        [] => Ok(()),
        [info, rest @ ..] => {
            view.push(info.copy(alloc)?, position)?;
            push_all(alloc, view, rest, position)
        }
    }
}
