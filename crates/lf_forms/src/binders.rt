//! Written binders, one name at a time.
ghost use Rattle.std.specs.Prelude.{◌≡◌, ◌++◌, IfOk, OnOk, map, option_copied};
ghost use Rattle.lf_elaboration.specs.Terms as spec;
ghost use Rattle.lf_syntax.specs.TermNode.{binders_tree, lbinder_tree, lbinder_trees};

use lf_core::NoMemory;
use lf_name::{Binder, BinderKind};
use lf_syntax::{Binders, Ident, LBinder, Term};
use std::alloc::Global;
use std::marker::Model;

/// A binder of one name; without a type where none is written.
#[derive(Debug, Drop)]
pub struct OneBinder {
    pub kind: BinderKind,
    pub name: Ident,
    pub ty: Option<Term>,
}

impl Model for OneBinder {
    ghost use Rattle.std.specs.Coded.{codes};
    ghost use Rattle.lf_name.specs.contracts.binder.BinderKind as kinds;
    ghost use Rattle.lf_syntax.specs.Codes.{coded_term};
    ghost use Rattle.lf_syntax.specs.contracts.leaf.Ident as written;
    ghost use Rattle.lf_elaboration.specs.Terms as terms;

    ghost Value = { terms.OneBinder };

    ghost coded = { Prim.hlevel (codes, coded_term, kinds.the_row.coded, written.the_row.coded) };

    ghost view = { λ b. record { kind = b.kind; name = b.name; ty = b.ty } };
}

impl OneBinder {
    /// The binder's name and kind.
    pub fn binder(&self, alloc: Global) -> Result<Binder, NoMemory>
        ensures { IfOk result (λ b. b ≡ spec.binder_of self.now) }
    {
        Ok(Binder {
            name: self.name.name.copy(alloc)?,
            kind: self.kind,
        })
    }
}

fn copy_type(alloc: Global, ty: Option<&Term>) -> Result<Option<Term>, NoMemory>
    ensures { IfOk result (λ t. t ≡ option_copied ty.entry) }
{
    match ty {
        None => Ok(None),
        Some(ty) => Ok(Some(ty.copy(alloc)?)),
    }
}

fn add_names(
    alloc: Global,
    kind: BinderKind,
    names: &[Ident],
    ty: Option<&Term>,
    all: &mut Vec<OneBinder>,
) -> Result<(), NoMemory>
    ensures { OnOk result (all.new.items ≡ all.old.items
        ++ map (λ x. record { kind = kind; name = x; ty = option_copied ty.entry }) names.now) }
{
    'names: for name in names {
        all.push(OneBinder {
            kind,
            name: name.copy(alloc)?,
            ty: copy_type(alloc, ty)?,
        })?;
    }
    Ok(())
}

/// The names of a group, each with the group's kind and type.
pub fn group(alloc: Global, binders: &Binders) -> Result<Vec<OneBinder>, NoMemory>
    ensures { IfOk result (λ all. all.items ≡ spec.group_in (binders_tree binders.now)) }
{
    let mut all = Vec::new(alloc);
    let names = binders.names.as_slice();
    add_names(alloc, binders.kind, names, Some(&binders.ty), &mut all)?;
    Ok(all)
}

fn add_binder(alloc: Global, binder: &LBinder, all: &mut Vec<OneBinder>) -> Result<(), NoMemory>
    ensures { OnOk result (all.new.items ≡ all.old.items ++ spec.binders_in (lbinder_tree binder.now)) }
{
    match binder {
        LBinder::Typed(binders) => {
            let names = binders.names.as_slice();
            add_names(alloc, binders.kind, names, Some(&binders.ty), all)
        }
        LBinder::Plain(name) => {
            all.push(OneBinder {
                kind: BinderKind::Explicit,
                name: name.copy(alloc)?,
                ty: None,
            })?;
            Ok(())
        }
        LBinder::Implicit { names, .. } => {
            add_names(alloc, BinderKind::Implicit, names.as_slice(), None, all)
        }
    }
}

/// All binders of a `fun` or a `∀`, one name at a time.
pub fn all_binders(alloc: Global, binders: &[LBinder]) -> Result<Vec<OneBinder>, NoMemory>
    ensures { IfOk result (λ all. all.items ≡ spec.all_binders (lbinder_trees binders.now)) }
{
    let mut all = Vec::new(alloc);
    'binders: for binder in binders {
        add_binder(alloc, binder, &mut all)?;
    }
    Ok(all)
}
