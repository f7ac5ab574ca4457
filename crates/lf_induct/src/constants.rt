//! The constants that a declaration adds.
ghost use Rattle.std.specs.Prelude.{◌≡◌, ◌++◌, ℕ, suc, ◌-◌, None, IfOk, OnOk};
ghost use Rattle.lf_core.specs.Term.{Term};
ghost use Rattle.lf_rules.specs.Inductive as inductive;
ghost use Rattle.lf_rules.specs.Recursor as rules;
ghost use Rattle.lf_steps.specs.Runs.{RunsAs, Calm};
ghost use Rattle.lf_induct.specs.Parts as parts;

use lf_core::{ConstInfo, ConstKind, CtorInfo, Detail, Expr, IndDecl, Name, NoMemory, copy_all};
use lf_recursor::{pi_count, recursor_of};
use lf_steps::{Halt, out};
use lf_subst::DEEPEST;
use sqlite_items::Items;
use std::alloc::Global;

// Puts the constructors' names behind `all`.
fn push_names(alloc: Global, all: &mut Items<Name>, ctors: &[CtorInfo]) -> Result<(), NoMemory>
    ensures { OnOk result (all.new ≡ all.old ++ inductive.constructor_names ctors.now) }
{
    match ctors {
        [] => Ok(()),
        [ctor, ctors @ ..] => {
            all.push(ctor.name.copy(alloc)?)?;
            push_names(alloc, all, ctors)
        }
    }
}

// The type with constructors of these names.
fn type_with(
    alloc: Global,
    decl: &IndDecl,
    ctors: Items<Name>,
    large: bool,
) -> Result<ConstInfo, NoMemory>
    ensures { IfOk result (λ c. c ≡ parts.type_with decl.now ctors large) }
{
    let indices = pi_count(&decl.ty)
        .ok_or(NoMemory)?
        .saturating_sub(decl.params);
    Ok(ConstInfo {
        name: decl.name.copy(alloc)?,
        kind: ConstKind::Inductive,
        levels: copy_all(alloc, decl.levels.as_slice())?,
        ty: decl.ty.copy(alloc)?,
        value: None,
        height: 0,
        detail: Detail::Ind {
            params: decl.params,
            indices,
            ctors,
            large,
        },
    })
}

/// The type while its constructors are judged: it has none yet.
pub fn type_alone(alloc: Global, decl: &IndDecl) -> Result<ConstInfo, NoMemory>
    ensures { IfOk result (λ c. c ≡ inductive.type_alone decl.now) }
{
    type_with(alloc, decl, Items::new(alloc), false)
}

fn constructor_constant(
    alloc: Global,
    decl: &IndDecl,
    index: u32,
    ctor: &CtorInfo,
) -> Result<ConstInfo, NoMemory>
    ensures { IfOk result (λ c. c ≡ inductive.constructor_constant decl.now index ctor.now) }
{
    let fields = pi_count(&ctor.ty)
        .ok_or(NoMemory)?
        .saturating_sub(decl.params);
    Ok(ConstInfo {
        name: ctor.name.copy(alloc)?,
        kind: ConstKind::Constructor,
        levels: copy_all(alloc, decl.levels.as_slice())?,
        ty: ctor.ty.copy(alloc)?,
        value: None,
        height: 0,
        detail: Detail::Ctor {
            ind: decl.name.copy(alloc)?,
            index,
            params: decl.params,
            fields,
        },
    })
}

// Puts the constructors, whose places begin at `index`, behind `all`.
fn push_constructors(
    all: &mut Vec<ConstInfo>,
    decl: &IndDecl,
    index: u32,
    ctors: &[CtorInfo],
) -> Result<(), NoMemory>
    ensures { OnOk result (all.new.items ≡ all.old.items ++ inductive.constructors_from decl.now index ctors.now) }
{
    let alloc = *all.allocator();
    match ctors {
        [] => Ok(()),
        [ctor, ctors @ ..] => {
            all.push(constructor_constant(alloc, decl, index, ctor)?)?;
            let next = index.checked_add(1).ok_or(NoMemory)?;
            push_constructors(all, decl, next, ctors)
        }
    }
}

// The declaration's constants, of which this is the recursor.
fn declared_constants(
    alloc: Global,
    decl: &IndDecl,
    large: bool,
    recursor: ConstInfo,
) -> Result<Vec<ConstInfo>, NoMemory>
    requires { recursor ≡ rules.recursor_of decl.now large }
    ensures { IfOk result (λ all. all.items ≡ inductive.declared_constants decl.now large) }
{
    let mut names = Items::new(alloc);
    push_names(alloc, &mut names, decl.ctors.as_slice())?;
    let mut all = Vec::new(alloc);
    all.push(type_with(alloc, decl, names, large)?)?;
    push_constructors(&mut all, decl, 0, decl.ctors.as_slice())?;
    all.push(recursor)?;
    Ok(all)
}

fn any_deep(terms: &[Expr]) -> bool
    ensures { result ≡ parts.any_deep terms.now }
{
    match terms {
        [] => false,
        [t, ts @ ..] => t.depth() > DEEPEST || any_deep(ts),
    }
}

// Whether the recursor's type or one of its rules is too deep.
fn is_deep(info: &ConstInfo) -> bool
    ensures { result ≡ parts.is_deep info.now }
{
    if info.ty.depth() > DEEPEST {
        return true;
    }
    match &info.detail {
        Detail::Rec { rules, .. } => any_deep(rules.as_slice()),
        Detail::Plain | Detail::Ind { .. } | Detail::Ctor { .. } => false,
    }
}

/// The declaration's constants: its type, its constructors and its recursor. Out where the recursor's type or one of its
/// rules is too deep; with more constructors than that it isn't built.
#[tactic(auto, using(crate::proofs::Depths::given_is, crate::proofs::Depths::too_many))]
pub fn given(
    alloc: Global,
    units: &mut u64,
    decl: &IndDecl,
    large: bool,
) -> Result<Vec<ConstInfo>, Halt>
    ensures value { RunsAs (λ v. v.items) (parts.given decl.now large units.old) result units.new }
    ensures calm { Calm result }
{
    let _left = *units;
    if decl.ctors.len() > DEEPEST as usize {
        return Err(out(units));
    }
    let recursor = recursor_of(alloc, decl, large)?;
    if is_deep(&recursor) {
        drop(recursor);
        return Err(out(units));
    }
    Ok(declared_constants(alloc, decl, large, recursor)?)
}
