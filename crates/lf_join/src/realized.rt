//! The realized constants that stand behind constants.
ghost use Rattle.std.specs.Prelude.{◌≡◌, ◌<◌, ◌^◌, ◌++◌, ◌∷◌, [], IfOk, OnOk};
ghost use Rattle.lf_core.specs.Suffix.{spelling};
ghost use Rattle.lf_join.specs.Marked as spec;
ghost use Rattle.lf_join.specs.Sets.{has};

use crate::by_name::{Set, contains};
use crate::marked::Marks;
use lf_core::{ConstInfo, Name, NoMemory, Suffix};
use std::alloc::Global;

// The name of the parent with the suffix behind it.
#[tactic(auto, unfolding(lf_core::specs::Suffix::spelling))]
fn child_of(alloc: Global, parent: &Name, suffix: Suffix) -> Result<Name, NoMemory>
    ensures { IfOk result (λ n. n ≡ parent.now ++ spelling suffix ∷ []) }
{
    match suffix {
        Suffix::Eq1 => parent.child(alloc, "eq_1"),
        Suffix::EqDef => parent.child(alloc, "eq_def"),
        Suffix::Inj => parent.child(alloc, "inj"),
        Suffix::InjEq => parent.child(alloc, "injEq"),
        Suffix::EqAt(number) => {
            let text = format!(in alloc; "eq_{number}")?;
            let name = parent.child(alloc, text.as_str())?;
            Ok(name)
        }
    }
}

// What was made of the name, where it was asked for.
fn put_made<M: Marks>(
    alloc: Global,
    state: &M,
    asked: &Set<'_>,
    name: &Name,
    all: &mut Vec<ConstInfo>,
) -> Result<(), NoMemory>
    ensures { OnOk result (all.new.items ≡ all.old.items
        ++ spec.if_passed (has asked.now.keys) (spec.made_by (M.reals state.now)) name.now) }
{
    if !contains(asked, name) {
        return Ok(());
    }
    if let Some(value) = state.real(name) {
        if let Some(made) = &value.made {
            all.push(made.copy(alloc)?)?;
        }
    }
    Ok(())
}

fn put_suffix<M: Marks>(
    alloc: Global,
    state: &M,
    asked: &Set<'_>,
    parent: &ConstInfo,
    suffix: Suffix,
    all: &mut Vec<ConstInfo>,
) -> Result<(), NoMemory>
    ensures { OnOk result (all.new.items ≡ all.old.items
        ++ spec.with_suffix (has asked.now.keys) (spec.made_by (M.reals state.now)) parent.now suffix) }
{
    if !suffix.fits(parent.kind) {
        return Ok(());
    }
    let name = child_of(alloc, &parent.name, suffix)?;
    put_made(alloc, state, asked, &name, all)
}

// Those of so many numbered equations.
#[tactic(auto, using(crate::proofs::Suffixes::next_number, crate::proofs::Suffixes::no_number))]
fn put_numbered<M: Marks>(
    alloc: Global,
    state: &M,
    asked: &Set<'_>,
    parent: &ConstInfo,
    count: u32,
    all: &mut Vec<ConstInfo>,
) -> Result<(), NoMemory>
    requires { count < 2 ^ 31 }
    ensures { OnOk result (all.new.items ≡ all.old.items
        ++ spec.numbered_until (has asked.now.keys) (spec.made_by (M.reals state.now)) parent.now count) }
{
    let mut done = 0u32;
    while done < count {
        put_suffix(alloc, state, asked, parent, Suffix::EqAt(done + 2), all)?;
        done += 1;
    }
    Ok(())
}

// Those of one constant, in the order of the suffixes.
fn put_of<M: Marks>(
    alloc: Global,
    state: &M,
    asked: &Set<'_>,
    parent: &ConstInfo,
    all: &mut Vec<ConstInfo>,
) -> Result<(), NoMemory>
    ensures { OnOk result (all.new.items ≡ all.old.items
        ++ spec.realized_of (has asked.now.keys) (spec.made_by (M.reals state.now)) parent.now) }
{
    put_suffix(alloc, state, asked, parent, Suffix::Eq1, all)?;
    put_suffix(alloc, state, asked, parent, Suffix::EqDef, all)?;
    put_suffix(alloc, state, asked, parent, Suffix::Inj, all)?;
    put_suffix(alloc, state, asked, parent, Suffix::InjEq, all)?;
    put_numbered(alloc, state, asked, parent, 64, all)?;
    Ok(())
}

/// Puts the realized constants that stand behind these constants at the end of the list: those that were asked for, in the
/// order of the constants and then of the suffixes.
pub fn put_realized<M: Marks>(
    alloc: Global,
    state: &M,
    asked: &Set<'_>,
    parents: &[ConstInfo],
    all: &mut Vec<ConstInfo>,
) -> Result<(), NoMemory>
    ensures { OnOk result (all.new.items ≡ all.old.items
        ++ spec.realized_by (has asked.now.keys) (spec.made_by (M.reals state.now)) parents.now) }
{
    for parent in parents {
        put_of(alloc, state, asked, parent, all)?;
    }
    Ok(())
}
