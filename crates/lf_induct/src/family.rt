//! The declaration as its constructors are judged: at its own levels, its parameters the free variables from 0 on.
ghost use Rattle.std.specs.Prelude.{◌≡◌, ◌++◌, drop, IfOk, OnOk};
ghost use Rattle.lf_rules.specs.Inductive as inductive;
ghost use Rattle.lf_rules.specs.Recursor as spec;
ghost use Rattle.lf_rules.specs.Telescope as telescope;
ghost use Rattle.lf_recursor.specs.Values.{family_of};

use lf_core::{Expr, IndDecl, Level, NoMemory, copy_all};
use lf_recursor::{Family, Local, opened_family};
use lf_steps::{apply, arguments};
use sqlite_items::Items;
use std::alloc::Global;

// Puts `n` level parameters from `k` on behind `all`.
#[tactic(auto, using(lf_recursor::proofs::Lists::parameters_one))]
fn push_parameters(alloc: Global, all: &mut Items<Level>, k: u32, n: usize) -> Result<(), NoMemory>
    ensures { OnOk result (all.new ≡ all.old ++ spec.parameters_from k n) }
{
    if n == 0 {
        return Ok(());
    }
    all.push(Level::param(alloc, k)?)?;
    let next = k.checked_add(1).ok_or(NoMemory)?;
    push_parameters(alloc, all, next, n - 1)
}

/// The declared type as it stands in its own constructors: at its own levels and parameters.
#[tactic(auto, using(crate::proofs::Own::own_is))]
pub fn own_family(alloc: Global, decl: &IndDecl) -> Result<Family, NoMemory>
    ensures { IfOk result (λ f. family_of f ≡ inductive.own_family decl.now) }
{
    let mut levels = Items::new(alloc);
    push_parameters(alloc, &mut levels, 0, decl.levels.len())?;
    opened_family(alloc, levels.as_slice(), decl)
}

// Puts the variables of the telescope that begins at `k` behind `all`.
fn push_variables(all: &mut Vec<Expr>, k: u32, locals: &[Local]) -> Result<(), NoMemory>
    ensures { OnOk result (all.new.items ≡ all.old.items ++ telescope.variables k locals.now) }
{
    let alloc = *all.allocator();
    match locals {
        [] => Ok(()),
        [_x, xs @ ..] => {
            all.push(Expr::free(alloc, k)?)?;
            let next = k.checked_add(1).ok_or(NoMemory)?;
            push_variables(all, next, xs)
        }
    }
}

/// The type at its parameters, before its indices.
pub fn self_type(alloc: Global, family: &Family) -> Result<Expr, NoMemory>
    ensures { IfOk result (λ t. t ≡ spec.self (family_of family.now)) }
{
    let mut params = Vec::new(alloc);
    push_variables(&mut params, 0, family.params.as_slice())?;
    let levels = copy_all(alloc, family.levels.as_slice())?;
    let constant = Expr::constant(alloc, family.name.copy(alloc)?, levels)?;
    apply(alloc, constant, params.as_slice())
}

// The terms but for the first `n`.
fn behind(n: usize, terms: &[Expr]) -> &[Expr]
    ensures { result.now ≡ drop n terms.now }
{
    &terms[n.min(terms.len())..]
}

/// The indices of the type `term`: its arguments behind the parameters.
pub fn indices_of(alloc: Global, family: &Family, term: &Expr) -> Result<Items<Expr>, NoMemory>
    ensures { IfOk result (λ is. is ≡ spec.indices_of (family_of family.now) term.now) }
{
    let given = arguments(alloc, term)?;
    copy_all(alloc, behind(family.params.len(), given.as_slice()))
}
