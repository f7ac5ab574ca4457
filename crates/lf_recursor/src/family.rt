//! An inductive declaration opened: its parameters are the free variables from 0 on.
ghost use Rattle.std.specs.Prelude.{◌≡◌, ◌++◌, IfOk, OnOk};
ghost use Rattle.lf_rules.specs.Recursor as spec;
ghost use Rattle.lf_recursor.specs.Values.{family_of};

use crate::telescope::{Local, open_pis};
use lf_core::{CtorInfo, Expr, IndDecl, Level, Name, NoMemory, copy_all};
use lf_subst::at_levels;
use sqlite_items::Items;
use std::alloc::Global;
use std::marker::Model;

/// A constructor; its body is pis over the fields, and then the type at its parameters and indices.
#[derive(Debug, Drop)]
pub struct Case {
    pub constructor: Name,
    pub body: Expr,
}

impl Model for Case {
    ghost use Rattle.lf_rules.specs.Recursor.{Case as CaseValue};
    ghost use Rattle.lf_recursor.specs.Codes.{coded_case};

    ghost Value = { CaseValue };

    ghost coded = { coded_case };

    ghost view = { λ c. record { constructor = c.constructor; body = c.body } };
}

/// A declaration at these levels: its parameters, pis over its indices that end in a sort, and its constructors.
#[derive(Debug, Drop)]
pub struct Family {
    pub name: Name,
    pub levels: Items<Level>,
    pub params: Vec<Local>,
    pub rest: Expr,
    pub cases: Vec<Case>,
}

// Puts the constructors at these levels, opened behind `params` parameters, behind `all`.
fn push_cases(
    all: &mut Vec<Case>,
    levels: &[Level],
    params: u32,
    ctors: &[CtorInfo],
) -> Result<(), NoMemory>
    ensures { OnOk result (all.new.items ≡ all.old.items ++ spec.cases_of params (spec.ctors_at levels.now ctors.now)) }
{
    let alloc = *all.allocator();
    match ctors {
        [] => Ok(()),
        [ctor, ctors @ ..] => {
            let ty = at_levels(alloc, &ctor.ty, levels)?;
            let body = open_pis(alloc, 0, params, &ty)?.rest;
            let constructor = ctor.name.copy(alloc)?;
            all.push(Case { constructor, body })?;
            push_cases(all, levels, params, ctors)
        }
    }
}

/// The declaration at these levels, opened.
pub fn opened_family(alloc: Global, levels: &[Level], decl: &IndDecl) -> Result<Family, NoMemory>
    ensures { IfOk result (λ f. family_of f ≡ spec.family levels.now (spec.declaration_at levels.now decl.now)) }
{
    let ty = at_levels(alloc, &decl.ty, levels)?;
    let opened = open_pis(alloc, 0, decl.params, &ty)?;
    let mut cases = Vec::new(alloc);
    push_cases(&mut cases, levels, decl.params, decl.ctors.as_slice())?;
    Ok(Family {
        name: decl.name.copy(alloc)?,
        levels: copy_all(alloc, levels)?,
        params: opened.locals,
        rest: opened.rest,
        cases,
    })
}
