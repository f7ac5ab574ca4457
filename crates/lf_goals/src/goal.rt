//! Goals that an item leaves, and the proofs of them.
ghost use Rattle.std.specs.Prelude.{◌≡◌, ◌∷◌, [], IfOk, map};
ghost use Rattle.lf_elaboration.specs.Direct as direct;
ghost use Rattle.lf_elaboration.specs.Proof as spec;

use crate::trees::as_block;
use lf_core::{Expr, NoMemory};
use lf_syntax::Item;
use std::alloc::Global;
use std::marker::Model;

/// A goal that an item leaves; in `apply` it is the type of a metavariable, which its proof is to stand for.
#[derive(Debug, Drop)]
pub struct Goal {
    pub ty: Expr,
    pub metavariable: Option<u32>,
}

impl Model for Goal {
    ghost use Rattle.std.specs.Coded.{codes};
    ghost use Rattle.lf_core.specs.Codes.{coded_term};
    ghost use Rattle.lf_elaboration.specs.Direct.{Goal as GoalValue};

    ghost Value = { GoalValue };

    ghost coded = { Prim.hlevel (codes, coded_term) };

    ghost view = { λ g. record { ty = g.ty; metavariable = g.metavariable } };
}

/// The one goal of this type, without a metavariable.
pub fn plain(alloc: Global, ty: &Expr) -> Result<Vec<Goal>, NoMemory>
    ensures { IfOk result (λ gs. gs.items ≡ direct.plain ty.now ∷ []) }
{
    let mut goals = Vec::new(alloc);
    goals.push(Goal {
        ty: ty.copy(alloc)?,
        metavariable: None,
    })?;
    Ok(goals)
}

/// The goals of these types, without metavariables, in order.
pub fn plain_goals(alloc: Global, types: &[Expr]) -> Result<Vec<Goal>, NoMemory>
    ensures { IfOk result (λ gs. gs.items ≡ map direct.plain types.now) }
{
    let mut goals = Vec::new(alloc);
    'types: for ty in types {
        goals.push(Goal {
            ty: ty.copy(alloc)?,
            metavariable: None,
        })?;
    }
    Ok(goals)
}

/// Whether the items are as many `·` blocks as there are goals.
pub fn are_blocks(goals: &[Goal], items: &[Item]) -> bool
    ensures { result ≡ spec.are_blocks goals.now items.now }
{
    match goals {
        [] => items.is_empty(),
        [_, goals @ ..] => match items {
            [] => false,
            [item, items @ ..] => as_block(item).is_some() && are_blocks(goals, items),
        },
    }
}
