//! Equations between terms.
ghost use Rattle.std.specs.Prelude.{◌≡◌, Some, IfOk};
ghost use Rattle.lf_elaboration.specs.Equations as spec;
ghost use Rattle.lf_items.specs.Values as values;

use crate::form::{Instance, as_constant};
use crate::names::is_eq_name;
use lf_core::{Expr, Level, NoMemory, copy_all};
use lf_steps::{arguments, head};
use sqlite_items::Items;
use std::alloc::Global;
use std::marker::Model;

/// `@Eq ty left right`, at the levels of `Eq`.
#[derive(Debug, Drop)]
pub struct Equation {
    pub levels: Items<Level>,
    pub ty: Expr,
    pub left: Expr,
    pub right: Expr,
}

impl Model for Equation {
    ghost use Rattle.std.specs.Coded.{codes};
    ghost use Rattle.lf_core.specs.Codes.{coded_term, coded_universe};
    ghost use Rattle.lf_elaboration.specs.Equations.{Equation as EquationValue};

    ghost Value = { EquationValue };

    ghost coded = { Prim.hlevel (codes, coded_term, coded_universe) };

    ghost view = { λ e. record { levels = e.levels; ty = e.ty; left = e.left; right = e.right } };
}

// The equation that a constant at these arguments is.
fn equation_at(
    alloc: Global,
    constant: Instance<'_>,
    parts: &[Expr],
) -> Result<Option<Equation>, NoMemory>
    ensures { IfOk result (λ e. e ≡ spec.equation_at (Some (values.instance constant.entry)) parts.now) }
{
    match parts {
        [ty, left, right] => {
            if !is_eq_name(constant.name) {
                return Ok(None);
            }
            Ok(Some(Equation {
                levels: copy_all(alloc, constant.levels)?,
                ty: ty.copy(alloc)?,
                left: left.copy(alloc)?,
                right: right.copy(alloc)?,
            }))
        }
        [] | [_] | [_, _] | [_, _, _, _, ..] => Ok(None),
    }
}

/// The equation that the term is: `Eq` at exactly three arguments. Its parts are shared.
pub fn as_equation(alloc: Global, term: &Expr) -> Result<Option<Equation>, NoMemory>
    ensures { IfOk result (λ e. e ≡ spec.as_equation term.now) }
{
    match as_constant(head(term)) {
        None => Ok(None),
        Some(constant) => {
            let parts = arguments(alloc, term)?;
            let equation = equation_at(alloc, constant, parts.as_slice());
            drop(parts);
            equation
        }
    }
}
