//! Terms with their types.
use lf_core::{Expr, Level};
use std::marker::Model;

/// A term and its type.
#[derive(Debug, Drop)]
pub struct Typed {
    pub term: Expr,
    pub ty: Expr,
}

/// A type, and the level of its sort.
#[derive(Debug, Drop)]
pub struct Sorted {
    pub term: Expr,
    pub level: Level,
}

impl Model for Typed {
    ghost use Rattle.std.specs.Coded.{codes};
    ghost use Rattle.lf_core.specs.Codes.{coded_term};
    ghost use Rattle.lf_elaboration.specs.Part as part;

    ghost Value = { part.Typed };

    ghost coded = { Prim.hlevel (codes, coded_term) };

    ghost view = { λ t. record { term = t.term; ty = t.ty } };
}

impl Model for Sorted {
    ghost use Rattle.std.specs.Coded.{codes};
    ghost use Rattle.lf_core.specs.Codes.{coded_term, coded_universe};
    ghost use Rattle.lf_elaboration.specs.Part as part;

    ghost Value = { part.Sorted };

    ghost coded = { Prim.hlevel (codes, coded_term, coded_universe) };

    ghost view = { λ t. record { term = t.term; level = t.level } };
}
