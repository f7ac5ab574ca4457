//! What a head or a body makes.
ghost use Rattle.std.specs.Prelude.{◌≡◌, IfOk};
ghost use Rattle.lf_document.specs.Constants as spec;

use lf_core::{ConstInfo, ConstKind, Detail, Expr, Level, Name, NoMemory};
use sqlite_items::Items;
use std::marker::Model;

/// A value that the kernel accepted, with its height.
#[derive(Debug, Drop)]
pub struct Valued {
    pub term: Expr,
    pub height: u32,
}

impl Model for Valued {
    ghost use Rattle.std.specs.Coded.{codes};
    ghost use Rattle.lf_core.specs.Codes.{coded_term, coded_universe};
    ghost use Rattle.lf_document.specs.Constants as constants;

    ghost Value = { constants.Valued };

    ghost coded = { Prim.hlevel (codes, coded_term, coded_universe) };

    ghost view = { λ v. record { term = v.term; height = v.height } };
}

/// What stands for a definition or theorem from its head on: the constant without its value, the level of its type's sort,
/// and whether the head's messages have an error.
#[derive(Debug, Drop)]
pub struct Header {
    pub info: ConstInfo,
    pub sort: Level,
    pub erred: bool,
}

impl Model for Header {
    ghost use Rattle.std.specs.Coded.{codes};
    ghost use Rattle.lf_core.specs.Codes.{coded_term, coded_universe};
    ghost use Rattle.lf_document.specs.Constants as constants;

    ghost Value = { constants.Header };

    ghost coded = { Prim.hlevel (codes, coded_term, coded_universe) };

    ghost view = { λ h. record { info = h.info; sort = h.sort; erred = h.erred } };
}

/// What a head or a body makes: a header; constants that are whole; the value of the header's constant.
#[derive(Debug, Drop)]
pub struct Made {
    pub header: Option<Header>,
    pub entries: Vec<ConstInfo>,
    pub value: Option<Valued>,
}

impl Model for Made {
    ghost use Rattle.std.specs.Coded.{codes};
    ghost use Rattle.lf_core.specs.Codes.{coded_term, coded_universe};
    ghost use Rattle.lf_document.specs.Constants as constants;

    ghost Value = { constants.Made };

    ghost coded = { Prim.hlevel (codes, coded_term, coded_universe) };

    ghost view = { λ m. record { header = m.header; entries = m.entries.items; value = m.value } };
}

/// A constant of no inductive declaration, whose value isn't known yet.
pub fn without_value(name: Name, kind: ConstKind, levels: Items<Name>, ty: Expr) -> ConstInfo
    ensures { result ≡ spec.without_value name kind levels ty }
{
    ConstInfo {
        name,
        kind,
        levels,
        ty,
        value: None,
        height: 0,
        detail: Detail::Plain,
    }
}

/// The constant with this value.
pub fn with_value(constant: ConstInfo, value: Valued) -> ConstInfo
    ensures { result ≡ spec.with_value constant value }
{
    ConstInfo {
        value: Some(value.term),
        height: value.height,
        ..constant
    }
}
