//! What is read of a constructor: the levels of its fields, and the indices at its end.
ghost use Rattle.std.specs.Prelude.{◌≡◌, [], IfOk};
ghost use Rattle.lf_checker.specs.Admission.{with_field as field_before};

use lf_core::{Expr, Level, NoMemory};
use sqlite_items::Items;
use std::alloc::Global;
use std::marker::Model;

/// The levels of a constructor's fields, in order, and the indices at its end.
#[derive(Debug, Drop)]
pub struct Read {
    pub levels: Vec<Level>,
    pub indices: Items<Expr>,
}

impl Model for Read {
    ghost use Rattle.std.specs.Coded.{codes};
    ghost use Rattle.lf_core.specs.Codes.{coded_term, coded_universe};
    ghost use Rattle.lf_checker.specs.Admission.{Read as ReadValue};

    ghost Value = { ReadValue };

    ghost coded = { Prim.hlevel (codes, coded_term, coded_universe) };

    ghost view = { λ r. record { levels = r.levels.items; indices = r.indices } };
}

/// What is read where one more field, of this level, stands before the others.
pub fn with_field(level: Level, read: Read) -> Result<Read, NoMemory>
    ensures { IfOk result (λ r. r ≡ field_before level read) }
{
    let Read { levels, indices } = read;
    let mut all = levels;
    all.insert(0, level)?;
    Ok(Read {
        levels: all,
        indices,
    })
}

/// What is read of a constructor without fields.
pub fn fieldless(alloc: Global, indices: Items<Expr>) -> Read
    ensures { result ≡ record { levels = []; indices = indices } }
{
    Read {
        levels: Vec::new(alloc),
        indices,
    }
}
