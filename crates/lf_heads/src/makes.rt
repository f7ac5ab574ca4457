//! What heads and bodies make.
ghost use Rattle.std.specs.Prelude.{◌≡◌, ◌∷◌, [], None, Some, IfOk};

use lf_core::{ConstInfo, NoMemory};
use std::alloc::Global;
use std::marker::Model;

/// Constants that a part makes, in order. Contracts see the list.
#[derive(Debug, Drop)]
pub struct Constants {
    pub list: Vec<ConstInfo>,
}

impl Model for Constants {
    ghost use Rattle.std.specs.Prelude.{List};
    ghost use Rattle.std.specs.Coded.{codes};
    ghost use Rattle.lf_core.specs.Codes.{coded_term};
    ghost use Rattle.lf_core.specs.declared.constant.ConstInfo as constant;

    ghost Value = { List constant.ConstInfo };

    ghost coded = { Prim.hlevel (codes, coded_term) };

    ghost view = { λ c. c.list.items };
}

impl Constants {
    /// One constant.
    pub fn one(alloc: Global, info: ConstInfo) -> Result<Constants, NoMemory>
        ensures { IfOk result (λ c. c ≡ info ∷ []) }
    {
        let mut list = Vec::new(alloc);
        list.push(info)?;
        Ok(Constants { list })
    }
}
