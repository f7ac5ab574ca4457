//! The branch of a body, which takes the helpers.
ghost use Rattle.std.specs.Prelude.{◌≡◌, OnOk};
ghost use Rattle.lf_branch.specs.Branch as spec;

use lf_branch::Branch;
use lf_core::{ConstInfo, NoMemory};
use std::alloc::Global;

/// One more constant in the branch. `NoMemory` is the one fault.
pub fn with_constant(alloc: Global, branch: &mut Branch, info: ConstInfo) -> Result<(), NoMemory>
    requires { spec.verdict branch.old info.name ≡ spec.taken }
    ensures { OnOk result (branch.new ≡ spec.with_constant branch.old info) }
{
    match branch.add(alloc, info) {
        Ok(()) => Ok(()),
        Err(fault) => {
            drop(fault);
            Err(NoMemory)
        }
    }
}
