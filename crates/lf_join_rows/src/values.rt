//! The values of a text's tasks, as they were written down.
ghost use Rattle.std.specs.Prelude.{◌≡◌, option_copied};
ghost use Rattle.lf_join_rows.specs.Reals.{real_in};

use lf_core::{ConstInfo, Name};
use lf_join::Marks;
use lf_task::{Plan, TaskValue};

/// A realized name with its value.
#[derive(Drop)]
pub struct Real {
    pub name: Name,
    pub value: TaskValue,
}

/// All values, those of heads and bodies by the numbers of their commands.
#[derive(Drop)]
pub struct Values {
    pub base: Vec<ConstInfo>,
    pub plan: Option<Plan>,
    pub heads: Vec<TaskValue>,
    pub bodies: Vec<TaskValue>,
    pub reals: Vec<Real>,
}

fn found<'a>(reals: &'a [Real], name: &Name) -> Option<&'a TaskValue>
    ensures { option_copied result ≡ real_in reals.now name.now }
{
    match reals {
        [] => None,
        [real, rest @ ..] => {
            if real.name.is(name) {
                Some(&real.value)
            } else {
                found(rest, name)
            }
        }
    }
}

impl Marks for Values {
    ghost use Rattle.std.specs.Prelude.{slice_get};
    ghost use Rattle.lf_join_rows.specs.Reals.{real_in};

    ghost base = { λ v. v.base.items };

    ghost plan = { λ v. v.plan };

    ghost heads = { λ v i. slice_get v.heads.items i };

    ghost bodies = { λ v i. slice_get v.bodies.items i };

    ghost reals = { λ v n. real_in v.reals.items n };

    fn base(&self) -> &[ConstInfo] {
        self.base.as_slice()
    }

    fn plan(&self) -> Option<&Plan> {
        self.plan.as_ref()
    }

    fn head(&self, i: u32) -> Option<&TaskValue> {
        self.heads.get(i as usize)
    }

    fn body(&self, i: u32) -> Option<&TaskValue> {
        self.bodies.get(i as usize)
    }

    fn real(&self, name: &Name) -> Option<&TaskValue> {
        found(self.reals.as_slice(), name)
    }
}
