//! What is marked as done of a text.
ghost use Rattle.std.specs.Prelude.{◌≡◌, ℕ, List, Option, option_copied};
ghost use Rattle.lf_core.specs.Term.{Path};
ghost use Rattle.lf_core.specs.declared.constant.ConstInfo as infos;
ghost use Rattle.lf_document.specs.TaskValue as values;
ghost use Rattle.lf_task.specs.Plans as plans;

use lf_core::{ConstInfo, Name};
use lf_task::{Plan, TaskValue};

/// What joins the values of a text's tasks: the base, the plan, and the values that are there.
pub trait Marks {
    ghost base: { Self → List infos.ConstInfo };

    ghost plan: { Self → Option plans.Plan };

    ghost heads: { Self → ℕ → Option values.TaskValue };

    ghost bodies: { Self → ℕ → Option values.TaskValue };

    ghost reals: { Self → Path → Option values.TaskValue };

    /// The constants of the base, in order.
    fn base(&self) -> &[ConstInfo]
        ensures { result.now ≡ base self.now };

    /// The plan, where there is one.
    fn plan(&self) -> Option<&Plan>
        ensures { option_copied result ≡ plan self.now };

    /// The value of the head of the command of this number, where it is there.
    fn head(&self, i: u32) -> Option<&TaskValue>
        ensures { option_copied result ≡ heads self.now i };

    /// The value of the body of the command of this number, where it is there.
    fn body(&self, i: u32) -> Option<&TaskValue>
        ensures { option_copied result ≡ bodies self.now i };

    /// The value of a realized name, where it is there.
    fn real(&self, name: &Name) -> Option<&TaskValue>
        ensures { option_copied result ≡ reals self.now name.now };
}
