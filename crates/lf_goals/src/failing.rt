//! Items that fail.
ghost use Rattle.std.specs.Prelude.{◌≡◌, ℕ};
ghost use Rattle.lf_elaboration.specs.Direct as direct;
ghost use Rattle.lf_elaboration.specs.Part as parts;
ghost use Rattle.lf_elaboration.specs.Rewrite as rewrite;
ghost use Rattle.lf_part.specs.Runs.{Runs, Calm};
ghost use Rattle.lf_part.specs.Says as says;

use lf_items::Step;
use lf_msg::{ProofError, ProofItem};
use lf_part::{Diagnostic, Ended, error};

/// The item at this place fails, and its error names it.
pub fn fails_as<T: Drop>(at: usize, item: ProofItem) -> Result<T, Ended>
    ensures value { (u : ℕ) (s : parts.State) → Runs (direct.fails_as at (says.proof_item item) u s) result u s }
    ensures calm { Calm result }
{
    Err(error(at, Diagnostic::Proof(ProofError::Failed(item))))
}

/// The step; where there is none, the item at this place fails.
pub fn step_or_fail(at: usize, item: ProofItem, step: Option<Step>) -> Result<Step, Ended>
    ensures value { (u : ℕ) (s : parts.State) → Runs (rewrite.step_or_fail at (says.proof_item item) step u s) result u s }
    ensures calm { Calm result }
{
    match step {
        Some(step) => Ok(step),
        None => fails_as(at, item),
    }
}
