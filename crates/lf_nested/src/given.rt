//! Goals of `apply`.
ghost use Rattle.std.specs.Prelude.{◌≡◌, ◌++◌, IfOk, OnOk};
ghost use Rattle.lf_elaboration.specs.Apply as apply;

use lf_core::NoMemory;
use lf_goals::Goal;
use lf_opening::Given;
use std::alloc::Global;

// Puts the goals of these metavariables behind `goals`.
#[tactic(auto, using(std::proofs::Common::append_assoc))]
fn goals_behind(alloc: Global, given: &[Given], goals: &mut Vec<Goal>) -> Result<(), NoMemory>
    ensures { OnOk result (goals.new.items ≡ goals.old.items ++ apply.goals_given given.now) }
{
    match given {
        [] => Ok(()),
        [first, rest @ ..] => {
            goals.push(Goal {
                ty: first.ty.copy(alloc)?,
                metavariable: Some(first.number),
            })?;
            goals_behind(alloc, rest, goals)
        }
    }
}

/// A goal for each of these metavariables, which its proof is to stand for.
pub fn goals_given(alloc: Global, given: &[Given]) -> Result<Vec<Goal>, NoMemory>
    ensures { IfOk result (λ goals. goals.items ≡ apply.goals_given given.now) }
{
    let mut goals = Vec::new(alloc);
    goals_behind(alloc, given, &mut goals)?;
    Ok(goals)
}
