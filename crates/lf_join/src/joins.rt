//! The joined environment of a text from the values of its tasks.
ghost use Rattle.std.specs.Prelude.{◌≡◌, Some, IfOk, length, flat_map};
ghost use Rattle.lf_core.specs.Term.{Path};
ghost use Rattle.lf_rules.specs.Recursor.{is_among};
ghost use Rattle.lf_document.specs.Joined as joins;
ghost use Rattle.lf_join.specs.Marked as spec;
ghost use Rattle.lf_join.specs.Sets.{has};
ghost use Rattle.lf_task.specs.Plans.{Plan as PlanValue};

use crate::by_name::{Set, empty};
use crate::gathered::{Gathered, put_asked, put_command, put_group};
use crate::joined::Joined;
use crate::marked::Marks;
use lf_core::NoMemory;
use lf_task::Plan;
use lf_text::Text;
use std::alloc::Global;

// The names that the first commands asked for.
fn asked_of<M: Marks>(alloc: Global, state: &M, count: u32) -> Result<Set<'_>, NoMemory>
    ensures { IfOk result (λ s. (n : Path) → has s.keys n
        ≡ is_among n (flat_map joins.asked_by (spec.commands_until (M.heads state.now) (M.bodies state.now) count))) }
{
    let mut set = empty(alloc);
    let mut i = 0u32;
    while i < count {
        put_asked(&mut set, state.head(i))?;
        put_asked(&mut set, state.body(i))?;
        i += 1;
    }
    Ok(set)
}

// What the base and the first commands made and told.
fn gathered<M: Marks>(
    alloc: Global,
    state: &M,
    asked: &Set<'_>,
    count: u32,
) -> Result<Gathered, NoMemory>
    ensures constants { IfOk result (λ all. all.constants.items ≡ spec.constants_in (has asked.now.keys) (spec.made_by (M.reals state.now))
        (M.base state.now) (spec.commands_until (M.heads state.now) (M.bodies state.now) count)) }
    ensures names { IfOk result (λ all. all.realized.items ≡ spec.names_among (has asked.now.keys) (spec.made_by (M.reals state.now))
        (M.base state.now) (spec.commands_until (M.heads state.now) (M.bodies state.now) count)) }
    ensures messages { IfOk result (λ all. all.messages.items
        ≡ flat_map joins.messages_of (spec.commands_until (M.heads state.now) (M.bodies state.now) count)) }
{
    let mut all = Gathered {
        constants: Vec::new(alloc),
        realized: Vec::new(alloc),
        messages: Vec::new(alloc),
    };
    put_group(alloc, state, asked, state.base(), &mut all)?;
    let mut i = 0u32;
    while i < count {
        put_command(alloc, state, asked, i, &mut all)?;
        i += 1;
    }
    Ok(all)
}

fn number(count: usize) -> Result<u32, NoMemory>
    ensures { IfOk result (λ n. n ≡ count) }
{
    u32::try_from(count).map_err(|_| NoMemory)
}

fn text_of(alloc: Global, plan: &Plan) -> Result<Text, NoMemory>
    ensures { IfOk result (λ t. t ≡ plan.now.text) }
{
    match plan.text().copy(alloc) {
        Ok(text) => Ok(text),
        Err(_) => Err(NoMemory),
    }
}

// By this plan.
fn joined_by<M: Marks>(alloc: Global, state: &M, plan: &Plan) -> Result<Joined, NoMemory>
    ensures { IfOk result (λ j. j ≡ joins.joined plan.now.text plan.now.budget (M.base state.now) (spec.made_by (M.reals state.now))
        (spec.commands_until (M.heads state.now) (M.bodies state.now) (length plan.now.commands))) }
{
    let count = number(plan.commands().len())?;
    let base = number(state.base().len())?;
    let text = text_of(alloc, plan)?;
    let asked = asked_of(alloc, state, count)?;
    let all = gathered(alloc, state, &asked, count)?;
    Ok(Joined {
        text,
        budget: plan.budget(),
        base,
        constants: all.constants,
        realized: all.realized,
        messages: all.messages,
    })
}

/// The joined environment of the plan's text: the base, then for each command what its branch and it made, and behind each of
/// these groups the realized constants of its members that some command asked for; and all messages. A value that isn't there
/// has made nothing. `NoMemory` is the one fault, where there is no plan too.
pub fn join<M: Marks>(alloc: Global, state: &M) -> Result<Joined, NoMemory>
    ensures { (p : PlanValue) → M.plan state.now ≡ Some p → IfOk result (λ j. j ≡ joins.joined p.text p.budget (M.base state.now)
        (spec.made_by (M.reals state.now)) (spec.commands_until (M.heads state.now) (M.bodies state.now) (length p.commands))) }
{
    match state.plan() {
        None => Err(NoMemory),
        Some(plan) => {
            let joined = joined_by(alloc, state, plan)?;
            Ok(joined)
        }
    }
}
