//! One constant of the walk.
ghost use Rattle.std.specs.Prelude.{◌≡◌, ◌∷◌, false, OnOk};
ghost use Rattle.lf_rules.specs.Recursor.{is_among};
ghost use Rattle.lf_elaboration.specs.Axioms.{visit, read, walk};
ghost use Rattle.lf_axioms.specs.Walked.{todo, visited, Stepped};

use crate::detail::push_detail;
use crate::halt::Halt;
use crate::item::{Item, Visited, push};
use indexmap::IndexSet;
use lf_core::{Name, NoMemory, TaskKey};
use lf_env::{BodyOf, Lookup, View};
use std::alloc::Global;

/// The constants that were visited, in order.
pub type Table<'a> = IndexSet<Visited<'a>>;

#[tactic(auto, using(crate::proofs::Items::among_visited))]
fn was_visited(seen: &Table<'_>, name: &Name) -> bool
    ensures { result ≡ is_among name.now (visited seen.now.keys) }
{
    let key = Visited::new(name);
    seen.contains(&key)
}

/// Adds a constant that wasn't visited before.
#[tactic(auto, using(crate::proofs::Items::among_visited, crate::proofs::Items::visited_more))]
fn mark<'a>(seen: &mut Table<'a>, name: &'a Name) -> Result<(), NoMemory>
    requires { is_among name.now (visited seen.old.keys) ≡ false }
    ensures { OnOk result (visited seen.new.keys ≡ name.now ∷ visited seen.old.keys) }
{
    seen.insert(Visited::new(name))?;
    Ok(())
}

/// Visits a constant: where it wasn't visited before, its type, its value and its declaration are next.
#[tactic(auto, using(crate::proofs::Steps::visit_seen, crate::proofs::Steps::visit_new))]
pub fn visit<'a>(
    alloc: Global,
    view: &'a View,
    name: &'a Name,
    seen: &mut Table<'a>,
    stack: &mut Vec<Item<'a>>,
    turns: &mut u64,
) -> Result<(), Halt>
    ensures { Stepped
        (walk view.now turns.old (visited seen.old.keys) (visit name.now ∷ todo stack.old.items))
        result
        (walk view.now turns.new (visited seen.new.keys) (todo stack.new.items)) }
{
    if *turns == 0 {
        return Err(Halt::NoMemory);
    }
    *turns -= 1;
    if was_visited(seen, name) {
        return Ok(());
    }
    match view.lookup(name) {
        Lookup::Found(info) => {
            mark(seen, name)?;
            push_detail(stack, &info.detail)?;
            push(stack, Item::Read(name))?;
            push(stack, Item::Subterm(&info.ty))?;
            Ok(())
        }
        Lookup::Absent => Ok(()),
        Lookup::NeedBody(position) => Err(Halt::Need(TaskKey::Body(position))),
        Lookup::NeedReal => Err(Halt::Need(TaskKey::Real(name.copy(alloc)?))),
    }
}

/// Reads the value of a constant: what it names is next.
#[tactic(auto, using(crate::proofs::Steps::read_spent))]
pub fn read<'a>(
    alloc: Global,
    view: &'a View,
    name: &'a Name,
    seen: &Table<'a>,
    stack: &mut Vec<Item<'a>>,
    turns: &mut u64,
) -> Result<(), Halt>
    ensures { Stepped
        (walk view.now turns.old (visited seen.now.keys) (read name.now ∷ todo stack.old.items))
        result
        (walk view.now turns.new (visited seen.now.keys) (todo stack.new.items)) }
{
    if *turns == 0 {
        return Err(Halt::NoMemory);
    }
    *turns -= 1;
    match view.lookup(name) {
        Lookup::Found(_) => match view.value_of(name) {
            BodyOf::Value(value) => {
                push(stack, Item::Subterm(value))?;
                Ok(())
            }
            BodyOf::Opaque => Ok(()),
            BodyOf::NeedBody(position) => Err(Halt::Need(TaskKey::Body(position))),
        },
        Lookup::Absent => Ok(()),
        Lookup::NeedBody(position) => Err(Halt::Need(TaskKey::Body(position))),
        Lookup::NeedReal => Err(Halt::Need(TaskKey::Real(name.copy(alloc)?))),
    }
}
