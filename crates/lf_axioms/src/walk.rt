//! The walk.
ghost use Rattle.std.specs.Prelude.{◌≡◌, ◌∷◌, ◌++◌, [], IfOk, IfSome, IfNone};
ghost use Rattle.lf_elaboration.specs.Axioms.{visit, walk, ended};
ghost use Rattle.lf_axioms.specs.Walked.{todo, tasks_of, visited, Stepped};

use crate::halt::Halt;
use crate::item::{Item, push, push_parts};
use crate::turn::{Table, read, visit};
use lf_core::{Name, NoMemory};
use lf_env::View;
use std::alloc::Global;

/// Does one item, with what it puts before the others.
fn step<'a>(
    alloc: Global,
    view: &'a View,
    item: Item<'a>,
    seen: &mut Table<'a>,
    stack: &mut Vec<Item<'a>>,
    turns: &mut u64,
) -> Result<(), Halt>
    ensures { Stepped
        (walk view.now turns.old (visited seen.old.keys) (tasks_of item.entry ++ todo stack.old.items))
        result
        (walk view.now turns.new (visited seen.new.keys) (todo stack.new.items)) }
{
    match item {
        Item::Visit(name) => visit(alloc, view, name, seen, stack, turns),
        Item::Read(name) => read(alloc, view, name, seen, stack, turns),
        Item::Subterm(term) => {
            push_parts(stack, term)?;
            Ok(())
        }
        Item::Names([]) | Item::Terms([]) => Ok(()),
        Item::Names([name, names @ ..]) => {
            push(stack, Item::Names(names))?;
            push(stack, Item::Visit(name))?;
            Ok(())
        }
        Item::Terms([term, terms @ ..]) => {
            push(stack, Item::Terms(terms))?;
            push(stack, Item::Subterm(term))?;
            Ok(())
        }
    }
}

/// The next item, where there is one.
#[tactic(auto, using(crate::proofs::Items::todo_more))]
fn next<'a>(stack: &mut Vec<Item<'a>>) -> Option<Item<'a>>
    ensures some { IfSome result (λ i. todo stack.old.items ≡ tasks_of i ++ todo stack.new.items) }
    ensures none { IfNone result (todo stack.old.items ≡ []) }
{
    stack.pop()
}

/// The items with which the walk begins.
pub fn start<'a>(alloc: Global, name: &'a Name) -> Result<Vec<Item<'a>>, NoMemory>
    ensures { IfOk result (λ s. todo s.items ≡ visit name.now ∷ []) }
{
    let mut stack = Vec::new(alloc);
    push(&mut stack, Item::Visit(name))?;
    Ok(stack)
}

#[tactic(auto, using(crate::proofs::Steps::walk_ends))]
/// Does all items, with what they put before the others.
pub fn run<'a>(
    alloc: Global,
    view: &'a View,
    seen: &mut Table<'a>,
    stack: &mut Vec<Item<'a>>,
    turns: &mut u64,
) -> Result<(), Halt>
    ensures { Stepped
        (walk view.now turns.old (visited seen.old.keys) (todo stack.old.items)) result (ended (visited seen.new.keys)) }
{
    for _step in 0..u64::MAX {
        match next(stack) {
            Some(item) => match step(alloc, view, item, seen, stack, turns) {
                Ok(()) => {}
                Err(halt) => return Err(halt),
            },
            None if *turns == 0 => return Err(Halt::NoMemory),
            None => return Ok(()),
        }
    }
    Err(Halt::NoMemory)
}
