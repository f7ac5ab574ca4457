//! What is gathered of a text's tasks.
ghost use Rattle.std.specs.Prelude.{◌≡◌, ◌++◌, ◌||◌, IfOk, OnOk, map, option_copied};
ghost use Rattle.lf_core.specs.Term.{Path};
ghost use Rattle.lf_rules.specs.Recursor.{is_among};
ghost use Rattle.lf_document.specs.Joined as joins;
ghost use Rattle.lf_document.specs.Sequential as texts;
ghost use Rattle.lf_join.specs.Marked as spec;
ghost use Rattle.lf_join.specs.Sets.{has};

use crate::by_name::{Set, add_all};
use crate::marked::Marks;
use crate::realized::put_realized;
use lf_core::{ConstInfo, Name, NoMemory};
use lf_msg::Message;
use lf_task::{Header, TaskValue, Valued, with_value};
use std::alloc::Global;

/// The constants so far, the names of the realized ones among them, and the messages, all in order.
#[derive(Drop)]
pub struct Gathered {
    pub constants: Vec<ConstInfo>,
    pub realized: Vec<Name>,
    pub messages: Vec<Message>,
}

/// Puts the names that the task asked for into the set.
pub fn put_asked<'a>(set: &mut Set<'a>, value: Option<&'a TaskValue>) -> Result<(), NoMemory>
    ensures { OnOk result ((n : Path) → has set.new.keys n
        ≡ (has set.old.keys n || is_among n (spec.value_or (option_copied value.entry)).asked)) }
{
    match value {
        Some(value) => add_all(set, value.asked.as_slice()),
        None => add_all(set, &[]),
    }
}

fn put_constants(
    alloc: Global,
    constants: &[ConstInfo],
    all: &mut Vec<ConstInfo>,
) -> Result<(), NoMemory>
    ensures { OnOk result (all.new.items ≡ all.old.items ++ constants.now) }
{
    'constants: for constant in constants {
        all.push(constant.copy(alloc)?)?;
    }
    Ok(())
}

fn put_messages(alloc: Global, messages: &[Message], all: &mut Vec<Message>) -> Result<(), NoMemory>
    ensures { OnOk result (all.new.items ≡ all.old.items ++ messages.now) }
{
    'messages: for message in messages {
        all.push(message.copy(alloc)?)?;
    }
    Ok(())
}

fn put_names(alloc: Global, constants: &[ConstInfo], all: &mut Vec<Name>) -> Result<(), NoMemory>
    ensures { OnOk result (all.new.items ≡ all.old.items ++ joins.constant_names constants.now) }
{
    'names: for constant in constants {
        all.push(constant.name.copy(alloc)?)?;
    }
    Ok(())
}

// The constant of a header with its value, where that is there.
fn put_completed(
    alloc: Global,
    header: &Header,
    value: Option<&Valued>,
    all: &mut Vec<ConstInfo>,
) -> Result<(), NoMemory>
    ensures { OnOk result (all.new.items ≡ all.old.items ++ texts.completed_by header.now (option_copied value.entry)) }
{
    match value {
        None => Ok(()),
        Some(value) => {
            let value = Valued {
                term: value.term.copy(alloc)?,
                height: value.height,
            };
            let whole = with_value(header.info.copy(alloc)?, value);
            all.push(whole)?;
            Ok(())
        }
    }
}

// What the body of a header made: the constants of its branch, and the header's with its value.
fn put_body(
    alloc: Global,
    header: &Header,
    body: Option<&TaskValue>,
    all: &mut Vec<ConstInfo>,
) -> Result<(), NoMemory>
    ensures { OnOk result (all.new.items ≡ all.old.items
        ++ spec.body_made header.now (spec.value_or (option_copied body.entry))) }
{
    match body {
        None => Ok(()),
        Some(body) => {
            put_constants(alloc, body.entries.as_slice(), all)?;
            put_completed(alloc, header, body.value.as_ref(), all)?;
            Ok(())
        }
    }
}

// The constants that a command made.
fn made_constants(
    alloc: Global,
    head: Option<&TaskValue>,
    body: Option<&TaskValue>,
) -> Result<Vec<ConstInfo>, NoMemory>
    ensures { IfOk result (λ all. all.items ≡ (texts.elaborated (spec.value_or (option_copied head.entry))
        (spec.value_or (option_copied body.entry))).constants) }
{
    let mut all = Vec::new(alloc);
    match head {
        None => {}
        Some(head) => match &head.header {
            Some(header) => put_body(alloc, header, body, &mut all)?,
            None => put_constants(alloc, head.entries.as_slice(), &mut all)?,
        },
    }
    Ok(all)
}

/// Puts these constants, and behind them the realized ones that stand behind them, at the end.
pub fn put_group<M: Marks>(
    alloc: Global,
    state: &M,
    asked: &Set<'_>,
    group: &[ConstInfo],
    all: &mut Gathered,
) -> Result<(), NoMemory>
    ensures constants { OnOk result (all.new.constants.items ≡ all.old.constants.items
        ++ spec.group_with (has asked.now.keys) (spec.made_by (M.reals state.now)) group.now) }
    ensures names { OnOk result (all.new.realized.items ≡ all.old.realized.items
        ++ spec.names_with (has asked.now.keys) (spec.made_by (M.reals state.now)) group.now) }
    ensures messages { all.new.messages.items ≡ all.old.messages.items }
{
    let mut made = Vec::new(alloc);
    put_realized(alloc, state, asked, group, &mut made)?;
    put_constants(alloc, group, &mut all.constants)?;
    put_constants(alloc, made.as_slice(), &mut all.constants)?;
    put_names(alloc, made.as_slice(), &mut all.realized)
}

fn put_told(
    alloc: Global,
    value: Option<&TaskValue>,
    all: &mut Vec<Message>,
) -> Result<(), NoMemory>
    ensures { OnOk result (all.new.items ≡ all.old.items ++ (spec.value_or (option_copied value.entry)).messages.messages) }
{
    match value {
        None => Ok(()),
        Some(value) => put_messages(alloc, value.messages.messages.as_slice(), all),
    }
}

/// Puts what the head and the body of a command made and told at the end.
pub fn put_command<M: Marks>(
    alloc: Global,
    state: &M,
    asked: &Set<'_>,
    i: u32,
    all: &mut Gathered,
) -> Result<(), NoMemory>
    ensures constants { OnOk result (all.new.constants.items ≡ all.old.constants.items
        ++ spec.group_with (has asked.now.keys) (spec.made_by (M.reals state.now)) (spec.command_of (M.heads state.now) (M.bodies state.now) i).constants) }
    ensures names { OnOk result (all.new.realized.items ≡ all.old.realized.items
        ++ spec.names_with (has asked.now.keys) (spec.made_by (M.reals state.now)) (spec.command_of (M.heads state.now) (M.bodies state.now) i).constants) }
    ensures messages { OnOk result (all.new.messages.items ≡ all.old.messages.items
        ++ joins.messages_of (spec.command_of (M.heads state.now) (M.bodies state.now) i)) }
{
    let head = state.head(i);
    let body = state.body(i);
    let group = made_constants(alloc, head, body)?;
    put_group(alloc, state, asked, group.as_slice(), all)?;
    put_told(alloc, head, &mut all.messages)?;
    put_told(alloc, body, &mut all.messages)?;
    Ok(())
}
