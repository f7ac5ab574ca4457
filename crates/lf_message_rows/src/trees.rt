//! Trees of messages, and the order of their messages.
use lf_base::NoMemory;
use lf_msg::{Diagnostic, Message, Tree};
use lf_notation::Unread;
use std::alloc::Global;

fn number(part: &str) -> Result<usize, Unread> {
    match part.parse::<usize>() {
        Ok(number) => Ok(number),
        Err(_) => Err(Unread::Malformed),
    }
}

// Messages at these places, which stand between commas.
fn messages(alloc: Global, places: &str) -> Result<Vec<Message>, Unread> {
    let mut all = Vec::new(alloc);
    for place in places.split(',') {
        if !place.is_empty() {
            let message = Message::new(alloc, number(place)?, &Diagnostic::BudgetSpent)?;
            all.push(message)?;
        }
    }
    Ok(all)
}

// The last trees that were read, so many, the last one first.
fn children(alloc: Global, count: usize, read: &mut Vec<Tree>) -> Result<Vec<Tree>, Unread> {
    let mut all = Vec::new(alloc);
    for _ in 0..count {
        all.push(read.pop().ok_or(Unread::Malformed)?)?;
    }
    Ok(all)
}

fn node(alloc: Global, word: &str, read: &mut Vec<Tree>) -> Result<Tree, Unread> {
    let (places, count) = match word.split_once('/') {
        Some((places, count)) => (places, number(count)?),
        None => (word, 0),
    };
    let messages = messages(alloc, places)?;
    let children = children(alloc, count, read)?;
    Ok(Tree { messages, children })
}

/// The tree of these nodes, each before its children: the places of its messages, and behind `/` how many children it
/// has.
pub fn tree(alloc: Global, row: &str) -> Result<Tree, Unread> {
    let mut read = Vec::new(alloc);
    for word in row.rsplit(' ') {
        let node = node(alloc, word, &mut read)?;
        read.push(node)?;
    }
    match read.pop() {
        Some(tree) if read.is_empty() => Ok(tree),
        _ => Err(Unread::Malformed),
    }
}

fn put(line: &mut String, place: usize) -> Result<(), NoMemory> {
    if !line.is_empty() {
        line.push(' ')?;
    }
    write!(line, "{place}")?;
    Ok(())
}

/// The places of the tree's messages, in the order of a report.
pub fn flattened(alloc: Global, tree: &Tree) -> Result<String, Unread> {
    let mut line = String::new(alloc);
    for message in &tree.flatten(alloc)? {
        put(&mut line, message.at)?;
    }
    Ok(line)
}
