//! Reads rows of diagnostics and of trees of messages, and prints a line of a report for each: README.md has their form.
#![tactic(auto)]

mod diagnostics;
mod faults;
mod parts;
mod trees;

use lf_msg::{Diagnostic, Message};
use lf_notation::Unread;
use std::alloc::Global;
use std::io;

// The severity and the text, as a report has them behind the place.
fn line(alloc: Global, says: &Diagnostic) -> Result<String, Unread> {
    let message = Message::new(alloc, 7, says)?;
    Ok(format!(in alloc; "{}: {}", message.severity, message.text.as_str())?)
}

fn answer(alloc: Global, row: &str) -> Result<String, Unread> {
    let (words, parts) = match row.split_once(" | ") {
        Some(halves) => halves,
        None => (row, ""),
    };
    let (kind, word) = words.split_once(' ').ok_or(Unread::Malformed)?;
    match kind {
        "tree" => trees::flattened(alloc, &trees::tree(alloc, word)?),
        "copy" => trees::flattened(alloc, &trees::tree(alloc, word)?.copy(alloc)?),
        _ => {
            let says = diagnostics::diagnostic(alloc, kind, word, parts)?;
            line(alloc, &says)
        }
    }
}

fn main(rt: HostRuntime) -> io::Result<()> {
    for row in rt.lines(rt.alloc()) {
        let row = row?;
        match answer(rt.alloc(), row.as_str()) {
            Ok(text) => println!(rt; "{text}")?,
            Err(fault) => println!(rt; "{fault:?}")?,
        }
    }
    Ok(())
}
