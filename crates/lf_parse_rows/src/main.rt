//! Reads rows `call text` and prints what the call gives for the text: README.md lists the calls.
#![tactic(auto)]

mod copies;
mod texts;
mod tokens;
mod words;

use lf_parse_cmd::parse;
use lf_row_text::{RowFault, bytes};
use lf_syntax::Command;
use lf_text::Text;
use std::alloc::Global;
use std::io;

fn of_commands(alloc: Global, call: &str, commands: &[Command]) -> Result<String, RowFault> {
    match call {
        "commands" => Ok(words::shown(alloc, commands)?),
        "copies" => copies::compared(alloc, commands),
        "trees" => copies::trees(alloc, commands),
        _ => Err(RowFault::Malformed),
    }
}

fn of_text(alloc: Global, call: &str, text: &Text) -> Result<String, RowFault> {
    if let Some(place) = call.strip_prefix("place:") {
        return texts::place(alloc, text, place);
    }
    match call {
        "text" => texts::same(alloc, text),
        "copy" => texts::copied(alloc, text),
        "length" => texts::length(alloc, text),
        "tokens" => tokens::letters(alloc, text),
        "places" => tokens::places(alloc, text),
        "values" => tokens::values(alloc, text),
        "nesting" => tokens::nesting(alloc, text),
        _ => {
            let commands = parse(alloc, text)?;
            let answer = of_commands(alloc, call, commands.as_slice());
            drop(commands);
            answer
        }
    }
}

// The answer for bytes that are no text says why they aren't.
fn answer(alloc: Global, row: &str) -> Result<String, RowFault> {
    let (call, row) = match row.split_once(' ') {
        Some(halves) => halves,
        None => (row, ""),
    };
    let bytes = bytes(alloc, row)?;
    match Text::read(alloc, bytes.as_slice()) {
        Ok(text) => of_text(alloc, call, &text),
        Err(fault) => Ok(format!(in alloc; "{fault}")?),
    }
}

fn main(rt: HostRuntime) -> io::Result<()> {
    for line in rt.lines(rt.alloc()) {
        let line = line?;
        match answer(rt.alloc(), line.as_str()) {
            Ok(text) => println!(rt; "{text}")?,
            Err(fault) => println!(rt; "{fault:?}")?,
        }
    }
    Ok(())
}
