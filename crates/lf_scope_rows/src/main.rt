//! Reads rows `call; text` and prints what scopes make of the text: docs/language.md, Scopes. Empty lines and headings
//! behind `--` are printed as they are.
#![tactic(auto)]

mod answers;
mod fault;
mod words;

use crate::answers::answer;
use std::io;

fn main(rt: HostRuntime) -> io::Result<()> {
    for line in rt.lines(rt.alloc()) {
        let line = line?;
        if line.is_empty() || line.as_str().starts_with("--") {
            println!(rt; "{line}")?;
            continue;
        }
        match answer(rt.alloc(), line.as_str()) {
            Ok(text) => println!(rt; "{text}")?,
            Err(fault) => println!(rt; "{fault:?}")?,
        }
    }
    Ok(())
}
