//! Reads rows `names; levels; term` and prints each term as text: docs/language.md, Printed terms.
#![tactic(auto)]

use lf_notation::{Unread, names, term};
use lf_print::print;
use std::alloc::Global;
use std::io;

fn printed(alloc: Global, variables: &str, levels: &str, row: &str) -> Result<String, Unread> {
    let variables = names(alloc, variables)?;
    let levels = names(alloc, levels)?;
    let term = term(alloc, row)?;
    Ok(print(alloc, &term, variables.as_slice(), levels.as_slice())?)
}

fn answer(alloc: Global, row: &str) -> Result<String, Unread> {
    let Some((variables, rest)) = row.split_once(';') else {
        return Err(Unread::Malformed);
    };
    let Some((levels, row)) = rest.split_once(';') else {
        return Err(Unread::Malformed);
    };
    printed(alloc, variables, levels, row)
}

fn main(rt: HostRuntime) -> io::Result<()> {
    for line in rt.lines(rt.alloc()) {
        let line = line?;
        match answer(rt.alloc(), line.as_str()) {
            Ok(text) => println!(rt; "{text}")?,
            Err(fault) => println!(rt; "{fault:?}")?,
        }
    }
    Ok(())
}
