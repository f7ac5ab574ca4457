//! Reads rows `topic call | argument | argument` and prints what the calls on names, levels, terms and metavariables
//! answer. Empty lines and headings behind `--` are printed as they are.
#![tactic(auto)]

mod constants;
mod fault;
mod levels;
mod literals;
mod metavariables;
mod names;
mod order;
mod rewriting;
mod row;
mod substitution;
mod terms;

use crate::fault::Fault;
use crate::row::Row;
use std::alloc::Global;
use std::io;

fn answer(alloc: Global, line: &str) -> Result<String, Fault> {
    let mut row = Row::new(alloc, line);
    let (topic, call) = row.text()?.split_once(' ').ok_or(Fault::Malformed)?;
    match topic {
        "name" => names::answer(call, &mut row),
        "level" => levels::answer(call, &mut row),
        "term" => terms::answer(call, &mut row),
        "constant" => constants::answer(call, &mut row),
        "order" => order::answer(call, &mut row),
        "literal" => literals::answer(call, &mut row),
        "substitution" => substitution::answer(call, &mut row),
        "metavariables" => metavariables::answer(call, &row),
        "rewriting" => rewriting::answer(call, &mut row),
        _ => Err(Fault::Malformed),
    }
}

fn main(rt: HostRuntime) -> io::Result<()> {
    for line in rt.lines(rt.alloc()) {
        let line = line?;
        if line.is_empty() || line.as_str().starts_with("--") {
            println!(rt; "{line}")?;
            continue;
        }
        match answer(rt.alloc(), line.as_str()) {
            Ok(text) => println!(rt; "{text}")?,
            Err(fault) => println!(rt; "{fault:?}")?,
        }
    }
    Ok(())
}
