//! Prints what views find, and what a branch takes: docs/language.md, Views.
#![tactic(auto)]

mod constants;
mod many;
mod stages;
mod takes;
mod tells;

use lf_core::NoMemory;
use std::io;

fn show(rt: &HostRuntime, lines: Result<String, NoMemory>) -> io::Result<()> {
    match lines {
        Ok(text) => print!(rt; "{text}"),
        Err(NoMemory) => println!(rt; "no memory"),
    }
}

fn main(rt: HostRuntime) -> io::Result<()> {
    let alloc = rt.alloc();
    show(&rt, stages::while_open(alloc))?;
    show(&rt, stages::before_it(alloc))?;
    show(&rt, stages::when_joined(alloc))?;
    show(&rt, stages::for_realized(alloc))?;
    show(&rt, stages::when_answered(alloc))?;
    show(&rt, takes::lines(alloc))?;
    show(&rt, many::lines(alloc))
}
