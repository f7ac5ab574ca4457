//! Reads rows `source | sink | words | text`, makes the run and prints its status and its report: README.md has the form.
#![tactic(auto)]

mod outside;

use lf_base::{MemSink, MemSource};
use lf_front::{Status, run_serial};
use lf_row_text::{RowFault, bytes, shown};
use outside::{sink, source};
use std::alloc::Global;
use std::io;

// The words of a command line; `""` is the empty one.
fn words(alloc: Global, part: &str) -> Result<Vec<String>, RowFault> {
    let mut all = Vec::new(alloc);
    for word in part.split_whitespace() {
        let word = if word == "\"\"" { "" } else { word };
        all.push(String::from_str(alloc, word)?)?;
    }
    Ok(all)
}

// The status with its number, how many bytes were not read, and what was written.
fn told(alloc: Global, status: Status, src: &MemSource, out: &MemSink) -> Result<String, RowFault> {
    let Ok(report) = str::from_utf8(out.bytes.as_slice()) else {
        return Err(RowFault::Malformed);
    };
    let report = shown(alloc, report)?;
    let (code, left) = (status.code(), src.bytes.len() - src.at);
    Ok(format!(in alloc; "{status:?} {code}, {left} left: `{report}`")?)
}

fn next(row: &str) -> Result<(&str, &str), RowFault> {
    row.split_once(" | ").ok_or(RowFault::Malformed)
}

fn run(alloc: Global, row: &str) -> Result<String, RowFault> {
    let (from, row) = next(row)?;
    let (to, row) = next(row)?;
    let (line, text) = match row.split_once(" | ") {
        Some(halves) => halves,
        None => (row, ""),
    };
    let words = words(alloc, line)?;
    let mut src = source(alloc, from, bytes(alloc, text)?)?;
    let mut out = sink(alloc, to)?;
    let status = run_serial(alloc, words.as_slice(), &mut src, &mut out);
    told(alloc, status, &src, &out)
}

// Each status with its number.
fn codes(alloc: Global) -> Result<String, RowFault> {
    let mut line = String::from_str(alloc, "codes:")?;
    for status in [
        Status::Clean,
        Status::BadWords,
        Status::ReadFault,
        Status::WriteFault,
        Status::NoMemory,
        Status::NotBuilt,
    ] {
        let code = status.code();
        write!(line, " {status:?} {code}")?;
    }
    Ok(line)
}

fn answer(alloc: Global, row: &str) -> Result<String, RowFault> {
    match row {
        "codes" => codes(alloc),
        _ => run(alloc, row),
    }
}

fn main(rt: HostRuntime) -> io::Result<()> {
    for line in rt.lines(rt.alloc()) {
        let line = line?;
        match answer(rt.alloc(), line.as_str()) {
            Ok(text) => println!(rt; "{text}")?,
            Err(fault) => println!(rt; "{fault:?}")?,
        }
    }
    Ok(())
}
