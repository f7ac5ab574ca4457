//! The program: makes the real outside and calls the run.
#![tactic(auto)]

use lf_base::{StdSink, StdSource};
use lf_front::{Status, run_serial};
use std::env;
use std::io::{self, ErrorKind};
use std::process::ExitCode;

/// The words of the command line. A word that isn't UTF-8 makes a faulty command line, which has none.
fn words(rt: &HostRuntime) -> io::Result<Vec<String>> {
    let alloc = rt.alloc();
    match env::args(rt) {
        Ok(args) => Ok(args.collect(alloc)?),
        Err(error) => match error.kind() {
            ErrorKind::OutOfMemory => Err(error),
            _ => Ok(Vec::new(alloc)),
        },
    }
}

fn main(rt: HostRuntime) -> ExitCode {
    let mut src = StdSource::new(rt.stdin());
    let mut out = StdSink::new(rt.stdout());
    let status = match words(&rt) {
        Ok(words) => run_serial(rt.alloc(), words.as_slice(), &mut src, &mut out),
        Err(_) => Status::NoMemory,
    };
    ExitCode::from(status.code())
}
