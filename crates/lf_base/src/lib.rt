//! The program's outside: where bytes come from and where they go.
#![tactic(auto)]

mod memory;
mod sink;
mod source;
mod stop;
mod whole;

pub use memory::NoMemory;
pub use sink::{MemSink, Sink, StdSink, WriteOut};
pub use source::{MemSource, ReadOut, Source, StdSource};
pub use stop::{Budget, NeverStop, ScriptStop, Stop};
pub use whole::{ReadAll, WriteAll, read_all, write_all};

#[cfg(test)]
mod tests;
