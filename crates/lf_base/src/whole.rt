//! Whole reads and writes.
ghost use Rattle.std.specs.Prelude.{◌≡◌, ◌≤◌, ◌<◌, ◌^◌, length};
ghost use Rattle.lf_base.specs.Outside.{ReadsAll, WritesAll};

use crate::{ReadOut, Sink, Source, WriteOut};
use std::alloc::Global;

/// What reading to the end gives.
#[derive(Drop)]
pub enum ReadAll {
    /// All bytes; nothing is left.
    Whole(Vec<u8>),
    /// There are more than the limit; the limit and one byte more were read.
    TooLong,
    /// A fault rose in the source.
    Failed,
    /// Memory ran out.
    NoMemory,
}

/// Whether all was written.
#[derive(Clone, Copy, Drop)]
pub enum WriteAll {
    /// The sink took the whole text.
    Done,
    /// A fault rose in the sink, which took a beginning of the text.
    Failed,
}

/// Reads to the end: at most `limit` bytes, and one more to see that there are more.
pub fn read_all<S: Source>(alloc: Global, src: &mut S, limit: usize) -> ReadAll
    requires { limit < 2 ^ 32 }
    ensures count { S.faults src.old ≤ S.faults src.new }
    ensures gives { ReadsAll limit (S.left src.old) (S.left src.new) (S.faults src.old) (S.faults src.new) result }
{
    let mut text: Vec<u8> = Vec::new(alloc);
    let mut piece = [0u8; 4096];
    for _ in 0..limit + 2 {
        let room = (limit + 1 - text.len()).min(4096);
        match src.read(&mut piece[..room]) {
            ReadOut::Bytes(n) => {
                if text.extend_from_slice(&piece[..n]).is_err() {
                    return ReadAll::NoMemory;
                }
                if text.len() > limit {
                    return ReadAll::TooLong;
                }
            }
            ReadOut::End => return ReadAll::Whole(text),
            ReadOut::Failed => return ReadAll::Failed,
        }
    }
    unreachable!()
}

/// Writes the whole of `text`.
pub fn write_all<K: Sink>(out: &mut K, text: &[u8]) -> WriteAll
    ensures count { K.faults out.old ≤ K.faults out.new }
    ensures gives { WritesAll (K.held out.old) (K.held out.new) (K.faults out.old) (K.faults out.new) text.now result }
{
    let mut at = 0;
    while at < text.len() {
        match out.write(&text[at..]) {
            WriteOut::Took(n) => at += n,
            WriteOut::Failed => return WriteAll::Failed,
        }
    }
    WriteAll::Done
}
