//! Sources and sinks as rows write them.
ghost use Rattle.std.specs.Prelude.{◌≤◌, IfOk};

use lf_base::{MemSink, MemSource};
use lf_row_text::RowFault;
use std::alloc::Global;

fn number(word: &str) -> Result<u32, RowFault> {
    match word.parse::<u32>() {
        Ok(number) => Ok(number),
        Err(_) => Err(RowFault::Malformed),
    }
}

// The size of a piece.
fn size(word: &str) -> Result<usize, RowFault>
    ensures { IfOk result (λ n. 1 ≤ n) }
{
    match number(word)? {
        0 => Err(RowFault::Malformed),
        size => Ok(size as usize),
    }
}

// `7`, or `7 failing 2`: the size of a piece, and the number of the call that fails.
fn pieces(alloc: Global, part: &str) -> Result<(usize, Vec<u32>), RowFault>
    ensures { IfOk result (λ r. 1 ≤ r.0) }
{
    let mut failing = Vec::new(alloc);
    match part.split_once(" failing ") {
        Some((pieces, call)) => {
            failing.push(number(call)?)?;
            Ok((size(pieces)?, failing))
        }
        None => Ok((size(part)?, failing)),
    }
}

/// A source of these bytes, in pieces.
pub fn source(alloc: Global, part: &str, text: Vec<u8>) -> Result<MemSource, RowFault> {
    let (size, failing) = pieces(alloc, part)?;
    Ok(MemSource::new(text, failing, size))
}

/// A sink that takes pieces, or one with room for so many bytes: `room 5`.
pub fn sink(alloc: Global, part: &str) -> Result<MemSink, RowFault> {
    if let Some(room) = part.strip_prefix("room ") {
        return Ok(MemSink::stop_after(alloc, u64::from(number(room)?)));
    }
    let (size, failing) = pieces(alloc, part)?;
    Ok(MemSink::new(alloc, failing, size))
}
