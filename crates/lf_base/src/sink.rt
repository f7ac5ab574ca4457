//! Where bytes go.
ghost use Rattle.std.specs.Prelude.{◌≡◌, ◌≤◌, ◌<◌, ℕ, List, [], length, Some, None, true};
ghost use Rattle.std.specs.declared.option.Option.{Option};
ghost use Rattle.lf_base.specs.Outside.{WriteGives, rose};

use std::alloc::Global;
use std::io::Write;

/// What one write gives.
#[derive(Clone, Copy, Debug, PartialEq, Eq, Drop)]
pub enum WriteOut {
    /// So many bytes from the front of the piece were taken, at least one.
    Took(usize),
    /// A fault rose, and nothing was taken.
    Failed,
}

/// A sink of bytes, which may fail.
pub trait Sink {
    /// The bytes taken so far, where the sink tells them.
    ghost held: { Self → Option (List ℕ) };
    /// How many faults there were. The count never falls.
    ghost faults: { Self → ℕ };

    /// Takes bytes from the front of `piece`, which isn't empty.
    fn write(&mut self, piece: &[u8]) -> WriteOut
        requires { 0 < length piece.now }
        ensures count { faults self.old ≤ faults self.new }
        ensures gives { WriteGives (held self.old) (held self.new) (faults self.old) (faults self.new) piece.now result };
}

/// A sink in memory, which grows as it takes bytes; a growth that is refused is a fault of it.
/// The writes whose numbers, from 1, are in `failing` fail; the others take at most `chunk` bytes, and all together `room`, where it is given.
#[derive(Drop)]
pub struct MemSink {
    pub bytes: Vec<u8>,
    pub room: Option<u64>,
    pub failing: Vec<u32>,
    pub chunk: usize,
    pub writes: u32,
    pub faults: u64,
    ghost pieces: { 1 ≤ chunk },
}

impl MemSink {
    /// A sink that holds nothing, with no fault so far.
    pub fn new(alloc: Global, failing: Vec<u32>, chunk: usize) -> MemSink
        requires { 1 ≤ chunk }
        ensures held { result.bytes.items ≡ [] }
        ensures faults { result.faults ≡ 0 }
        ensures room { result.room ≡ None }
    {
        MemSink {
            bytes: Vec::new(alloc),
            room: None,
            failing,
            chunk,
            writes: 0,
            faults: 0,
        }
    }

    /// A sink that takes `n` bytes in all and then fails every call.
    pub fn stop_after(alloc: Global, n: u64) -> MemSink
        ensures held { result.bytes.items ≡ [] }
        ensures faults { result.faults ≡ 0 }
        ensures room { result.room ≡ Some n }
    {
        MemSink {
            bytes: Vec::new(alloc),
            room: Some(n),
            failing: Vec::new(alloc),
            chunk: usize::MAX,
            writes: 0,
            faults: 0,
        }
    }

    // Counts a fault.
    fn fail(&mut self) -> WriteOut
        ensures failed { result ≡ WriteOut.Failed }
        ensures count { self.old.faults ≤ self.new.faults }
        ensures rose { rose self.old.faults self.new.faults ≡ true }
        ensures same { self.new.bytes.items ≡ self.old.bytes.items }
    {
        self.faults = self.faults.saturating_add(1);
        WriteOut::Failed
    }
}

impl Sink for MemSink {
    ghost held = { λ s. Some s.bytes.items };

    ghost faults = { λ s. s.faults };

    fn write(&mut self, piece: &[u8]) -> WriteOut {
        self.writes = self.writes.saturating_add(1);
        if self.failing.contains(&self.writes) {
            return self.fail();
        }
        let mut n = piece.len().min(self.chunk);
        if let Some(room) = self.room {
            if room == 0 {
                return self.fail();
            }
            if room < n as u64 {
                n = room as usize;
            }
            self.room = Some(room - n as u64);
        }
        if self.bytes.extend_from_slice(&piece[..n]).is_err() {
            return self.fail();
        }
        WriteOut::Took(n)
    }
}

/// A real sink, which tells nothing of its bytes: the trusted edge. Each `Err` of the writer is a fault, and so is taking nothing.
#[derive(Drop)]
pub struct StdSink<W> {
    inner: W,
    pub faults: u64,
}

impl<W: Write> StdSink<W> {
    /// Wraps a writer; no fault so far.
    pub fn new(inner: W) -> StdSink<W>
        ensures { result.faults ≡ 0 }
    {
        StdSink { inner, faults: 0 }
    }
}

impl<W: Write> Sink for StdSink<W> {
    ghost held = { λ _. None };

    ghost faults = { λ s. s.faults };

    fn write(&mut self, piece: &[u8]) -> WriteOut {
        match self.inner.write(piece) {
            Ok(n) if n > 0 => WriteOut::Took(n),
            _ => {
                self.faults = self.faults.saturating_add(1);
                WriteOut::Failed
            }
        }
    }
}
