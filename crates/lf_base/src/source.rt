//! Where bytes come from.
ghost use Rattle.std.specs.Prelude.{◌≡◌, ◌≤◌, ◌<◌, ℕ, List, length, Some, None, drop};
ghost use Rattle.std.specs.declared.option.Option.{Option};
ghost use Rattle.lf_base.specs.Outside.{ReadGives};

use std::io::Read;

/// What one read gives.
#[derive(Clone, Copy, Debug, PartialEq, Eq, Drop)]
pub enum ReadOut {
    /// So many bytes were moved to the front of the buffer, at least one.
    Bytes(usize),
    /// Nothing is left.
    End,
    /// A fault rose, and nothing was moved.
    Failed,
}

/// A source of bytes, which may fail.
pub trait Source {
    /// The bytes not yet read, where the source tells them.
    ghost left: { Self → Option (List ℕ) };
    /// How many faults there were. The count never falls.
    ghost faults: { Self → ℕ };

    /// Moves bytes into `buf`, which isn't empty.
    fn read(&mut self, buf: &mut [u8]) -> ReadOut
        requires { 0 < length buf.old }
        ensures count { faults self.old ≤ faults self.new }
        ensures gives { ReadGives (left self.old) (left self.new) (faults self.old) (faults self.new) buf.new result };
}

/// Bytes in memory. The reads whose numbers, from 1, are in `failing` fail; the others hand over at most `chunk` bytes.
#[derive(Drop)]
pub struct MemSource {
    pub bytes: Vec<u8>,
    pub at: usize,
    pub failing: Vec<u32>,
    pub chunk: usize,
    pub reads: u32,
    pub faults: u64,
    ghost in_range: { at ≤ length bytes.items },
    ghost pieces: { 1 ≤ chunk },
}

impl MemSource {
    /// A source with all of `bytes` left and no fault so far.
    pub fn new(bytes: Vec<u8>, failing: Vec<u32>, chunk: usize) -> MemSource
        requires { 1 ≤ chunk }
        ensures left { drop result.at result.bytes.items ≡ bytes.items }
        ensures faults { result.faults ≡ 0 }
    {
        MemSource {
            bytes,
            at: 0,
            failing,
            chunk,
            reads: 0,
            faults: 0,
        }
    }
}

impl Source for MemSource {
    ghost left = { λ s. Some (drop s.at s.bytes.items) };

    ghost faults = { λ s. s.faults };

    fn read(&mut self, buf: &mut [u8]) -> ReadOut {
        self.reads = self.reads.saturating_add(1);
        if self.failing.contains(&self.reads) {
            self.faults = self.faults.saturating_add(1);
            return ReadOut::Failed;
        }
        let rest = &self.bytes[self.at..];
        if rest.is_empty() {
            return ReadOut::End;
        }
        let n = rest.len().min(buf.len()).min(self.chunk);
        buf[..n].copy_from_slice(&rest[..n]);
        self.at += n;
        ReadOut::Bytes(n)
    }
}

/// A real source, which tells nothing of its bytes: the trusted edge. Each `Err` of the reader is a fault.
#[derive(Drop)]
pub struct StdSource<R> {
    inner: R,
    pub faults: u64,
}

impl<R: Read> StdSource<R> {
    /// Wraps a reader; no fault so far.
    pub fn new(inner: R) -> StdSource<R>
        ensures { result.faults ≡ 0 }
    {
        StdSource { inner, faults: 0 }
    }
}

impl<R: Read> Source for StdSource<R> {
    ghost left = { λ _. None };

    ghost faults = { λ s. s.faults };

    fn read(&mut self, buf: &mut [u8]) -> ReadOut {
        match self.inner.read(buf) {
            Ok(0) => ReadOut::End,
            Ok(n) => ReadOut::Bytes(n),
            Err(_) => {
                self.faults = self.faults.saturating_add(1);
                ReadOut::Failed
            }
        }
    }
}
