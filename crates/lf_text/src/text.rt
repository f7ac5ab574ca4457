ghost use Rattle.std.specs.Prelude.{◌≡◌, ◌↔◌, ◌<◌, ◌≤◌, ℕ, length, take, drop, count_by, Err, IfOk, IfErr};
ghost use Rattle.std.specs.List.{after_last};
ghost use Rattle.std.specs.Str.{IsCharBoundary};
ghost use Rattle.lf_text.specs.Place.{StopsBeingUtf8, is_line_feed, line_of, column_of};
ghost use Rattle.lf_text.specs.Starts.{line_starts};

use std::alloc::{AllocError, Global};
use std::marker::Model;
use thiserror::Error;

/// The greatest number of bytes of a text.
pub const LARGEST_TEXT: usize = 1_048_576;

/// Why bytes are no text.
#[derive(Clone, Copy, Debug, Error)]
pub enum TextFault {
    /// There are more than `LARGEST_TEXT` bytes.
    #[error("more than {LARGEST_TEXT} bytes")]
    TooLong,
    /// The bytes aren't UTF-8; the first `at` of them are, and no longer front is.
    #[error("no UTF-8 after {at} bytes")]
    NotUtf8 { at: usize },
    /// Memory ran out.
    #[error("no memory")]
    NoMemory,
}

/// A text of at most `LARGEST_TEXT` bytes, in UTF-8. Contracts see it as its bytes.
#[derive(Debug, Drop)]
pub struct Text {
    text: String,
    /// The places behind the line feeds.
    starts: Vec<usize>,
}

impl Model for Text {
    ghost use Rattle.std.specs.Prelude.{List, ℕ, ◌≡◌, ◌≤◌, length, string_bytes};
    ghost use Rattle.lf_text.specs.Starts.{line_starts};

    ghost Value = { List ℕ };

    ghost view = { λ t. string_bytes t.text };

    ghost invariant = { λ t. (length (string_bytes t.text) ≤ 1048576) × (t.starts.items ≡ line_starts 0 (string_bytes t.text)) };
}

impl Text {
    /// The text of these bytes. `TooLong` comes exactly above `LARGEST_TEXT` bytes; below,
    /// `NotUtf8` exactly where the bytes aren't UTF-8, at the length of their longest front that is.
    pub fn read(alloc: Global, bytes: &[u8]) -> Result<Text, TextFault>
        ensures text { IfOk result (λ t. t ≡ bytes.now) }
        ensures too_long { (result ≡ Err TextFault.TooLong) ↔ (LARGEST_TEXT < length bytes.now) }
        ensures not_utf8 { (at : ℕ) → (result ≡ Err (TextFault.NotUtf8 at)) ↔ StopsBeingUtf8 LARGEST_TEXT bytes.now at }
    {
        if bytes.len() > LARGEST_TEXT {
            return Err(TextFault::TooLong);
        }
        match str::from_utf8(bytes) {
            Ok(text) => Text::keep(alloc, text).map_err(|_| TextFault::NoMemory),
            Err(fault) => Err(TextFault::NotUtf8 {
                at: fault.valid_up_to(),
            }),
        }
    }

    fn keep(alloc: Global, text: &str) -> Result<Text, AllocError>
        requires { length text.now ≤ LARGEST_TEXT }
        ensures { IfOk result (λ t. t ≡ text.now) }
    {
        Ok(Text {
            starts: line_starts(alloc, text.as_bytes())?,
            text: String::from_str(alloc, text)?,
        })
    }

    /// The text as a `str`. Takes no memory.
    pub fn as_str(&self) -> &str
        ensures text { result.now ≡ self.now }
        ensures short { length result.now ≤ LARGEST_TEXT }
    {
        self.text.as_str()
    }

    /// A text of the same bytes; its one fault is `NoMemory`.
    pub fn copy(&self, alloc: Global) -> Result<Text, TextFault>
        ensures text { IfOk result (λ t. t ≡ self.now) }
        ensures fault { IfErr result (λ e. e ≡ TextFault.NoMemory) }
    {
        Text::keep(alloc, self.text.as_str()).map_err(|_| TextFault::NoMemory)
    }

    /// The line, from 1, and the column, from 0 and in characters, of the place that has `at`
    /// bytes before it. Takes no memory, and time for its own line and the logarithm of the lines.
    pub fn line_col(&self, at: usize) -> (u32, u32)
        requires { IsCharBoundary self.now at }
        ensures line { result.0 ≡ line_of self.now at }
        ensures column { result.1 ≡ column_of self.now at }
    {
        let text = self.text.as_str();
        let (feeds, start) = line_before(text, &self.starts, at);
        let column = text[start..at].chars().count();
        ((feeds + 1) as u32, column as u32)
    }
}

/// The places behind the line feeds.
fn line_starts(alloc: Global, bytes: &[u8]) -> Result<Vec<usize>, AllocError>
    ensures { IfOk result (λ v. v.items ≡ line_starts 0 bytes.now) }
{
    let mut starts = Vec::new(alloc);
    'bytes: for (i, b) in bytes.iter().enumerate() {
        if *b == b'\n' {
            starts.push(i + 1)?;
        }
    }
    Ok(starts)
}

/// How many line feeds stand before the place, and where its line begins.
fn line_before(text: &str, starts: &[usize], at: usize) -> (usize, usize)
    requires starts { starts.now ≡ line_starts 0 text.now }
    requires within { at ≤ length text.now }
    ensures feeds { result.0 ≡ count_by is_line_feed (take at text.now) }
    ensures before { result.1 ≤ at }
    ensures boundary { IsCharBoundary text.now result.1 }
    ensures line { after_last is_line_feed (take at text.now) ≡ drop result.1 (take at text.now) }
{
    let feeds = starts.partition_point(|start| *start <= at);
    if feeds == 0 {
        return (0, 0);
    }
    (feeds, starts[feeds - 1])
}
