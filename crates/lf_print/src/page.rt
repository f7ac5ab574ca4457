ghost use Rattle.std.specs.Prelude.{◌≡◌, ◌++◌, ◌∷◌, [], ℕ, List, if◌then◌else◌, IfOk};
ghost use Rattle.lf_print.specs.Printed.{cut, limit, is_lead};

use crate::mark::Mark;
use lf_core::NoMemory;
use std::alloc::Global;

/// The greatest number of code points of a printed text.
pub const LIMIT: u32 = 2000;

/// The text so far, in UTF-8, and how many code points may still come.
#[derive(Drop)]
pub struct Page {
    pub bytes: Vec<u8>,
    pub left: u32,
}

/// Whether a code point begins with this byte.
fn leads(byte: u8) -> bool
    ensures { result ≡ is_lead byte }
{
    byte < 128 || 192 <= byte
}

/// An empty page.
pub fn blank(alloc: Global) -> Page
    ensures { (result.bytes.items ≡ []) × (result.left ≡ limit) }
{
    Page {
        bytes: Vec::new(alloc),
        left: LIMIT,
    }
}

impl Page {
    /// Writes a byte, or that the text goes on where it is full, and then it isn't to be written to any more.
    fn put(&mut self, byte: u8) -> Result<bool, NoMemory>
        ensures { IfOk result (λ more. (rest : List ℕ)
            → self.old.bytes.items ++ cut self.old.left (byte ∷ rest)
            ≡ (if more then self.new.bytes.items ++ cut self.new.left rest else self.new.bytes.items)) }
    {
        if leads(byte) {
            if self.left == 0 {
                self.bytes.extend_from_slice(Mark::Cut.text().as_bytes())?;
                return Ok(false);
            }
            self.left -= 1;
        }
        self.bytes.push(byte)?;
        Ok(true)
    }

    /// Writes a text, and tells whether it found room.
    pub fn write(&mut self, text: &[u8]) -> Result<bool, NoMemory>
        ensures { IfOk result (λ more. (rest : List ℕ)
            → self.old.bytes.items ++ cut self.old.left (text.now ++ rest)
            ≡ (if more then self.new.bytes.items ++ cut self.new.left rest else self.new.bytes.items)) }
    {
        match text {
            [] => Ok(true),
            [byte, rest @ ..] => {
                if self.put(*byte)? {
                    self.write(rest)
                } else {
                    Ok(false)
                }
            }
        }
    }

    /// The text.
    pub fn into_bytes(self) -> Vec<u8>
        ensures { result ≡ self.bytes }
    {
        let Page { bytes, left: _ } = self;
        bytes
    }
}
