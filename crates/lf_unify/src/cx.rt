//! What the unifier's functions read.
ghost use Rattle.std.specs.Prelude.{◌≡◌, ◌<◌, ◌-◌};

use lf_check::Cx;

/// What stays the same in a call: what the checker reads, and a number of changes that are never taken back.
#[derive(Clone, Copy)]
pub struct UnifyCx<'a> {
    pub check: Cx<'a>,
    pub floor: usize,
}

impl<'a> UnifyCx<'a> {
    /// Where so many changes are never taken back.
    pub fn raised(self, floor: usize) -> UnifyCx<'a>
        ensures view { result.check.view.now ≡ self.entry.check.view.now }
        ensures depth { result.check.depth ≡ self.entry.check.depth }
        ensures floor { result.floor ≡ floor }
    {
        UnifyCx {
            check: self.check,
            floor,
        }
    }

    /// With one nested call fewer.
    pub fn below(self) -> UnifyCx<'a>
        requires { 0 < self.check.depth }
        ensures view { result.check.view.now ≡ self.entry.check.view.now }
        ensures depth { result.check.depth ≡ self.entry.check.depth - 1 }
        ensures floor { result.floor ≡ self.entry.floor }
    {
        UnifyCx {
            check: self.check.below(),
            floor: self.floor,
        }
    }
}
