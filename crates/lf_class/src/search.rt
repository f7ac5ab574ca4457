//! What stays the same in a walk.
ghost use Rattle.std.specs.Prelude.{◌≡◌, ◌<◌, ◌-◌};

use lf_check::Cx;
use lf_core::Name;

/// What the checker reads, the names of a scope's classes and instances in order, and how deep a tree may be.
#[derive(Clone, Copy)]
pub struct Search<'a> {
    pub check: Cx<'a>,
    pub classes: &'a [Name],
    pub instances: &'a [Name],
    pub trees: u32,
}

impl<'a> Search<'a> {
    /// One goal deeper: with one nested call and one level of trees fewer.
    pub fn below(self) -> Search<'a>
        requires nested { 0 < self.check.depth }
        requires deep { 0 < self.trees }
        ensures view { result.check.view.now ≡ self.entry.check.view.now }
        ensures depth { result.check.depth ≡ self.entry.check.depth - 1 }
        ensures classes { result.classes.now ≡ self.entry.classes.now }
        ensures instances { result.instances.now ≡ self.entry.instances.now }
        ensures trees { result.trees ≡ self.entry.trees - 1 }
    {
        Search {
            check: self.check.below(),
            trees: self.trees - 1,
            ..self
        }
    }
}
