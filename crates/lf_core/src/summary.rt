//! What is kept beside the node of a shared tree.
ghost use Rattle.std.specs.Prelude.{◌≡◌, ◌↔◌, IsTrue};

/// What is kept beside a level.
#[derive(Clone, Copy, Debug, PartialEq, Eq)]
pub struct LevelSummary {
    pub nodes: u64,
    pub depth: u32,
    pub metavariable: bool,
    pub parameter: bool,
}

/// What is kept beside a term.
#[derive(Clone, Copy, Debug, PartialEq, Eq)]
pub struct Summary {
    pub nodes: u64,
    pub depth: u32,
    pub loose: u32,
    pub free: u32,
    pub metavariable: bool,
    pub level_metavariable: bool,
    pub parameter: bool,
}

impl LevelSummary {
    /// Whether the two say the same.
    pub fn is(self, other: LevelSummary) -> bool
        ensures { IsTrue result ↔ (self ≡ other) }
    {
        self == other
    }
}

impl Summary {
    /// Whether the two say the same.
    pub fn is(self, other: Summary) -> bool
        ensures { IsTrue result ↔ (self ≡ other) }
    {
        self == other
    }
}
