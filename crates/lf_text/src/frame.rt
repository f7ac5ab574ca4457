/// What is open at a place of a command, for the layout rules.
#[derive(Clone, Copy, Debug, PartialEq, Eq)]
pub enum Frame {
    /// A block, and its column.
    Block(usize),
    /// A bracket.
    Bracket,
}
