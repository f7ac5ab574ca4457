/// A nesting number, and how many `let`s wait for their `;` in the innermost block or bracket.
#[derive(Clone, Copy, Debug, PartialEq, Eq)]
pub struct Count {
    pub number: usize,
    pub waiting: usize,
}

/// What is open at a token, for the nesting numbers: each with the count at its opening.
#[derive(Clone, Copy, Debug, PartialEq, Eq)]
pub enum Enclosure {
    Block(Count),
    Bracket(Count),
}
