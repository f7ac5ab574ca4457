use crate::operator::Op;
use crate::word::{Spelling, Word};

/// What a token is. Tokens are those of docs/language.md.
#[derive(Clone, Copy, Debug, PartialEq, Eq)]
pub enum TokenKind {
    /// An identifier: parts joined by dots.
    Ident(Spelling),
    /// A reserved word, a symbol that isn't an operator between terms, or a layout token.
    Word(Word),
    /// An operator between two terms.
    Operator(Op),
    /// A numeral below 2^128, and its value.
    Num(u128),
    /// A character that begins no token.
    BadChar,
    /// A `/-` with no `-/` of its own, through the end of the text.
    OpenComment,
    /// Digits and directly after them a part of an identifier.
    BadNum,
    /// A numeral of 2^128 or more.
    WideNum,
}

/// A token of a text.
#[derive(Clone, Copy, Debug, PartialEq, Eq)]
pub struct Token {
    /// Where it begins: the number of bytes of the text before it.
    pub at: usize,
    /// How many bytes it has; none where the layout rules put it in.
    pub len: usize,
    /// What it is.
    pub kind: TokenKind,
}
