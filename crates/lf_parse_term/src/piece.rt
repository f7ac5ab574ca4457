ghost use Rattle.std.specs.Prelude.{◌≡◌, ◌<◌, length, None};
ghost use Rattle.lf_parse_term.specs.Descent.{Told, Shorter, reading};
ghost use Rattle.lf_parse_term.specs.Front.{front, word_rows, IsBehind};
ghost use Rattle.lf_parse_term.specs.View.{views};
ghost use Rattle.lf_parse_term.specs.declared.halt.Halt.TheVariants.{Stuck as StuckAt};

use crate::halt::Halt;
use lf_name::Name;
use lf_syntax::SyntaxFault;
use lf_text::{Op, Spelling, Word};

/// What a token is to the grammar.
#[derive(Debug, Drop)]
pub enum Class {
    Word(Word),
    /// An identifier.
    Name(Spelling, Name),
    /// A numeral, and how many digits it has.
    Number(u128, usize),
    Operator(Op),
    /// A token that no command has.
    Wrong(SyntaxFault),
}

/// Where a token stands, in bytes, and its nesting number.
#[derive(Clone, Copy, Debug)]
pub struct Spot {
    pub at: usize,
    pub end: usize,
    pub nesting: usize,
}

/// A token.
#[derive(Debug, Drop)]
pub struct Piece {
    pub class: Class,
    pub spot: Spot,
}

/// The next token, and the tokens behind it.
#[derive(Clone, Copy)]
pub enum Front<'a> {
    End,
    Word(Word, Spot, &'a [Piece]),
    Name(Spelling, &'a Name, Spot, &'a [Piece]),
    Number(u128, usize, Spot, &'a [Piece]),
    Operator(Op, Spot, &'a [Piece]),
    Wrong(SyntaxFault, Spot, &'a [Piece]),
}

/// What comes next.
pub fn next(toks: &[Piece]) -> Front<'_>
    ensures front { front result ≡ views toks.now }
    ensures behind { IsBehind result toks.now }
{
    match toks.split_first() {
        None => Front::End,
        Some((piece, rest)) => match &piece.class {
            Class::Word(w) => Front::Word(*w, piece.spot, rest),
            Class::Name(s, x) => Front::Name(*s, x, piece.spot, rest),
            Class::Number(n, digits) => Front::Number(*n, *digits, piece.spot, rest),
            Class::Operator(o) => Front::Operator(*o, piece.spot, rest),
            Class::Wrong(f) => Front::Wrong(*f, piece.spot, rest),
        },
    }
}

/// Where nothing that can stand there comes next.
pub fn stuck(toks: &[Piece]) -> Halt
    ensures { result ≡ StuckAt (length (views toks.now)) }
{
    Halt::Stuck(toks.len())
}
