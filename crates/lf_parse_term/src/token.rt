//! Tokens by themselves: words, numerals, names.
ghost use Rattle.lf_parse_term.specs.Descent.{Told, Shorter, ShorterIfSome, maybe, read};
ghost use Rattle.lf_parse_term.specs.Front.{word_rows, arrow_rows};
ghost use Rattle.lf_syntax.specs.Symbol as symbol;
ghost use Rattle.lf_parse_term.specs.View.{views};

use crate::halt::Halt;
use crate::piece::{Front, Piece, next, stuck};
use lf_syntax::Num;
use lf_text::{Op, Word};

/// The tokens behind this word.
#[tactic(auto, using(crate::proofs::Laws::read_word))]
pub fn word(toks: &[Piece], word: Word) -> Result<((), &[Piece]), Halt>
    ensures told { Told result (read (symbol.token word) (views toks.now)) }
    ensures shorter { Shorter result toks.now }
{
    match next(toks) {
        Front::Word(found, _, rest) if found == word => Ok(((), rest)),
        _ => Err(stuck(toks)),
    }
}

#[tactic(auto, using(crate::proofs::Laws::read_number))]
pub fn number(toks: &[Piece]) -> Result<(Num, &[Piece]), Halt>
    ensures told { Told result (read symbol.number_token (views toks.now)) }
    ensures shorter { Shorter result toks.now }
{
    match next(toks) {
        Front::Number(value, _, spot, rest) => Ok((Num { at: spot.at, value }, rest)),
        _ => Err(stuck(toks)),
    }
}

/// The place of the next token, if it is this word.
pub fn some_word(toks: &[Piece], word: Word) -> Result<(Option<usize>, &[Piece]), Halt>
    ensures told { Told result (maybe (word_rows word) (views toks.now)) }
    ensures shorter { ShorterIfSome result toks.now }
{
    match next(toks) {
        Front::Word(found, spot, rest) if found == word => Ok((Some(spot.at), rest)),
        _ => Ok((None, toks)),
    }
}

/// The tokens behind an arrow.
#[tactic(auto, using(crate::proofs::Laws::read_arrow))]
pub fn arrow(toks: &[Piece]) -> Result<((), &[Piece]), Halt>
    ensures told { Told result (read symbol.arrow_token (views toks.now)) }
    ensures shorter { Shorter result toks.now }
{
    match next(toks) {
        Front::Operator(Op::Arrow, _, rest) => Ok(((), rest)),
        _ => Err(stuck(toks)),
    }
}

/// The tokens behind an arrow, if one comes next.
pub fn some_arrow(toks: &[Piece]) -> Result<(Option<()>, &[Piece]), Halt>
    ensures told { Told result (maybe arrow_rows (views toks.now)) }
    ensures shorter { ShorterIfSome result toks.now }
{
    match next(toks) {
        Front::Operator(Op::Arrow, _, rest) => Ok((Some(()), rest)),
        _ => Ok((None, toks)),
    }
}
