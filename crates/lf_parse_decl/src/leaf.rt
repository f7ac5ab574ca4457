//! Tokens that commands alone have.
ghost use Rattle.lf_parse_term.specs.Descent.{Told, Shorter, ShorterIfSome, NoLonger, maybe, read};
ghost use Rattle.lf_parse_term.specs.View.{views};
ghost use Rattle.lf_parse_decl.specs.Parts.{digit_rows, add_rows};
ghost use Rattle.lf_syntax.specs.Symbol as symbol;

use lf_parse_term::{Front, Halt, Piece, next, stuck};
use lf_text::{Op, Spelling, Word};

/// The place of the next token, if it is this digit alone.
pub fn some_digit(toks: &[Piece], digit: u128) -> Result<(Option<usize>, &[Piece]), Halt>
    ensures told { Told result (maybe (digit_rows digit) (views toks.now)) }
    ensures shorter { ShorterIfSome result toks.now }
{
    match next(toks) {
        Front::Number(value, digits, spot, rest) if value == digit && digits == 1 => {
            Ok((Some(spot.at), rest))
        }
        _ => Ok((None, toks)),
    }
}

/// The numeral `1`.
#[tactic(auto, using(crate::proofs::Symbols::read_numeral_one))]
pub fn numeral_one(toks: &[Piece]) -> Result<((), &[Piece]), Halt>
    ensures told { Told result (read symbol.numeral_one (views toks.now)) }
    ensures shorter { Shorter result toks.now }
{
    let (found, rest) = some_digit(toks, 1)?;
    match found {
        Some(_) => Ok(((), rest)),
        None => Err(stuck(rest)),
    }
}

/// The tokens behind a `+`, if one comes next.
pub fn some_add(toks: &[Piece]) -> Result<(Option<()>, &[Piece]), Halt>
    ensures told { Told result (maybe add_rows (views toks.now)) }
    ensures shorter { ShorterIfSome result toks.now }
{
    match next(toks) {
        Front::Operator(Op::Add, _, rest) => Ok((Some(()), rest)),
        _ => Ok((None, toks)),
    }
}

/// The word `axioms`.
#[tactic(auto, using(crate::proofs::Symbols::read_axioms_word))]
pub fn axioms_word(toks: &[Piece]) -> Result<((), &[Piece]), Halt>
    ensures told { Told result (read symbol.axioms_word (views toks.now)) }
    ensures shorter { Shorter result toks.now }
{
    match next(toks) {
        Front::Name(Spelling::Axioms, _, _, rest) => Ok(((), rest)),
        _ => Err(stuck(toks)),
    }
}

/// The tokens behind a `where` that may stand there.
#[tactic(auto, using(crate::proofs::Symbols::read_where_option))]
pub fn where_option(toks: &[Piece]) -> Result<((), &[Piece]), Halt>
    ensures told { Told result (read symbol.where_option (views toks.now)) }
    ensures shorter { NoLonger result toks.now }
{
    match next(toks) {
        Front::Word(Word::Where, _, rest) => Ok(((), rest)),
        _ => Ok(((), toks)),
    }
}
