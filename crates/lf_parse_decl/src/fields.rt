//! The fields of structures and classes.
ghost use Rattle.lf_parse_term.specs.Descent.{Told, ToldAs, behind, Shorter, NoLonger, read};
ghost use Rattle.lf_parse_term.specs.View.{views};
ghost use Rattle.lf_syntax.specs.Symbol as symbol;

use lf_parse_term::{Front, Halt, Piece, next, one, one_part, one_parts, stuck, term, word};
use lf_syntax::{FieldDecl, Shared};
use lf_text::Word;
use std::alloc::Global;

/// Fields of one type.
#[tactic(auto, using(crate::proofs::Symbols::read_field, lf_parse_term::proofs::Lists::behind_tail, lf_parse_term::proofs::Lists::behind_whole, lf_parse_term::proofs::Lists::behind_fails))]
fn field(alloc: Global, toks: &[Piece]) -> Result<(FieldDecl, &[Piece]), Halt>
    ensures told { Told result (read symbol.field (views toks.now)) }
    ensures shorter { Shorter result toks.now }
{
    let (first, rest) = one_part(alloc, toks)?;
    let at = first.at;
    let (names, rest) = one_parts(alloc, one(alloc, first)?, rest)?;
    let (_, rest) = word(rest, Word::Colon)?;
    let (ty, rest) = term(alloc, rest, 0)?;
    let names = Shared::of(alloc, names)?;
    Ok((FieldDecl { at, names, ty }, rest))
}

/// The fields, and behind them those up to the end of the block.
#[tactic(auto, using(crate::proofs::Symbols::read_more_fields, lf_parse_term::proofs::Lists::behind_one, lf_parse_term::proofs::Lists::behind_err, lf_parse_term::proofs::Lists::behind_end))]
fn more_fields(
    alloc: Global,
    first: Vec<FieldDecl>,
    toks: &[Piece],
) -> Result<(Vec<FieldDecl>, &[Piece]), Halt>
    ensures told { ToldAs result (λ v. v.items) (behind first.items (read symbol.more_fields (views toks.now))) }
    ensures shorter { Shorter result toks.now }
{
    let mut all = first;
    let mut rest = toks;
    'list: loop {
        match next(rest) {
            Front::Word(Word::LayoutSep, _, more) | Front::Word(Word::Semicolon, _, more) => {
                let (next, more) = field(alloc, more)?;
                all.push(next)?;
                rest = more;
            }
            Front::Word(Word::LayoutClose, _, more) => return Ok((all, more)),
            _ => return Err(stuck(rest)),
        }
    }
}

/// The fields that may stand behind a `where`.
#[tactic(auto, using(crate::proofs::Symbols::read_fields_option, lf_parse_term::proofs::Lists::behind_tail, lf_parse_term::proofs::Lists::behind_whole, lf_parse_term::proofs::Lists::behind_fails))]
pub fn fields_option(alloc: Global, toks: &[Piece]) -> Result<(Vec<FieldDecl>, &[Piece]), Halt>
    ensures told { ToldAs result (λ v. v.items) (read symbol.fields_option (views toks.now)) }
    ensures shorter { NoLonger result toks.now }
{
    match next(toks) {
        Front::Word(Word::Where, _, rest) => {
            let (_, rest) = word(rest, Word::LayoutOpen)?;
            let (first, rest) = field(alloc, rest)?;
            more_fields(alloc, one(alloc, first)?, rest)
        }
        _ => Ok((Vec::new(alloc), toks)),
    }
}
