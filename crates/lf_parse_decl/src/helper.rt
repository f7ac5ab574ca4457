//! Definitions behind the `where` of another.
ghost use Rattle.lf_parse_term.specs.Descent.{Told, ToldAs, behind, Shorter, NoLonger, read};
ghost use Rattle.lf_parse_term.specs.View.{views};
ghost use Rattle.lf_syntax.specs.Symbol as symbol;

use crate::binders::parameters;
use crate::head::{TypedValue, typed_value};
use lf_parse_term::{Front, Halt, Piece, next, one, one_part, stuck, word};
use lf_syntax::{Helper, Shared};
use lf_text::Word;
use std::alloc::Global;

/// A helper.
#[tactic(auto, using(crate::proofs::Symbols::read_helper, lf_parse_term::proofs::Lists::behind_nil))]
fn helper(alloc: Global, toks: &[Piece]) -> Result<(Helper, &[Piece]), Halt>
    ensures told { Told result (read symbol.helper (views toks.now)) }
    ensures shorter { Shorter result toks.now }
{
    let (name, rest) = one_part(alloc, toks)?;
    let (binders, rest) = parameters(alloc, Vec::new(alloc), rest)?;
    let (TypedValue { ty, value }, rest) = typed_value(alloc, rest)?;
    let binders = Shared::of(alloc, binders)?;
    let at = name.at;
    Ok((
        Helper {
            at,
            name,
            binders,
            ty,
            value,
        },
        rest,
    ))
}

/// The helpers, and behind them those up to the end of the block.
#[tactic(auto, using(crate::proofs::Symbols::read_more_helpers, lf_parse_term::proofs::Lists::behind_one, lf_parse_term::proofs::Lists::behind_err, lf_parse_term::proofs::Lists::behind_end))]
fn more_helpers(
    alloc: Global,
    first: Vec<Helper>,
    toks: &[Piece],
) -> Result<(Vec<Helper>, &[Piece]), Halt>
    ensures told { ToldAs result (λ v. v.items) (behind first.items (read symbol.more_helpers (views toks.now))) }
    ensures shorter { Shorter result toks.now }
{
    let mut all = first;
    let mut rest = toks;
    'list: loop {
        match next(rest) {
            Front::Word(Word::LayoutSep, _, more) | Front::Word(Word::Semicolon, _, more) => {
                let (next, more) = helper(alloc, more)?;
                all.push(next)?;
                rest = more;
            }
            Front::Word(Word::LayoutClose, _, more) => return Ok((all, more)),
            _ => return Err(stuck(rest)),
        }
    }
}

/// The helpers that may stand behind a `where`.
#[tactic(auto, using(crate::proofs::Symbols::read_helpers, lf_parse_term::proofs::Lists::behind_tail, lf_parse_term::proofs::Lists::behind_whole, lf_parse_term::proofs::Lists::behind_fails))]
pub fn helpers(alloc: Global, toks: &[Piece]) -> Result<(Vec<Helper>, &[Piece]), Halt>
    ensures told { ToldAs result (λ v. v.items) (read symbol.helpers (views toks.now)) }
    ensures shorter { NoLonger result toks.now }
{
    match next(toks) {
        Front::Word(Word::Where, _, rest) => {
            let (_, rest) = word(rest, Word::LayoutOpen)?;
            let (first, rest) = helper(alloc, rest)?;
            more_helpers(alloc, one(alloc, first)?, rest)
        }
        _ => Ok((Vec::new(alloc), toks)),
    }
}
