//! Binders in parentheses, braces and brackets.
ghost use Rattle.std.specs.Prelude.{◌∷◌, [], Some};
ghost use Rattle.lf_text.specs.declared.word.Word.TheVariants as words;
ghost use Rattle.lf_parse_term.specs.Descent.{Told, ToldAs, behind, Shorter, ShorterIfSome, NoLonger, maybe, read, seq};
ghost use Rattle.lf_parse_term.specs.View.{views};
ghost use Rattle.lf_syntax.specs.Rows.{binder_rows, binders_at};
ghost use Rattle.lf_syntax.specs.Symbol as symbol;

use lf_name::BinderKind;
use lf_parse_term::{
    Front, Halt, Piece, binder_name, binder_names, bracket, next, one, stuck, term, word,
};
use lf_syntax::{Binders, Shared};
use lf_text::Word;
use std::alloc::Global;

/// `names : type` and this word, which closes a binder of this kind that began at this place.
#[tactic(auto, using(lf_parse_term::proofs::Lists::behind_tail, lf_parse_term::proofs::Lists::behind_whole, lf_parse_term::proofs::Lists::behind_fails))]
fn typed(
    alloc: Global,
    at: usize,
    kind: BinderKind,
    close: Word,
    toks: &[Piece],
) -> Result<(Option<Binders>, &[Piece]), Halt>
    ensures told { Told result (seq (symbol.binder_name ∷ symbol.binder_names ∷ symbol.token words.Colon ∷ symbol.term 0 ∷ symbol.token close ∷ [])
        (views toks.now)
        (λ x xs _ ty _. Some (binders_at at kind (x ∷ xs) ty))) }
    ensures shorter { Shorter result toks.now }
{
    let (first, rest) = binder_name(alloc, toks)?;
    let (names, rest) = binder_names(alloc, one(alloc, first)?, rest)?;
    let (_, rest) = word(rest, Word::Colon)?;
    let (ty, rest) = term(alloc, rest, 0)?;
    let (_, rest) = word(rest, close)?;
    let names = Shared::of(alloc, names)?;
    Ok((
        Some(Binders {
            at,
            kind,
            names,
            ty,
        }),
        rest,
    ))
}

/// A binder, if one comes next.
#[tactic(auto, using(crate::proofs::First::sooner))]
fn some_binder(alloc: Global, toks: &[Piece]) -> Result<(Option<Binders>, &[Piece]), Halt>
    ensures told { Told result (maybe binder_rows (views toks.now)) }
    ensures shorter { ShorterIfSome result toks.now }
{
    match next(toks) {
        Front::Word(Word::LeftParen, spot, rest) => {
            typed(alloc, spot.at, BinderKind::Explicit, Word::RightParen, rest)
        }
        Front::Word(Word::LeftBrace, spot, rest) => {
            typed(alloc, spot.at, BinderKind::Implicit, Word::RightBrace, rest)
        }
        Front::Word(Word::LeftBracket, spot, rest) => {
            let (binder, rest) = bracket(alloc, spot.at, rest)?;
            Ok((Some(binder), rest))
        }
        _ => Ok((None, toks)),
    }
}

/// A binder.
#[tactic(auto, using(crate::proofs::Symbols::read_binder))]
pub fn binder(alloc: Global, toks: &[Piece]) -> Result<(Binders, &[Piece]), Halt>
    ensures told { Told result (read symbol.binder (views toks.now)) }
    ensures shorter { Shorter result toks.now }
{
    let (binder, rest) = some_binder(alloc, toks)?;
    match binder {
        Some(binder) => Ok((binder, rest)),
        None => Err(stuck(rest)),
    }
}

/// The binders, and behind them as many as there are.
#[tactic(auto, using(crate::proofs::Symbols::read_parameters, lf_parse_term::proofs::Lists::behind_one, lf_parse_term::proofs::Lists::behind_err, lf_parse_term::proofs::Lists::behind_end))]
pub fn parameters(
    alloc: Global,
    first: Vec<Binders>,
    toks: &[Piece],
) -> Result<(Vec<Binders>, &[Piece]), Halt>
    ensures told { ToldAs result (λ v. v.items) (behind first.items (read symbol.parameters (views toks.now))) }
    ensures shorter { NoLonger result toks.now }
{
    let mut all = first;
    let mut rest = toks;
    'list: loop {
        let (binder, more) = some_binder(alloc, rest)?;
        match binder {
            None => return Ok((all, rest)),
            Some(binder) => all.push(binder)?,
        }
        rest = more;
    }
}
