//! The alternatives of a definition.
ghost use Rattle.lf_parse_term.specs.Descent.{Told, ToldAs, Shorter, NoLonger, read};
ghost use Rattle.lf_parse_term.specs.View.{views};
ghost use Rattle.lf_parse_decl.specs.Parts.{alternative as alternative_reading};
ghost use Rattle.lf_syntax.specs.Symbol as symbol;

use crate::patterns::pattern;
use lf_parse_term::{Halt, Piece, some_word, term, word};
use lf_syntax::Alternative;
use lf_text::Word;
use std::alloc::Global;

/// An alternative, behind its `|`, which stands at this place.
#[tactic(auto, unfolding(crate::specs::Parts::alternative))]
fn alternative(alloc: Global, at: usize, toks: &[Piece]) -> Result<(Alternative, &[Piece]), Halt>
    ensures told { Told result (alternative_reading at (views toks.now)) }
    ensures shorter { Shorter result toks.now }
{
    let (pattern, rest) = pattern(alloc, toks)?;
    let (_, rest) = word(rest, Word::FatArrow)?;
    let (term, rest) = term(alloc, rest, 0)?;
    Ok((Alternative { at, pattern, term }, rest))
}

/// As many alternatives as there are.
#[tactic(auto, using(crate::proofs::Symbols::read_alternatives, lf_parse_term::proofs::Lists::behind_nil, lf_parse_term::proofs::Lists::behind_one, lf_parse_term::proofs::Lists::behind_err, lf_parse_term::proofs::Lists::behind_end))]
pub fn alternatives(alloc: Global, toks: &[Piece]) -> Result<(Vec<Alternative>, &[Piece]), Halt>
    ensures told { ToldAs result (λ v. v.items) (read symbol.alternatives (views toks.now)) }
    ensures shorter { NoLonger result toks.now }
{
    let mut all = Vec::new(alloc);
    let mut rest = toks;
    'list: loop {
        let (bar, more) = some_word(rest, Word::Bar)?;
        let Some(at) = bar else {
            return Ok((all, more));
        };
        let (next, more) = alternative(alloc, at, more)?;
        all.push(next)?;
        rest = more;
    }
}
