//! The constructors of an inductive type.
ghost use Rattle.lf_parse_term.specs.Descent.{Told, ToldAs, NoLonger, Shorter, read};
ghost use Rattle.lf_parse_term.specs.View.{views};
ghost use Rattle.lf_parse_decl.specs.Parts.{ctor as ctor_reading};
ghost use Rattle.lf_syntax.specs.Symbol as symbol;

use crate::binders::parameters;
use lf_parse_term::{Halt, Piece, one_part, some_word, type_option};
use lf_syntax::{CtorDecl, Shared};
use lf_text::Word;
use std::alloc::Global;

/// A constructor, behind its `|`, which stands at this place.
#[tactic(auto, using(lf_parse_term::proofs::Lists::behind_nil), unfolding(crate::specs::Parts::ctor))]
fn ctor(alloc: Global, at: usize, toks: &[Piece]) -> Result<(CtorDecl, &[Piece]), Halt>
    ensures told { Told result (ctor_reading at (views toks.now)) }
    ensures shorter { Shorter result toks.now }
{
    let (name, rest) = one_part(alloc, toks)?;
    let (binders, rest) = parameters(alloc, Vec::new(alloc), rest)?;
    let (ty, rest) = type_option(alloc, rest)?;
    let binders = Shared::of(alloc, binders)?;
    Ok((
        CtorDecl {
            at,
            name,
            binders,
            ty,
        },
        rest,
    ))
}

/// As many constructors as there are.
#[tactic(auto, using(crate::proofs::Symbols::read_ctors, lf_parse_term::proofs::Lists::behind_nil, lf_parse_term::proofs::Lists::behind_one, lf_parse_term::proofs::Lists::behind_err, lf_parse_term::proofs::Lists::behind_end))]
pub fn ctors(alloc: Global, toks: &[Piece]) -> Result<(Vec<CtorDecl>, &[Piece]), Halt>
    ensures told { ToldAs result (λ v. v.items) (read symbol.ctors (views toks.now)) }
    ensures shorter { NoLonger result toks.now }
{
    let mut all = Vec::new(alloc);
    let mut rest = toks;
    'list: loop {
        let (bar, more) = some_word(rest, Word::Bar)?;
        let Some(at) = bar else {
            return Ok((all, more));
        };
        let (next, more) = ctor(alloc, at, more)?;
        all.push(next)?;
        rest = more;
    }
}
