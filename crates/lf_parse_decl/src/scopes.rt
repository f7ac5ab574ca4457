//! Commands that declare nothing, each behind its word, which stands at the place given.
ghost use Rattle.lf_text.specs.declared.word.Word.TheVariants as words;
ghost use Rattle.lf_parse_term.specs.Descent.{Told, Shorter, NoLonger};
ghost use Rattle.lf_parse_term.specs.View.{views};
ghost use Rattle.lf_parse_decl.specs.Parts.{row_behind};
ghost use Rattle.lf_syntax.specs.Rows.{command_rows};

use crate::binders::{binder, parameters};
use crate::leaf::axioms_word;
use lf_parse_term::{
    Halt, Piece, any_name, any_names, one, one_part, one_parts, optional_name, term,
};
use lf_syntax::{Command, Shared};
use std::alloc::Global;

/// `namespace`: a name.
#[tactic(auto, unfolding(crate::specs::Parts::row_behind))]
pub fn namespace(alloc: Global, at: usize, toks: &[Piece]) -> Result<(Command, &[Piece]), Halt>
    ensures told { Told result (row_behind command_rows words.Namespace at (views toks.now)) }
    ensures shorter { NoLonger result toks.now }
{
    let (name, rest) = any_name(alloc, toks)?;
    Ok((Command::Namespace { at, name }, rest))
}

/// `section`: a name that may stand there.
#[tactic(auto, unfolding(crate::specs::Parts::row_behind))]
pub fn section(alloc: Global, at: usize, toks: &[Piece]) -> Result<(Command, &[Piece]), Halt>
    ensures told { Told result (row_behind command_rows words.Section at (views toks.now)) }
    ensures shorter { NoLonger result toks.now }
{
    let (name, rest) = optional_name(alloc, toks)?;
    Ok((Command::Section { at, name }, rest))
}

/// `end`: a name that may stand there.
#[tactic(auto, unfolding(crate::specs::Parts::row_behind))]
pub fn end(alloc: Global, at: usize, toks: &[Piece]) -> Result<(Command, &[Piece]), Halt>
    ensures told { Told result (row_behind command_rows words.End at (views toks.now)) }
    ensures shorter { NoLonger result toks.now }
{
    let (name, rest) = optional_name(alloc, toks)?;
    Ok((Command::End { at, name }, rest))
}

/// `open`: one name or more.
#[tactic(auto, using(lf_parse_term::proofs::Lists::behind_tail, lf_parse_term::proofs::Lists::behind_whole, lf_parse_term::proofs::Lists::behind_fails), unfolding(crate::specs::Parts::row_behind))]
pub fn open_names(alloc: Global, at: usize, toks: &[Piece]) -> Result<(Command, &[Piece]), Halt>
    ensures told { Told result (row_behind command_rows words.Open at (views toks.now)) }
    ensures shorter { NoLonger result toks.now }
{
    let (first, rest) = any_name(alloc, toks)?;
    let (names, rest) = any_names(alloc, one(alloc, first)?, rest)?;
    let names = Shared::of(alloc, names)?;
    Ok((Command::OpenNames { at, names }, rest))
}

/// `universe`: one name or more, each of one part.
#[tactic(auto, using(lf_parse_term::proofs::Lists::behind_tail, lf_parse_term::proofs::Lists::behind_whole, lf_parse_term::proofs::Lists::behind_fails), unfolding(crate::specs::Parts::row_behind))]
pub fn universe(alloc: Global, at: usize, toks: &[Piece]) -> Result<(Command, &[Piece]), Halt>
    ensures told { Told result (row_behind command_rows words.Universe at (views toks.now)) }
    ensures shorter { NoLonger result toks.now }
{
    let (first, rest) = one_part(alloc, toks)?;
    let (names, rest) = one_parts(alloc, one(alloc, first)?, rest)?;
    let names = Shared::of(alloc, names)?;
    Ok((Command::Universe { at, names }, rest))
}

/// `variable`: one binder or more.
#[tactic(auto, using(lf_parse_term::proofs::Lists::behind_tail, lf_parse_term::proofs::Lists::behind_whole, lf_parse_term::proofs::Lists::behind_fails), unfolding(crate::specs::Parts::row_behind))]
pub fn variable(alloc: Global, at: usize, toks: &[Piece]) -> Result<(Command, &[Piece]), Halt>
    ensures told { Told result (row_behind command_rows words.Variable at (views toks.now)) }
    ensures shorter { NoLonger result toks.now }
{
    let (first, rest) = binder(alloc, toks)?;
    let (binders, rest) = parameters(alloc, one(alloc, first)?, rest)?;
    let binders = Shared::of(alloc, binders)?;
    Ok((Command::Variable { at, binders }, rest))
}

/// `#check`: a term.
#[tactic(auto, unfolding(crate::specs::Parts::row_behind))]
pub fn check(alloc: Global, at: usize, toks: &[Piece]) -> Result<(Command, &[Piece]), Halt>
    ensures told { Told result (row_behind command_rows words.Check at (views toks.now)) }
    ensures shorter { NoLonger result toks.now }
{
    let (term, rest) = term(alloc, toks, 0)?;
    Ok((Command::Check { at, term }, rest))
}

/// `#reduce`: a term.
#[tactic(auto, unfolding(crate::specs::Parts::row_behind))]
pub fn reduce(alloc: Global, at: usize, toks: &[Piece]) -> Result<(Command, &[Piece]), Halt>
    ensures told { Told result (row_behind command_rows words.Reduce at (views toks.now)) }
    ensures shorter { NoLonger result toks.now }
{
    let (term, rest) = term(alloc, toks, 0)?;
    Ok((Command::Reduce { at, term }, rest))
}

/// `#print`: the word `axioms` and a name.
#[tactic(auto, unfolding(crate::specs::Parts::row_behind))]
pub fn print(alloc: Global, at: usize, toks: &[Piece]) -> Result<(Command, &[Piece]), Halt>
    ensures told { Told result (row_behind command_rows words.Print at (views toks.now)) }
    ensures shorter { NoLonger result toks.now }
{
    let (_, rest) = axioms_word(toks)?;
    let (name, rest) = any_name(alloc, rest)?;
    Ok((Command::PrintAxioms { at, name }, rest))
}
