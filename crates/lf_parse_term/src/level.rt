//! Levels of universes.
ghost use Rattle.std.specs.Prelude.{◌≡◌, Some, None, IfOk, ◌∷◌, []};
ghost use Rattle.lf_parse_term.specs.Descent.{Told, ToldAs, behind, Shorter, ShorterIfSome, NoLonger, read, seq, maybe};
ghost use Rattle.lf_syntax.specs.Tree.{level_name};
ghost use Rattle.lf_syntax.specs.Symbol as symbol;
ghost use Rattle.lf_syntax.specs.Rows.{level_atom_rows, plus as plus_tree};
ghost use Rattle.lf_parse_term.specs.View.{views};

use crate::halt::Halt;
use crate::piece::{Front, Piece, next, stuck};
use crate::token::{number, word};
use lf_base::NoMemory;
use lf_name::Name;
use lf_syntax::{Ident, LevelNode, LevelTerm, Num};
use lf_text::{Op, Spelling, Word};
use std::alloc::Global;

#[tactic(auto, using(crate::proofs::Laws::read_plus))]
fn plus_option(toks: &[Piece]) -> Result<(Option<Num>, &[Piece]), Halt>
    ensures told { Told result (read symbol.plus_option (views toks.now)) }
    ensures shorter { NoLonger result toks.now }
{
    match next(toks) {
        Front::Operator(Op::Add, _, rest) => {
            let (value, rest) = number(rest)?;
            Ok((Some(value), rest))
        }
        _ => Ok((None, toks)),
    }
}

fn plus(alloc: Global, at: usize, base: LevelTerm, add: Option<Num>) -> Result<LevelTerm, NoMemory>
    ensures { IfOk result (λ l. l ≡ plus_tree at base add) }
{
    match add {
        None => Ok(base),
        Some(add) => LevelTerm::of(alloc, LevelNode::Plus { at, base, add }),
    }
}

fn name_level(alloc: Global, at: usize, name: &Name) -> Result<LevelTerm, NoMemory>
    ensures { IfOk result (λ l. l ≡ level_name (record { at = at; name = name.now })) }
{
    let name = name.copy(alloc)?;
    LevelTerm::of(alloc, LevelNode::Name(Ident { at, name }))
}

#[cycle(level)]
#[tactic(auto, using(crate::proofs::Laws::read_level))]
fn level(alloc: Global, toks: &[Piece]) -> Result<(LevelTerm, &[Piece]), Halt>
    ensures told { Told result (read symbol.level (views toks.now)) }
    ensures shorter { Shorter result toks.now }
{
    match next(toks) {
        Front::Number(value, _, spot, rest) => {
            let base = LevelTerm::of(alloc, LevelNode::Num(Num { at: spot.at, value }))?;
            let (add, rest) = plus_option(rest)?;
            Ok((plus(alloc, spot.at, base, add)?, rest))
        }
        Front::Name(Spelling::Max, name, spot, rest) => {
            let name = name.copy(alloc)?;
            max_rest(alloc, Ident { at: spot.at, name }, rest)
        }
        Front::Name(Spelling::Imax, name, spot, rest) => {
            let name = name.copy(alloc)?;
            imax_rest(alloc, Ident { at: spot.at, name }, rest)
        }
        Front::Name(Spelling::Several, _, _, _) => Err(stuck(toks)),
        Front::Name(_, name, spot, rest) => {
            let base = name_level(alloc, spot.at, name)?;
            let (add, rest) = plus_option(rest)?;
            Ok((plus(alloc, spot.at, base, add)?, rest))
        }
        Front::Word(Word::LeftParen, spot, rest) => {
            let (base, rest) = level(alloc, rest)?;
            let (_, rest) = word(rest, Word::RightParen)?;
            let (add, rest) = plus_option(rest)?;
            Ok((plus(alloc, spot.at, base, add)?, rest))
        }
        _ => Err(stuck(toks)),
    }
}

#[cycle(level)]
fn some_atom(alloc: Global, toks: &[Piece]) -> Result<(Option<LevelTerm>, &[Piece]), Halt>
    ensures told { Told result (maybe level_atom_rows (views toks.now)) }
    ensures shorter { ShorterIfSome result toks.now }
{
    match next(toks) {
        Front::Number(value, _, spot, rest) => {
            let level = LevelTerm::of(alloc, LevelNode::Num(Num { at: spot.at, value }))?;
            Ok((Some(level), rest))
        }
        Front::Name(Spelling::Several, _, _, _) => Ok((None, toks)),
        Front::Name(_, name, spot, rest) => { Ok((Some(name_level(alloc, spot.at, name)?), rest)) }
        Front::Word(Word::LeftParen, _, rest) => {
            let (inside, rest) = level(alloc, rest)?;
            let (_, rest) = word(rest, Word::RightParen)?;
            Ok((Some(inside), rest))
        }
        _ => Ok((None, toks)),
    }
}

#[cycle(level)]
#[tactic(auto, using(crate::proofs::Laws::read_level_atom))]
fn level_atom(alloc: Global, toks: &[Piece]) -> Result<(LevelTerm, &[Piece]), Halt>
    ensures told { Told result (read symbol.level_atom (views toks.now)) }
    ensures shorter { NoLonger result toks.now }
{
    let (first, rest) = some_atom(alloc, toks)?;
    match first {
        Some(level) => Ok((level, rest)),
        None => Err(stuck(rest)),
    }
}

#[cycle(level)]
#[tactic(auto, using(crate::proofs::Laws::read_imax))]
fn imax_rest(alloc: Global, x: Ident, toks: &[Piece]) -> Result<(LevelTerm, &[Piece]), Halt>
    ensures told { Told result (read (symbol.imax_rest x) (views toks.now)) }
    ensures shorter { NoLonger result toks.now }
{
    let (first, rest) = some_atom(alloc, toks)?;
    let at = x.at;
    match first {
        None => {
            let base = LevelTerm::of(alloc, LevelNode::Name(x))?;
            let (add, rest) = plus_option(rest)?;
            Ok((plus(alloc, at, base, add)?, rest))
        }
        Some(left) => {
            let (right, rest) = level_atom(alloc, rest)?;
            Ok((
                LevelTerm::of(alloc, LevelNode::Imax { at, left, right })?,
                rest,
            ))
        }
    }
}

#[cycle(level)]
#[tactic(auto, using(crate::proofs::Laws::read_max))]
fn max_rest(alloc: Global, x: Ident, toks: &[Piece]) -> Result<(LevelTerm, &[Piece]), Halt>
    ensures told { Told result (read (symbol.max_rest x) (views toks.now)) }
    ensures shorter { NoLonger result toks.now }
{
    let (first, rest) = some_atom(alloc, toks)?;
    let at = x.at;
    match first {
        None => {
            let base = LevelTerm::of(alloc, LevelNode::Name(x))?;
            let (add, rest) = plus_option(rest)?;
            Ok((plus(alloc, at, base, add)?, rest))
        }
        Some(left) => {
            let mut parts = Vec::new(alloc);
            parts.push(left)?;
            let (right, rest) = level_atom(alloc, rest)?;
            parts.push(right)?;
            let (parts, rest) = level_atoms(alloc, parts, rest)?;
            Ok((LevelTerm::of(alloc, LevelNode::Max { at, parts })?, rest))
        }
    }
}

/// The parts, and behind them as many atoms of levels as there are.
#[cycle(level)]
#[tactic(auto, using(crate::proofs::Laws::read_level_atoms, crate::proofs::Lists::behind_one, crate::proofs::Lists::behind_err, crate::proofs::Lists::behind_end))]
fn level_atoms(
    alloc: Global,
    parts: Vec<LevelTerm>,
    toks: &[Piece],
) -> Result<(Vec<LevelTerm>, &[Piece]), Halt>
    ensures told { ToldAs result (λ v. v.items) (behind parts.items (read symbol.level_atoms (views toks.now))) }
    ensures shorter { NoLonger result toks.now }
{
    let mut all = parts;
    let mut rest = toks;
    'list: loop {
        let (atom, more) = some_atom(alloc, rest)?;
        match atom {
            None => return Ok((all, rest)),
            Some(level) => all.push(level)?,
        }
        rest = more;
    }
}

/// The levels, and behind them those up to the brace.
#[tactic(auto, using(crate::proofs::Laws::read_more_levels, crate::proofs::Lists::behind_one, crate::proofs::Lists::behind_err, crate::proofs::Lists::behind_end))]
fn more_levels(
    alloc: Global,
    first: Vec<LevelTerm>,
    toks: &[Piece],
) -> Result<(Vec<LevelTerm>, &[Piece]), Halt>
    ensures told { ToldAs result (λ v. v.items) (behind first.items (read symbol.more_levels (views toks.now))) }
    ensures shorter { Shorter result toks.now }
{
    let mut all = first;
    let mut rest = toks;
    'list: loop {
        match next(rest) {
            Front::Word(Word::Comma, _, more) => {
                let (level, more) = level(alloc, more)?;
                all.push(level)?;
                rest = more;
            }
            Front::Word(Word::RightBrace, _, more) => return Ok((all, more)),
            _ => return Err(stuck(rest)),
        }
    }
}

/// Written levels, if there are any.
#[tactic(auto, using(crate::proofs::Laws::read_written_levels, crate::proofs::Lists::behind_tail, crate::proofs::Lists::behind_whole, crate::proofs::Lists::behind_fails))]
pub fn written_levels(alloc: Global, toks: &[Piece]) -> Result<(Vec<LevelTerm>, &[Piece]), Halt>
    ensures told { ToldAs result (λ v. v.items) (read symbol.written_levels (views toks.now)) }
    ensures shorter { NoLonger result toks.now }
{
    match next(toks) {
        Front::Word(Word::LevelBrace, _, rest) => {
            let mut all = Vec::new(alloc);
            let (first, rest) = level(alloc, rest)?;
            all.push(first)?;
            more_levels(alloc, all, rest)
        }
        _ => Ok((Vec::new(alloc), toks)),
    }
}
