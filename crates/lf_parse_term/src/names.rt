//! Names by themselves and in lists.
ghost use Rattle.std.specs.Prelude.{◌≡◌, IfOk, ◌∷◌, []};
ghost use Rattle.lf_parse_term.specs.Descent.{Told, ToldAs, behind, Shorter, ShorterIfSome, NoLonger, read, maybe};
ghost use Rattle.lf_syntax.specs.Rows.{one_part_rows, binder_name_rows};
ghost use Rattle.lf_syntax.specs.Build.{underscore_at};
ghost use Rattle.lf_syntax.specs.Symbol as symbol;
ghost use Rattle.lf_parse_term.specs.View.{views};

use crate::halt::Halt;
use crate::piece::{Front, Piece, next, stuck};
use lf_base::NoMemory;
use lf_name::Name;
use lf_syntax::Ident;
use lf_text::{Spelling, Word};
use std::alloc::Global;

/// The name with its place.
pub fn named(alloc: Global, at: usize, name: &Name) -> Result<Ident, NoMemory>
    ensures { IfOk result (λ x. x ≡ record { at = at; name = name.now }) }
{
    let name = name.copy(alloc)?;
    Ok(Ident { at, name })
}

/// The lone `_` as a name.
pub fn underscore(alloc: Global, at: usize) -> Result<Ident, NoMemory>
    ensures { IfOk result (λ x. x ≡ underscore_at at) }
{
    let name = Name::one(alloc, "_")?;
    Ok(Ident { at, name })
}

/// The list of one item.
pub fn one<T: Drop>(alloc: Global, item: T) -> Result<Vec<T>, NoMemory>
    ensures { IfOk result (λ v. v.items ≡ item ∷ []) }
{
    let mut all = Vec::new(alloc);
    all.push(item)?;
    Ok(all)
}

/// An identifier.
#[tactic(auto, using(crate::proofs::Laws::read_any_name))]
pub fn any_name(alloc: Global, toks: &[Piece]) -> Result<(Ident, &[Piece]), Halt>
    ensures told { Told result (read symbol.any_name (views toks.now)) }
    ensures shorter { Shorter result toks.now }
{
    match next(toks) {
        Front::Name(_, name, spot, rest) => Ok((named(alloc, spot.at, name)?, rest)),
        _ => Err(stuck(toks)),
    }
}

/// An identifier of one part, if one comes next.
pub fn some_part(alloc: Global, toks: &[Piece]) -> Result<(Option<Ident>, &[Piece]), Halt>
    ensures told { Told result (maybe one_part_rows (views toks.now)) }
    ensures shorter { ShorterIfSome result toks.now }
{
    match next(toks) {
        Front::Name(Spelling::Several, _, _, _) => Ok((None, toks)),
        Front::Name(_, name, spot, rest) => Ok((Some(named(alloc, spot.at, name)?), rest)),
        _ => Ok((None, toks)),
    }
}

/// An identifier of one part.
#[tactic(auto, using(crate::proofs::Laws::read_one_part))]
pub fn one_part(alloc: Global, toks: &[Piece]) -> Result<(Ident, &[Piece]), Halt>
    ensures told { Told result (read symbol.one_part (views toks.now)) }
    ensures shorter { Shorter result toks.now }
{
    let (name, rest) = some_part(alloc, toks)?;
    match name {
        Some(name) => Ok((name, rest)),
        None => Err(stuck(rest)),
    }
}

/// The name of a binder, which may be `_`, if one comes next.
pub fn some_binder_name(alloc: Global, toks: &[Piece]) -> Result<(Option<Ident>, &[Piece]), Halt>
    ensures told { Told result (maybe binder_name_rows (views toks.now)) }
    ensures shorter { ShorterIfSome result toks.now }
{
    match next(toks) {
        Front::Name(Spelling::Several, _, _, _) => Ok((None, toks)),
        Front::Name(_, name, spot, rest) => Ok((Some(named(alloc, spot.at, name)?), rest)),
        Front::Word(Word::Underscore, spot, rest) => Ok((Some(underscore(alloc, spot.at)?), rest)),
        _ => Ok((None, toks)),
    }
}

/// The name of a binder.
#[tactic(auto, using(crate::proofs::Laws::read_binder_name))]
pub fn binder_name(alloc: Global, toks: &[Piece]) -> Result<(Ident, &[Piece]), Halt>
    ensures told { Told result (read symbol.binder_name (views toks.now)) }
    ensures shorter { Shorter result toks.now }
{
    let (name, rest) = some_binder_name(alloc, toks)?;
    match name {
        Some(name) => Ok((name, rest)),
        None => Err(stuck(rest)),
    }
}

/// The name that may stand there.
#[tactic(auto, using(crate::proofs::Laws::read_optional_name))]
pub fn optional_name(alloc: Global, toks: &[Piece]) -> Result<(Option<Ident>, &[Piece]), Halt>
    ensures told { Told result (read symbol.optional_name (views toks.now)) }
    ensures shorter { NoLonger result toks.now }
{
    match next(toks) {
        Front::Name(_, name, spot, rest) => Ok((Some(named(alloc, spot.at, name)?), rest)),
        _ => Ok((None, toks)),
    }
}

/// The names, and behind them as many as there are.
#[tactic(auto, using(crate::proofs::Laws::read_any_names, crate::proofs::Lists::behind_one, crate::proofs::Lists::behind_err, crate::proofs::Lists::behind_end))]
pub fn any_names(
    alloc: Global,
    first: Vec<Ident>,
    toks: &[Piece],
) -> Result<(Vec<Ident>, &[Piece]), Halt>
    ensures told { ToldAs result (λ v. v.items) (behind first.items (read symbol.any_names (views toks.now))) }
    ensures shorter { NoLonger result toks.now }
{
    let mut all = first;
    let mut rest = toks;
    'list: loop {
        match next(rest) {
            Front::Name(_, name, spot, more) => {
                all.push(named(alloc, spot.at, name)?)?;
                rest = more;
            }
            _ => return Ok((all, rest)),
        }
    }
}

/// The names, and behind them as many of one part as there are.
#[tactic(auto, using(crate::proofs::Laws::read_one_parts, crate::proofs::Lists::behind_one, crate::proofs::Lists::behind_err, crate::proofs::Lists::behind_end))]
pub fn one_parts(
    alloc: Global,
    first: Vec<Ident>,
    toks: &[Piece],
) -> Result<(Vec<Ident>, &[Piece]), Halt>
    ensures told { ToldAs result (λ v. v.items) (behind first.items (read symbol.one_parts (views toks.now))) }
    ensures shorter { NoLonger result toks.now }
{
    let mut all = first;
    let mut rest = toks;
    'list: loop {
        let (name, more) = some_part(alloc, rest)?;
        match name {
            None => return Ok((all, rest)),
            Some(name) => all.push(name)?,
        }
        rest = more;
    }
}

/// The names, and behind them as many names of binders as there are.
#[tactic(auto, using(crate::proofs::Laws::read_binder_names, crate::proofs::Lists::behind_one, crate::proofs::Lists::behind_err, crate::proofs::Lists::behind_end))]
pub fn binder_names(
    alloc: Global,
    first: Vec<Ident>,
    toks: &[Piece],
) -> Result<(Vec<Ident>, &[Piece]), Halt>
    ensures told { ToldAs result (λ v. v.items) (behind first.items (read symbol.binder_names (views toks.now))) }
    ensures shorter { NoLonger result toks.now }
{
    let mut all = first;
    let mut rest = toks;
    'list: loop {
        let (name, more) = some_binder_name(alloc, rest)?;
        match name {
            None => return Ok((all, rest)),
            Some(name) => all.push(name)?,
        }
        rest = more;
    }
}

/// The names, and behind them those up to the brace.
#[tactic(auto, using(crate::proofs::Laws::read_more_level_names, crate::proofs::Lists::behind_one, crate::proofs::Lists::behind_err, crate::proofs::Lists::behind_end))]
pub fn more_level_names(
    alloc: Global,
    first: Vec<Ident>,
    toks: &[Piece],
) -> Result<(Vec<Ident>, &[Piece]), Halt>
    ensures told { ToldAs result (λ v. v.items) (behind first.items (read symbol.more_level_names (views toks.now))) }
    ensures shorter { Shorter result toks.now }
{
    let mut all = first;
    let mut rest = toks;
    'list: loop {
        match next(rest) {
            Front::Word(Word::Comma, _, more) => {
                let (name, more) = one_part(alloc, more)?;
                all.push(name)?;
                rest = more;
            }
            Front::Word(Word::RightBrace, _, more) => return Ok((all, more)),
            _ => return Err(stuck(rest)),
        }
    }
}

/// The names of levels that may stand there in braces.
#[tactic(auto, using(crate::proofs::Laws::read_level_names, crate::proofs::Lists::behind_tail, crate::proofs::Lists::behind_whole, crate::proofs::Lists::behind_fails))]
pub fn level_names(alloc: Global, toks: &[Piece]) -> Result<(Vec<Ident>, &[Piece]), Halt>
    ensures told { ToldAs result (λ v. v.items) (read symbol.level_names (views toks.now)) }
    ensures shorter { NoLonger result toks.now }
{
    match next(toks) {
        Front::Word(Word::LevelBrace, _, rest) => {
            let (first, rest) = one_part(alloc, rest)?;
            more_level_names(alloc, one(alloc, first)?, rest)
        }
        _ => Ok((Vec::new(alloc), toks)),
    }
}
