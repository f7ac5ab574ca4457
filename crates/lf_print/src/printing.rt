ghost use Rattle.std.specs.Prelude.{◌≡◌, ◌++◌, ◌∷◌, [], ℕ, List, if◌then◌else◌, IfOk, OnOk, true, drop, decimal, slice_get, reverse, string_bytes};
ghost use Rattle.std.specs.Option.{option_copied};
ghost use Rattle.lf_print.specs.Printed.{cut, print_text};
ghost use Rattle.lf_print.specs.Pieces.{todo, open_names};

use crate::page::{Page, blank};
use crate::piece::{Piece, found_pieces, level_pieces, name_pieces, rest_pieces, term_pieces};
use lf_core::{Expr, Name, NoMemory};
use std::alloc::Global;

#[tactic(auto, using(crate::proofs::Opens::name_at, crate::proofs::Opens::name_past))]
/// The name of the open binder that is so many binders out.
fn binder_at<'a>(binders: &[&'a Name], index: u32) -> Option<&'a Name>
    ensures { option_copied result ≡ slice_get (open_names binders.now) index }
{
    let at = index as usize;
    if at < binders.len() {
        Some(binders[binders.len() - 1 - at])
    } else {
        None
    }
}

#[tactic(auto, using(crate::proofs::Opens::piece_put))]
/// Puts the pieces on the stack, the first on its top.
fn put_all<'a>(stack: &mut Vec<Piece<'a>>, pieces: Vec<Piece<'a>>) -> Result<(), NoMemory>
    ensures { OnOk result (reverse stack.new.items ≡ pieces.entry.items ++ reverse stack.old.items) }
{
    let mut left = pieces;
    'pieces: while let Some(piece) = left.pop() {
        stack.push(piece)?;
    }
    Ok(())
}

/// Puts the pieces on the stack, where there is always room.
fn spread<'a>(stack: &mut Vec<Piece<'a>>, pieces: Vec<Piece<'a>>) -> Result<bool, NoMemory>
    ensures put { OnOk result (reverse stack.new.items ≡ pieces.entry.items ++ reverse stack.old.items) }
    ensures room { IfOk result (λ more. more ≡ true) }
{
    put_all(stack, pieces)?;
    Ok(true)
}

/// Writes a number in decimal.
fn write_number(alloc: Global, page: &mut Page, number: u128) -> Result<bool, NoMemory>
    ensures { IfOk result (λ more. (rest : List ℕ)
        → page.old.bytes.items ++ cut page.old.left (decimal number ++ rest)
        ≡ (if more then page.new.bytes.items ++ cut page.new.left rest else page.new.bytes.items)) }
{
    let text = format!(in alloc; "{number}")?;
    page.write(text.as_str().as_bytes())
}

#[tactic(auto, using(crate::proofs::Opens::name_opened))]
/// Opens a binder, or closes one.
fn enter<'a>(binders: &mut Vec<&'a Name>, name: &'a Name) -> Result<bool, NoMemory>
    ensures put { OnOk result (open_names binders.new.items ≡ name.now ∷ open_names binders.old.items) }
    ensures room { IfOk result (λ more. more ≡ true) }
{
    binders.push(name)?;
    Ok(true)
}

#[tactic(auto, using(crate::proofs::Opens::name_opened))]
fn leave(binders: &mut Vec<&Name>)
    ensures { open_names binders.new.items ≡ drop 1 (open_names binders.old.items) }
{
    let _last = binders.pop();
}

/// Writes the piece, or puts what it is made of on the stack. It is false where the page is full.
fn step<'a>(
    alloc: Global,
    piece: Piece<'a>,
    stack: &mut Vec<Piece<'a>>,
    binders: &mut Vec<&'a Name>,
    page: &mut Page,
    names: &'a [Name],
    levels: &'a [Name],
) -> Result<bool, NoMemory>
    ensures { IfOk result (λ more. page.old.bytes.items
        ++ cut page.old.left (todo names.now levels.now (open_names binders.old.items) (piece.entry ∷ reverse stack.old.items))
        ≡ (if more then page.new.bytes.items ++ cut page.new.left (todo names.now levels.now (open_names binders.new.items) (reverse stack.new.items)) else
        page.new.bytes.items)) }
{
    match piece {
        Piece::Mark(mark) => page.write(mark.text().as_bytes()),
        Piece::When(wanted, mark) => {
            if wanted {
                page.write(mark.text().as_bytes())
            } else {
                Ok(true)
            }
        }
        Piece::Words(parts) => spread(stack, name_pieces(alloc, parts)?),
        Piece::Rest(parts) => spread(stack, rest_pieces(alloc, parts)?),
        Piece::Word(word) => page.write(word.as_str().as_bytes()),
        Piece::Number(number) => write_number(alloc, page, number),
        Piece::Bound(index) => spread(
            stack,
            found_pieces(alloc, binder_at(binders.as_slice(), index))?,
        ),
        Piece::Free(k) => spread(stack, found_pieces(alloc, names.get(k as usize))?),
        Piece::Param(k) => spread(stack, found_pieces(alloc, levels.get(k as usize))?),
        Piece::Level(level, part, more) => spread(stack, level_pieces(alloc, level, part, more)?),
        Piece::Term(term, place) => spread(stack, term_pieces(alloc, term, place)?),
        Piece::Open(name) => enter(binders, name),
        Piece::Close => {
            leave(binders);
            Ok(true)
        }
    }
}

/// The bytes of the printed text.
fn print_bytes(
    alloc: Global,
    term: &Expr,
    names: &[Name],
    levels: &[Name],
) -> Result<Vec<u8>, NoMemory>
    ensures { IfOk result (λ bytes. bytes.items ≡ print_text names.now levels.now term.now) }
{
    let mut page = blank(alloc);
    let mut binders = Vec::new(alloc);
    let mut stack = Vec::new(alloc);
    stack.push(Piece::Term(term, 0))?;
    'walk: for _turn in 0..u64::MAX {
        match stack.pop() {
            None => return Ok(page.into_bytes()),
            Some(piece) => {
                if !step(
                    alloc,
                    piece,
                    &mut stack,
                    &mut binders,
                    &mut page,
                    names,
                    levels,
                )? {
                    return Ok(page.into_bytes());
                }
            }
        }
    }
    Err(NoMemory)
}

/// The text of a term, in which free variables and levels have these names: all arguments, operators between their
/// operands, parentheses where they are needed, `?` for what has no name. What is longer than 2,000 code points is cut
/// there and ends in ` ...`. One walk, which stops at the limit.
pub fn print(
    alloc: Global,
    term: &Expr,
    names: &[Name],
    levels: &[Name],
) -> Result<String, NoMemory>
    ensures { IfOk result (λ text. string_bytes text ≡ print_text names.now levels.now term.now) }
{
    match String::from_utf8(print_bytes(alloc, term, names, levels)?) {
        Ok(text) => Ok(text),
        Err(_) => Err(NoMemory),
    }
}
