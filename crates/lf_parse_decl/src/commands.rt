//! Commands: declarations, each behind its word, which stands at the place given, and the choice by the word.
ghost use Rattle.lf_text.specs.declared.word.Word.TheVariants as words;
ghost use Rattle.lf_parse_term.specs.Descent.{Told, Shorter, NoLonger, read};
ghost use Rattle.lf_parse_term.specs.View.{views};
ghost use Rattle.lf_parse_decl.specs.Parts.{row_behind};
ghost use Rattle.lf_syntax.specs.Rows.{command_rows};
ghost use Rattle.lf_syntax.specs.Symbol as symbol;

use crate::constructors::ctors;
use crate::definition::{def_rest, defined};
use crate::fields::fields_option;
use crate::head::{decl_head, typed_value};
use crate::helper::helpers;
use crate::leaf::where_option;
use crate::scopes::{
    check, end, namespace, open_names, print, reduce, section, universe, variable,
};
use lf_parse_term::{Front, Halt, Piece, next, stuck, term, type_option, word};
use lf_syntax::{Command, Shared};
use lf_text::Word;
use std::alloc::Global;

/// `axiom`: a head and a type.
#[tactic(auto, using(crate::proofs::Declarations::axiom_is))]
fn axiom(alloc: Global, at: usize, toks: &[Piece]) -> Result<(Command, &[Piece]), Halt>
    ensures told { Told result (row_behind command_rows words.Axiom at (views toks.now)) }
    ensures shorter { NoLonger result toks.now }
{
    let (head, rest) = decl_head(alloc, toks)?;
    let (_, rest) = word(rest, Word::Colon)?;
    let (ty, rest) = term(alloc, rest, 0)?;
    Ok((Command::Axiom(head.decl(at, Some(ty))), rest))
}

/// `def`: a head, and a value or alternatives.
#[tactic(auto, using(crate::proofs::Declarations::def_is))]
fn def(alloc: Global, at: usize, toks: &[Piece]) -> Result<(Command, &[Piece]), Halt>
    ensures told { Told result (row_behind command_rows words.Def at (views toks.now)) }
    ensures shorter { NoLonger result toks.now }
{
    let (head, rest) = decl_head(alloc, toks)?;
    let (behind, rest) = def_rest(alloc, rest)?;
    Ok((defined(head.decl(at, behind.ty), behind.body), rest))
}

/// `theorem`: a head, a type, a value, helpers.
#[tactic(auto, using(crate::proofs::Declarations::theorem_is))]
fn theorem(alloc: Global, at: usize, toks: &[Piece]) -> Result<(Command, &[Piece]), Halt>
    ensures told { Told result (row_behind command_rows words.Theorem at (views toks.now)) }
    ensures shorter { NoLonger result toks.now }
{
    let (head, rest) = decl_head(alloc, toks)?;
    let (stated, rest) = typed_value(alloc, rest)?;
    let (helpers, rest) = helpers(alloc, rest)?;
    let helpers = Shared::of(alloc, helpers)?;
    let decl = head.decl(at, Some(stated.ty));
    let value = stated.value;
    Ok((
        Command::Theorem {
            decl,
            value,
            helpers,
        },
        rest,
    ))
}

/// `inductive`: a head, a type that may stand there, constructors.
#[tactic(auto, using(crate::proofs::Declarations::inductive_is))]
fn inductive(alloc: Global, at: usize, toks: &[Piece]) -> Result<(Command, &[Piece]), Halt>
    ensures told { Told result (row_behind command_rows words.Inductive at (views toks.now)) }
    ensures shorter { NoLonger result toks.now }
{
    let (head, rest) = decl_head(alloc, toks)?;
    let (ty, rest) = type_option(alloc, rest)?;
    let (_, rest) = where_option(rest)?;
    let (ctors, rest) = ctors(alloc, rest)?;
    let ctors = Shared::of(alloc, ctors)?;
    let decl = head.decl(at, ty);
    Ok((Command::Inductive { decl, ctors }, rest))
}

/// `structure`: a head, a type that may stand there, fields.
#[tactic(auto, using(crate::proofs::Declarations::structure_is))]
fn structure(alloc: Global, at: usize, toks: &[Piece]) -> Result<(Command, &[Piece]), Halt>
    ensures told { Told result (row_behind command_rows words.Structure at (views toks.now)) }
    ensures shorter { NoLonger result toks.now }
{
    let (head, rest) = decl_head(alloc, toks)?;
    let (ty, rest) = type_option(alloc, rest)?;
    let (fields, rest) = fields_option(alloc, rest)?;
    let fields = Shared::of(alloc, fields)?;
    let decl = head.decl(at, ty);
    Ok((Command::Structure { decl, fields }, rest))
}

/// `class`: as `structure`.
#[tactic(auto, using(crate::proofs::Declarations::class_is))]
fn class(alloc: Global, at: usize, toks: &[Piece]) -> Result<(Command, &[Piece]), Halt>
    ensures told { Told result (row_behind command_rows words.Class at (views toks.now)) }
    ensures shorter { NoLonger result toks.now }
{
    let (head, rest) = decl_head(alloc, toks)?;
    let (ty, rest) = type_option(alloc, rest)?;
    let (fields, rest) = fields_option(alloc, rest)?;
    let fields = Shared::of(alloc, fields)?;
    let decl = head.decl(at, ty);
    Ok((Command::Class { decl, fields }, rest))
}

/// `instance`: a head, a type, a value.
#[tactic(auto, using(crate::proofs::Declarations::instance_is))]
fn instance(alloc: Global, at: usize, toks: &[Piece]) -> Result<(Command, &[Piece]), Halt>
    ensures told { Told result (row_behind command_rows words.Instance at (views toks.now)) }
    ensures shorter { NoLonger result toks.now }
{
    let (head, rest) = decl_head(alloc, toks)?;
    let (stated, rest) = typed_value(alloc, rest)?;
    let decl = head.decl(at, Some(stated.ty));
    let value = stated.value;
    Ok((Command::Instance { decl, value }, rest))
}

/// The command that comes next, and the tokens behind it. `NoMemory`, or `Stuck(n)` where n tokens are left, the first of which can't stand there.
#[tactic(auto, using(crate::proofs::Declarations::read_command), unfolding(crate::specs::Parts::row_behind))]
pub fn command(alloc: Global, toks: &[Piece]) -> Result<(Command, &[Piece]), Halt>
    ensures value { Told result (read symbol.command (views toks.now)) }
    ensures shorter { Shorter result toks.now }
{
    let Front::Word(first, spot, rest) = next(toks) else {
        return Err(stuck(toks));
    };
    let at = spot.at;
    match first {
        Word::Axiom => axiom(alloc, at, rest),
        Word::Def => def(alloc, at, rest),
        Word::Theorem => theorem(alloc, at, rest),
        Word::Inductive => inductive(alloc, at, rest),
        Word::Structure => structure(alloc, at, rest),
        Word::Class => class(alloc, at, rest),
        Word::Instance => instance(alloc, at, rest),
        Word::Namespace => namespace(alloc, at, rest),
        Word::Section => section(alloc, at, rest),
        Word::End => end(alloc, at, rest),
        Word::Open => open_names(alloc, at, rest),
        Word::Universe => universe(alloc, at, rest),
        Word::Variable => variable(alloc, at, rest),
        Word::Check => check(alloc, at, rest),
        Word::Reduce => reduce(alloc, at, rest),
        Word::Print => print(alloc, at, rest),
        _ => Err(stuck(toks)),
    }
}
