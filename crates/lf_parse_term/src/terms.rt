//! Terms and their binders.
ghost use Rattle.std.specs.Prelude.{◌≡◌, ◌<◌, ◌≤◌, ◌+◌, ◌∷◌, [], length, map, option_map, Some, None};
ghost use Rattle.lf_name.specs.declared.binder.BinderKind.TheVariants.{Implicit as ImplicitKind};
ghost use Rattle.lf_syntax.specs.Levels.{operand_level};
ghost use Rattle.lf_syntax.specs.Levels as levels;
ghost use Rattle.lf_syntax.specs.Rows.{operand_rows, lambda_binder_rows, group_end_rows, term_rows, implicit_binder, tree_of};
ghost use Rattle.lf_syntax.specs.Build.{with_arguments};
ghost use Rattle.lf_syntax.specs.Symbol as symbol;
ghost use Rattle.lf_syntax.specs.TermNode.{lbinder_trees, lbinder_tree, binders_tree};
ghost use Rattle.lf_syntax.specs.Tree as tree;
ghost use Rattle.lf_text.specs.declared.word.Word.TheVariants as words;
ghost use Rattle.lf_parse_term.specs.Descent.{Told, ToldAs, behind, Shorter, ShorterIfSome, NoLonger, read, reading, seq, maybe};
ghost use Rattle.lf_parse_term.specs.Spine.{
  ToldThen,
  IsAtom,
  after,
  after_maybe,
  extended,
  chained,
  operation as operation_reading,
  closed_rows,
  Within,
  weight,
  some_lead,
  names_end as names_end_reading,
  named_close as named_close_reading,
  bracket_name_by,
};
ghost use Rattle.lf_parse_term.specs.View.{views};

use crate::build::{
    application, explicit_binders, ident, implicit, levels_behind, name_term, name_terms,
    operation, unnamed,
};
use crate::element::Element;
use crate::halt::Halt;
use crate::items::block;
use crate::level::written_levels;
use crate::names::{
    any_name, binder_name, binder_names, named, one, one_part, some_binder_name, some_part,
    underscore,
};
use crate::piece::{Front, Piece, next, stuck};
use crate::sort::put;
use crate::token::{arrow, some_arrow, some_word, word};
use lf_name::BinderKind;
use lf_syntax::{Binders, Ident, LBinder, Num, Shared, Term, TermNode};
use lf_text::{Op, Spelling, Word};
use std::alloc::Global;

/// Whether a chain of at least this level takes the operator behind a term of this level.
fn takes(least: u8, level: u8, op: Op) -> bool
    ensures { result ≡ levels.takes least level op }
{
    least <= op.level() && op.left() <= level
}

/// The term without arguments of its own.
fn atom(alloc: Global, node: TermNode, toks: &[Piece]) -> Result<(Option<Element>, &[Piece]), Halt>
    ensures { IsAtom result node toks.now }
{
    Ok((Some(Element::Atom(Term::of(alloc, node)?)), toks))
}

/// A term of at least this level.
#[cycle(term)]
#[tactic(auto, using(crate::proofs::Forms::read_term))]
pub fn term(alloc: Global, toks: &[Piece], least: u8) -> Result<(Term, &[Piece]), Halt>
    ensures told { Told result (read (symbol.term least) (views toks.now)) }
    ensures shorter { Shorter result toks.now }
{
    let (not, rest) = some_word(toks, Word::NotSign)?;
    match not {
        Some(at) => {
            let (inside, rest) = term(alloc, rest, 40)?;
            let first = Term::of(alloc, TermNode::Not { at, term: inside })?;
            chain(alloc, first, rest, least)
        }
        None => operation_of(alloc, Vec::new(alloc), rest, least),
    }
}

/// The terms with the arguments behind them, as an application with the operators behind it.
#[cycle(term)]
#[tactic(auto, using(crate::proofs::Arguments::operation_empty, crate::proofs::Arguments::operation_some, crate::proofs::Arguments::operation_err))]
fn operation_of(
    alloc: Global,
    terms: Vec<Term>,
    toks: &[Piece],
    least: u8,
) -> Result<(Term, &[Piece]), Halt>
    ensures told { Told result (operation_reading least terms.items (views toks.now)) }
    ensures shorter { NoLonger result toks.now }
    ensures within { Within result (λ _. 1) (length terms.items + length toks.now) }
{
    let (all, rest) = arguments(alloc, terms, toks)?;
    if all.is_empty() {
        return Err(stuck(rest));
    }
    let first = application(alloc, all)?;
    chain(alloc, first, rest, least)
}

/// The term with the operators behind it.
#[cycle(term)]
#[tactic(auto, using(crate::proofs::Forms::read_operators, crate::proofs::Forms::chained_one, crate::proofs::Forms::chained_err, crate::proofs::Forms::chained_end))]
fn chain(alloc: Global, first: Term, toks: &[Piece], least: u8) -> Result<(Term, &[Piece]), Halt>
    ensures told { Told result (chained first (read (symbol.operators least operand_level) (views toks.now))) }
    ensures shorter { NoLonger result toks.now }
{
    let mut left = first;
    let mut level: u8 = 100;
    let mut rest = toks;
    'list: loop {
        let Front::Operator(op, _, more) = next(rest) else {
            return Ok((left, rest));
        };
        if !takes(least, level, op) {
            return Ok((left, rest));
        }
        let (right, more) = term(alloc, more, op.right())?;
        left = operation(alloc, op, left, right)?;
        level = op.level();
        rest = more;
    }
}

/// The terms, and behind them the arguments that come next.
#[cycle(term)]
#[tactic(auto, using(crate::proofs::Arguments::argument_none, crate::proofs::Arguments::argument_atom, crate::proofs::Arguments::argument_lead, crate::proofs::Arguments::argument_err))]
fn arguments(alloc: Global, terms: Vec<Term>, toks: &[Piece]) -> Result<(Vec<Term>, &[Piece]), Halt>
    ensures told { ToldAs result (λ v. v.items) (extended terms.items (read symbol.arguments (views toks.now))) }
    ensures shorter { NoLonger result toks.now }
    ensures within { Within result (λ v. length v.items) (length terms.items + length toks.now) }
{
    let mut all = terms;
    let mut rest = toks;
    'list: loop {
        let (next, more) = element(alloc, rest)?;
        let Some(next) = next else {
            return Ok((all, more));
        };
        match next {
            Element::Atom(term) => all = put(alloc, all, term)?,
            Element::Lead(term) => return Ok((put(alloc, all, term)?, more)),
        }
        rest = more;
    }
}

/// What comes next of an application.
#[cycle(term)]
#[tactic(auto, using(crate::proofs::Arguments::group_some, crate::proofs::Forms::within_shorter), unfolding(crate::specs::Spine::after_maybe))]
fn element(alloc: Global, toks: &[Piece]) -> Result<(Option<Element>, &[Piece]), Halt>
    ensures told { ToldThen result after_maybe (maybe operand_rows (views toks.now)) }
    ensures shorter { Within result weight (length toks.now) }
{
    match next(toks) {
        Front::Name(_, name, spot, rest) => {
            let name = name.copy(alloc)?;
            let (levels, rest) = written_levels(alloc, rest)?;
            let name = Ident { at: spot.at, name };
            let term = ident(alloc, spot.at, false, name, levels)?;
            Ok((Some(Element::Atom(term)), rest))
        }
        Front::Number(value, _, spot, rest) => {
            let term = Term::of(alloc, TermNode::Num(Num { at: spot.at, value }))?;
            Ok((Some(Element::Atom(term)), rest))
        }
        Front::Word(word, spot, rest) => match word {
            Word::AtSign => {
                let (name, rest) = any_name(alloc, rest)?;
                let (levels, rest) = written_levels(alloc, rest)?;
                let term = ident(alloc, spot.at, true, name, levels)?;
                Ok((Some(Element::Atom(term)), rest))
            }
            Word::Underscore => atom(alloc, TermNode::Hole { at: spot.at }, rest),
            Word::Sorry => atom(alloc, TermNode::Sorry { at: spot.at }, rest),
            Word::PropWord => atom(alloc, TermNode::Prop { at: spot.at }, rest),
            Word::TypeWord => atom(
                alloc,
                TermNode::TypeU {
                    at: spot.at,
                    level: None,
                },
                rest,
            ),
            Word::SortWord => atom(
                alloc,
                TermNode::SortU {
                    at: spot.at,
                    level: None,
                },
                rest,
            ),
            Word::LeftParen => {
                let (inside, rest) = group(alloc, spot.at, rest)?;
                Ok((Some(inside), rest))
            }
            Word::Fun => fun_term(alloc, spot.at, rest),
            Word::Forall => forall_term(alloc, spot.at, rest),
            Word::Let => let_term(alloc, spot.at, rest),
            Word::By => by_term(alloc, spot.at, rest),
            Word::LeftBrace => brace_arrow(alloc, spot.at, rest),
            Word::LeftBracket => bracket_arrow(alloc, spot.at, rest),
            _ => Ok((None, toks)),
        },
        _ => Ok((None, toks)),
    }
}

/// `fun`, behind its word.
#[cycle(term)]
#[tactic(auto, using(crate::proofs::Lists::behind_tail, crate::proofs::Lists::behind_whole, crate::proofs::Lists::behind_fails, crate::proofs::Forms::lambdas_are), unfolding(crate::specs::Spine::after_maybe))]
fn fun_term(alloc: Global, at: usize, toks: &[Piece]) -> Result<(Option<Element>, &[Piece]), Halt>
    ensures told { ToldThen result after_maybe (seq (symbol.lambda_binder ∷ symbol.lambda_binders ∷ symbol.token words.FatArrow ∷ symbol.term 0 ∷ [])
        (views toks.now)
        (λ b bs _ t. some_lead (tree.fun_term at (tree.binders_of (b ∷ bs)) t))) }
    ensures shorter { Shorter result toks.now }
{
    let (first, rest) = lambda_binder(alloc, toks)?;
    let (binders, rest) = lambda_binders(alloc, one(alloc, first)?, rest)?;
    let (_, rest) = word(rest, Word::FatArrow)?;
    let (body, rest) = term(alloc, rest, 0)?;
    let term = Term::of(alloc, TermNode::Fun { at, binders, body })?;
    Ok((Some(Element::Lead(term)), rest))
}

/// `∀`, behind its word.
#[cycle(term)]
#[tactic(auto, using(crate::proofs::Lists::behind_tail, crate::proofs::Lists::behind_whole, crate::proofs::Lists::behind_fails, crate::proofs::Forms::lambdas_are), unfolding(crate::specs::Spine::after_maybe))]
fn forall_term(
    alloc: Global,
    at: usize,
    toks: &[Piece],
) -> Result<(Option<Element>, &[Piece]), Halt>
    ensures told { ToldThen result after_maybe (seq (symbol.lambda_binder ∷ symbol.lambda_binders ∷ symbol.token words.Comma ∷ symbol.term 0 ∷ [])
        (views toks.now)
        (λ b bs _ t. some_lead (tree.forall_term at (tree.binders_of (b ∷ bs)) t))) }
    ensures shorter { Shorter result toks.now }
{
    let (first, rest) = lambda_binder(alloc, toks)?;
    let (binders, rest) = lambda_binders(alloc, one(alloc, first)?, rest)?;
    let (_, rest) = word(rest, Word::Comma)?;
    let (body, rest) = term(alloc, rest, 0)?;
    let term = Term::of(alloc, TermNode::Forall { at, binders, body })?;
    Ok((Some(Element::Lead(term)), rest))
}

/// `let`, behind its word.
#[cycle(term)]
#[tactic(auto, using(crate::proofs::Lists::behind_tail, crate::proofs::Lists::behind_whole, crate::proofs::Lists::behind_fails), unfolding(crate::specs::Spine::after_maybe))]
fn let_term(alloc: Global, at: usize, toks: &[Piece]) -> Result<(Option<Element>, &[Piece]), Halt>
    ensures told { ToldThen result after_maybe (seq
        (symbol.one_part ∷ symbol.type_option ∷ symbol.token words.Assign ∷ symbol.term 0 ∷ symbol.token words.Semicolon ∷ symbol.term 0 ∷ []) (views toks.now)
        (λ x ty _ v _ t. some_lead (tree.let_term at x (tree.option_of ty) v t))) }
    ensures shorter { Shorter result toks.now }
{
    let (name, rest) = one_part(alloc, toks)?;
    let (ty, rest) = type_option(alloc, rest)?;
    let (_, rest) = word(rest, Word::Assign)?;
    let (value, rest) = term(alloc, rest, 0)?;
    let (_, rest) = word(rest, Word::Semicolon)?;
    let (body, rest) = term(alloc, rest, 0)?;
    let node = TermNode::Let {
        at,
        name,
        ty,
        value,
        body,
    };
    let term = Term::of(alloc, node)?;
    Ok((Some(Element::Lead(term)), rest))
}

/// `by`, behind its word.
#[cycle(term)]
#[tactic(auto, using(crate::proofs::Lists::behind_tail, crate::proofs::Lists::behind_whole, crate::proofs::Lists::behind_fails), unfolding(crate::specs::Spine::after_maybe))]
fn by_term(alloc: Global, at: usize, toks: &[Piece]) -> Result<(Option<Element>, &[Piece]), Halt>
    ensures told { ToldThen result after_maybe (seq (symbol.block ∷ []) (views toks.now)
        (λ items. some_lead (tree.by_term at (tree.items_of items)))) }
    ensures shorter { Shorter result toks.now }
{
    let (items, rest) = block(alloc, toks)?;
    let term = Term::of(alloc, TermNode::By { at, items })?;
    Ok((Some(Element::Lead(term)), rest))
}

/// An arrow behind a binder in braces, behind the brace.
#[cycle(term)]
#[tactic(auto, using(crate::proofs::Lists::behind_tail, crate::proofs::Lists::behind_whole, crate::proofs::Lists::behind_fails), unfolding(crate::specs::Spine::after_maybe))]
fn brace_arrow(
    alloc: Global,
    at: usize,
    toks: &[Piece],
) -> Result<(Option<Element>, &[Piece]), Halt>
    ensures told { ToldThen result after_maybe (seq
        (symbol.binder_name ∷ symbol.binder_names ∷ symbol.token words.Colon ∷ symbol.term 0 ∷ symbol.token words.RightBrace ∷ symbol.arrow_token
        ∷ symbol.term 0 ∷ []) (views toks.now)
        (λ x xs _ ty _ _ t. some_lead (tree.arrow at (tree.binders at ImplicitKind (x ∷ xs) ty) t))) }
    ensures shorter { Shorter result toks.now }
{
    let (first, rest) = binder_name(alloc, toks)?;
    let (names, rest) = binder_names(alloc, one(alloc, first)?, rest)?;
    let (_, rest) = word(rest, Word::Colon)?;
    let (ty, rest) = term(alloc, rest, 0)?;
    let (_, rest) = word(rest, Word::RightBrace)?;
    let names = Shared::of(alloc, names)?;
    let kind = BinderKind::Implicit;
    arrow_behind(
        alloc,
        Binders {
            at,
            kind,
            names,
            ty,
        },
        rest,
    )
}

/// The arrow behind this binder.
#[cycle(term)]
#[tactic(auto, unfolding(crate::specs::Spine::after_maybe))]
fn arrow_behind(
    alloc: Global,
    binder: Binders,
    toks: &[Piece],
) -> Result<(Option<Element>, &[Piece]), Halt>
    ensures told { ToldThen result after_maybe (seq (symbol.arrow_token ∷ symbol.term 0 ∷ []) (views toks.now)
        (λ _ t. some_lead (tree.arrow binder.at (tree_of binder) t))) }
    ensures shorter { Shorter result toks.now }
{
    let (_, rest) = arrow(toks)?;
    let (body, rest) = term(alloc, rest, 0)?;
    let at = binder.at;
    let term = Term::of(alloc, TermNode::Arrow { at, binder, body })?;
    Ok((Some(Element::Lead(term)), rest))
}

/// An arrow behind a binder in brackets, behind the bracket.
#[cycle(term)]
#[tactic(auto, using(crate::proofs::Lists::behind_tail, crate::proofs::Lists::behind_whole, crate::proofs::Lists::behind_fails), unfolding(crate::specs::Spine::after_maybe))]
fn bracket_arrow(
    alloc: Global,
    at: usize,
    toks: &[Piece],
) -> Result<(Option<Element>, &[Piece]), Halt>
    ensures told { ToldThen result after_maybe (seq (symbol.bracket at ∷ symbol.arrow_token ∷ symbol.term 0 ∷ []) (views toks.now)
        (λ b _ t. some_lead (tree.arrow at (tree_of b) t))) }
    ensures shorter { Shorter result toks.now }
{
    let (binder, rest) = bracket(alloc, at, toks)?;
    let (_, rest) = arrow(rest)?;
    let (body, rest) = term(alloc, rest, 0)?;
    let term = Term::of(alloc, TermNode::Arrow { at, binder, body })?;
    Ok((Some(Element::Lead(term)), rest))
}

/// The type that may stand behind a colon.
#[cycle(term)]
#[tactic(auto, using(crate::proofs::Laws::read_type_option))]
pub fn type_option(alloc: Global, toks: &[Piece]) -> Result<(Option<Term>, &[Piece]), Halt>
    ensures told { Told result (read symbol.type_option (views toks.now)) }
    ensures shorter { NoLonger result toks.now }
{
    match next(toks) {
        Front::Word(Word::Colon, _, rest) => {
            let (ty, rest) = term(alloc, rest, 0)?;
            Ok((Some(ty), rest))
        }
        _ => Ok((None, toks)),
    }
}

/// What stands behind a parenthesis in a term.
#[cycle(term)]
#[tactic(auto, using(crate::proofs::Forms::read_group))]
fn group(alloc: Global, at: usize, toks: &[Piece]) -> Result<(Element, &[Piece]), Halt>
    ensures told { ToldThen result after (read (symbol.group at) (views toks.now)) }
    ensures shorter { Shorter result toks.now }
{
    let (first, rest) = some_binder_name(alloc, toks)?;
    match first {
        Some(name) => group_names(alloc, at, name, rest),
        None => {
            let (inside, rest) = term(alloc, rest, 0)?;
            closed(alloc, at, inside, rest)
        }
    }
}

/// What stands behind a parenthesis and a name.
#[cycle(term)]
#[tactic(auto, using(crate::proofs::Groups::read_group_names))]
fn group_names(
    alloc: Global,
    at: usize,
    first: Ident,
    toks: &[Piece],
) -> Result<(Element, &[Piece]), Halt>
    ensures told { ToldThen result after (read (symbol.group_names at [] first) (views toks.now)) }
    ensures shorter { Shorter result toks.now }
{
    let mut before = Vec::new(alloc);
    let mut last = first;
    let mut rest = toks;
    'list: loop {
        let (name, more) = some_binder_name(alloc, rest)?;
        match name {
            None => return names_end(alloc, at, before, last, more),
            Some(name) => {
                before.push(last)?;
                last = name;
            }
        }
        rest = more;
    }
}

/// What stands behind the names in a parenthesis.
#[cycle(term)]
#[tactic(auto, unfolding(crate::specs::Spine::names_end))]
fn names_end(
    alloc: Global,
    at: usize,
    before: Vec<Ident>,
    last: Ident,
    toks: &[Piece],
) -> Result<(Element, &[Piece]), Halt>
    ensures told { ToldThen result after (names_end_reading at before.items last (views toks.now)) }
    ensures shorter { Shorter result toks.now }
{
    let (colon, rest) = some_word(toks, Word::Colon)?;
    match colon {
        Some(_) => {
            let (ty, rest) = term(alloc, rest, 0)?;
            named_close(alloc, at, before, last, ty, rest)
        }
        None => {
            let (levels, rest) = levels_behind(alloc, &last, rest)?;
            let terms = name_terms(alloc, before, last, levels)?;
            let (inside, rest) = operation_of(alloc, terms, rest, 0)?;
            closed(alloc, at, inside, rest)
        }
    }
}

/// What stands behind names and their type in a parenthesis: an arrow, or the end of a typed term.
#[cycle(term)]
#[tactic(auto, unfolding(crate::specs::Spine::named_close, crate::specs::Spine::after))]
fn named_close(
    alloc: Global,
    at: usize,
    before: Vec<Ident>,
    last: Ident,
    ty: Term,
    toks: &[Piece],
) -> Result<(Element, &[Piece]), Halt>
    ensures told { ToldThen result after (named_close_reading at before.items last ty (views toks.now)) }
    ensures shorter { Shorter result toks.now }
{
    let (_, rest) = word(toks, Word::RightParen)?;
    let (arrow, rest) = some_arrow(rest)?;
    match arrow {
        Some(()) => {
            let (body, rest) = term(alloc, rest, 0)?;
            let binder = explicit_binders(alloc, at, before, last, ty)?;
            let term = Term::of(alloc, TermNode::Arrow { at, binder, body })?;
            Ok((Element::Lead(term), rest))
        }
        None => {
            let terms = name_terms(alloc, before, last, Vec::new(alloc))?;
            let inside = application(alloc, terms)?;
            let ty = Some(ty);
            let term = Term::of(
                alloc,
                TermNode::Paren {
                    at,
                    term: inside,
                    ty,
                },
            )?;
            Ok((Element::Atom(term), rest))
        }
    }
}

/// What stands behind the term in a parenthesis.
#[cycle(term)]
#[tactic(auto, unfolding(crate::specs::Spine::after))]
fn closed(
    alloc: Global,
    at: usize,
    inside: Term,
    toks: &[Piece],
) -> Result<(Element, &[Piece]), Halt>
    ensures told { ToldThen result after (reading (closed_rows at inside) None (views toks.now)) }
    ensures shorter { Shorter result toks.now }
{
    match next(toks) {
        Front::Word(Word::RightParen, _, rest) => {
            let term = Term::of(
                alloc,
                TermNode::Paren {
                    at,
                    term: inside,
                    ty: None,
                },
            )?;
            Ok((Element::Atom(term), rest))
        }
        Front::Word(Word::Colon, _, rest) => {
            let (ty, rest) = term(alloc, rest, 0)?;
            let (_, rest) = word(rest, Word::RightParen)?;
            let ty = Some(ty);
            let term = Term::of(
                alloc,
                TermNode::Paren {
                    at,
                    term: inside,
                    ty,
                },
            )?;
            Ok((Element::Atom(term), rest))
        }
        _ => Err(stuck(toks)),
    }
}

/// A binder in brackets, behind the bracket.
#[cycle(term)]
#[tactic(auto, using(crate::proofs::Forms::read_bracket))]
pub fn bracket(alloc: Global, at: usize, toks: &[Piece]) -> Result<(Binders, &[Piece]), Halt>
    ensures told { Told result (read (symbol.bracket at) (views toks.now)) }
    ensures shorter { Shorter result toks.now }
{
    let (name, rest) = some_part(alloc, toks)?;
    match name {
        Some(name) => bracket_named(alloc, at, name, rest),
        None => {
            let (ty, rest) = term(alloc, rest, 0)?;
            let (_, rest) = word(rest, Word::RightBracket)?;
            Ok((unnamed(alloc, at, ty)?, rest))
        }
    }
}

/// A binder in brackets, behind a name.
#[cycle(term)]
#[tactic(auto, using(crate::proofs::Groups::read_bracket_name))]
fn bracket_named(
    alloc: Global,
    at: usize,
    name: Ident,
    toks: &[Piece],
) -> Result<(Binders, &[Piece]), Halt>
    ensures told { Told result (read (symbol.bracket_name at name) (views toks.now)) }
    ensures shorter { Shorter result toks.now }
{
    let (colon, rest) = some_word(toks, Word::Colon)?;
    match colon {
        Some(_) => {
            let (ty, rest) = term(alloc, rest, 0)?;
            let (_, rest) = word(rest, Word::RightBracket)?;
            let names = Shared::of(alloc, one(alloc, name)?)?;
            let kind = BinderKind::Inst;
            Ok((
                Binders {
                    at,
                    kind,
                    names,
                    ty,
                },
                rest,
            ))
        }
        None => bracket_end(alloc, at, name, rest),
    }
}

/// A binder in brackets that has no name, behind the name that its type begins with.
#[cycle(term)]
fn bracket_end(
    alloc: Global,
    at: usize,
    name: Ident,
    toks: &[Piece],
) -> Result<(Binders, &[Piece]), Halt>
    ensures told { Told result (bracket_name_by at name None (views toks.now)) }
    ensures shorter { Shorter result toks.now }
{
    let (close, rest) = some_word(toks, Word::RightBracket)?;
    match close {
        Some(_) => {
            let ty = name_term(alloc, name, Vec::new(alloc))?;
            Ok((unnamed(alloc, at, ty)?, rest))
        }
        None => {
            let (levels, rest) = written_levels(alloc, rest)?;
            let first = name_term(alloc, name, levels)?;
            let (ty, rest) = operation_of(alloc, one(alloc, first)?, rest, 0)?;
            let (_, rest) = word(rest, Word::RightBracket)?;
            Ok((unnamed(alloc, at, ty)?, rest))
        }
    }
}

/// A binder of `fun` and `∀`, if one comes next.
#[cycle(term)]
#[tactic(auto, using(crate::proofs::Laws::read_implicit_end, crate::proofs::Lists::behind_tail, crate::proofs::Lists::behind_whole, crate::proofs::Lists::behind_fails))]
fn some_lambda_binder(alloc: Global, toks: &[Piece]) -> Result<(Option<LBinder>, &[Piece]), Halt>
    ensures told { ToldAs result (option_map lbinder_tree) (maybe lambda_binder_rows (views toks.now)) }
    ensures shorter { ShorterIfSome result toks.now }
{
    match next(toks) {
        Front::Word(Word::LeftParen, spot, rest) => {
            let (first, rest) = binder_name(alloc, rest)?;
            let (names, rest) = binder_names(alloc, one(alloc, first)?, rest)?;
            let (_, rest) = word(rest, Word::Colon)?;
            let (ty, rest) = term(alloc, rest, 0)?;
            let (_, rest) = word(rest, Word::RightParen)?;
            let names = Shared::of(alloc, names)?;
            let kind = BinderKind::Explicit;
            let at = spot.at;
            Ok((
                Some(LBinder::Typed(Binders {
                    at,
                    kind,
                    names,
                    ty,
                })),
                rest,
            ))
        }
        Front::Word(Word::LeftBrace, spot, rest) => {
            let (first, rest) = binder_name(alloc, rest)?;
            let (names, rest) = binder_names(alloc, one(alloc, first)?, rest)?;
            let (ty, rest) = implicit_end(alloc, rest)?;
            Ok((Some(implicit(alloc, spot.at, names, ty)?), rest))
        }
        Front::Word(Word::LeftBracket, spot, rest) => {
            let (binder, rest) = bracket(alloc, spot.at, rest)?;
            Ok((Some(LBinder::Typed(binder)), rest))
        }
        Front::Name(Spelling::Several, _, _, _) => Ok((None, toks)),
        Front::Name(_, name, spot, rest) => {
            Ok((Some(LBinder::Plain(named(alloc, spot.at, name)?)), rest))
        }
        Front::Word(Word::Underscore, spot, rest) => {
            Ok((Some(LBinder::Plain(underscore(alloc, spot.at)?)), rest))
        }
        _ => Ok((None, toks)),
    }
}

/// The type of a binder in braces, if there is one, and the brace.
#[cycle(term)]
#[tactic(auto, using(crate::proofs::Laws::read_implicit_end))]
fn implicit_end(alloc: Global, toks: &[Piece]) -> Result<(Option<Term>, &[Piece]), Halt>
    ensures told { Told result (read symbol.implicit_end (views toks.now)) }
    ensures shorter { Shorter result toks.now }
{
    match next(toks) {
        Front::Word(Word::Colon, _, rest) => {
            let (ty, rest) = term(alloc, rest, 0)?;
            let (_, rest) = word(rest, Word::RightBrace)?;
            Ok((Some(ty), rest))
        }
        Front::Word(Word::RightBrace, _, rest) => Ok((None, rest)),
        _ => Err(stuck(toks)),
    }
}

/// A binder of `fun` and `∀`.
#[cycle(term)]
#[tactic(auto, using(crate::proofs::Forms::read_lambda_binder))]
fn lambda_binder(alloc: Global, toks: &[Piece]) -> Result<(LBinder, &[Piece]), Halt>
    ensures told { ToldAs result lbinder_tree (read symbol.lambda_binder (views toks.now)) }
    ensures shorter { Shorter result toks.now }
{
    let (binder, rest) = some_lambda_binder(alloc, toks)?;
    match binder {
        Some(binder) => Ok((binder, rest)),
        None => Err(stuck(rest)),
    }
}

/// The binders, and behind them as many as there are.
#[cycle(term)]
#[tactic(auto, using(crate::proofs::Forms::read_lambda_binders, crate::proofs::Forms::map_one, crate::proofs::Lists::behind_one, crate::proofs::Lists::behind_err, crate::proofs::Lists::behind_end))]
fn lambda_binders(
    alloc: Global,
    first: Vec<LBinder>,
    toks: &[Piece],
) -> Result<(Vec<LBinder>, &[Piece]), Halt>
    ensures told { ToldAs result (λ v. map lbinder_tree v.items) (behind (map lbinder_tree first.items) (read symbol.lambda_binders (views toks.now))) }
    ensures shorter { NoLonger result toks.now }
{
    let mut all = first;
    let mut rest = toks;
    'list: loop {
        let (binder, more) = some_lambda_binder(alloc, rest)?;
        match binder {
            None => return Ok((all, rest)),
            Some(binder) => all.push(binder)?,
        }
        rest = more;
    }
}
