//! Blocks of proof items and the rules of `rw`.
ghost use Rattle.std.specs.Prelude.{◌≡◌, map};
ghost use Rattle.lf_syntax.specs.Symbol as symbol;
ghost use Rattle.lf_syntax.specs.TermNode.{rule_tree};
ghost use Rattle.lf_parse_term.specs.Descent.{Told, ToldAs, behind, Shorter, read};
ghost use Rattle.lf_parse_term.specs.Spine.{IsItem};
ghost use Rattle.lf_parse_term.specs.View.{views};

use crate::build::place;
use crate::halt::Halt;
use crate::names::{any_name, binder_name, binder_names, one, one_part};
use crate::piece::{Front, Piece, next, stuck};
use crate::terms::term;
use crate::token::{some_word, word};
use lf_syntax::{Item, ItemNode, Rule, Shared};
use lf_text::{Spelling, Word};
use std::alloc::Global;

fn made(alloc: Global, node: ItemNode, toks: &[Piece]) -> Result<(Item, &[Piece]), Halt>
    ensures { IsItem result node toks.now }
{
    Ok((Item::of(alloc, node)?, toks))
}

/// A block of items.
#[cycle(term)]
#[tactic(auto, using(crate::proofs::Laws::read_block, crate::proofs::Lists::behind_tail, crate::proofs::Lists::behind_whole, crate::proofs::Lists::behind_fails))]
pub(crate) fn block(alloc: Global, toks: &[Piece]) -> Result<(Vec<Item>, &[Piece]), Halt>
    ensures told { ToldAs result (λ v. v.items) (read symbol.block (views toks.now)) }
    ensures shorter { Shorter result toks.now }
{
    match next(toks) {
        Front::Word(Word::LayoutOpen, _, rest) => {
            let (first, rest) = item(alloc, rest)?;
            more_items(alloc, one(alloc, first)?, rest)
        }
        _ => Err(stuck(toks)),
    }
}

/// The items, and behind them those up to the end of the block.
#[cycle(term)]
#[tactic(auto, using(crate::proofs::Laws::read_more_items, crate::proofs::Lists::behind_one, crate::proofs::Lists::behind_err, crate::proofs::Lists::behind_end))]
fn more_items(
    alloc: Global,
    first: Vec<Item>,
    toks: &[Piece],
) -> Result<(Vec<Item>, &[Piece]), Halt>
    ensures told { ToldAs result (λ v. v.items) (behind first.items (read symbol.more_items (views toks.now))) }
    ensures shorter { Shorter result toks.now }
{
    let mut all = first;
    let mut rest = toks;
    'list: loop {
        match next(rest) {
            Front::Word(Word::LayoutSep, _, more) | Front::Word(Word::Semicolon, _, more) => {
                let (item, more) = item(alloc, more)?;
                all.push(item)?;
                rest = more;
            }
            Front::Word(Word::LayoutClose, _, more) => return Ok((all, more)),
            _ => return Err(stuck(rest)),
        }
    }
}

/// A proof item.
#[cycle(term)]
#[tactic(auto, using(crate::proofs::Laws::read_item, crate::proofs::Forms::rules_are, crate::proofs::Lists::behind_tail, crate::proofs::Lists::behind_whole, crate::proofs::Lists::behind_fails))]
fn item(alloc: Global, toks: &[Piece]) -> Result<(Item, &[Piece]), Halt>
    ensures told { Told result (read symbol.item (views toks.now)) }
    ensures shorter { Shorter result toks.now }
{
    match next(toks) {
        Front::Word(Word::Dot, spot, rest) => {
            let (items, rest) = block(alloc, rest)?;
            made(alloc, ItemNode::Block { at: spot.at, items }, rest)
        }
        Front::Word(Word::Sorry, spot, rest) => made(alloc, ItemNode::Sorry { at: spot.at }, rest),
        Front::Name(spelling, _, spot, rest) => match spelling {
            Spelling::Exact => {
                let (term, rest) = term(alloc, rest, 0)?;
                made(alloc, ItemNode::Exact { at: spot.at, term }, rest)
            }
            Spelling::Intro => {
                let (first, rest) = binder_name(alloc, rest)?;
                let (names, rest) = binder_names(alloc, one(alloc, first)?, rest)?;
                let names = Shared::of(alloc, names)?;
                made(alloc, ItemNode::Intro { at: spot.at, names }, rest)
            }
            Spelling::Apply => {
                let (term, rest) = term(alloc, rest, 0)?;
                made(alloc, ItemNode::Apply { at: spot.at, term }, rest)
            }
            Spelling::Rfl => made(alloc, ItemNode::Rfl { at: spot.at }, rest),
            Spelling::Assumption => made(alloc, ItemNode::Assumption { at: spot.at }, rest),
            Spelling::Rw => {
                let (_, rest) = word(rest, Word::LeftBracket)?;
                let (first, rest) = rule(alloc, rest)?;
                let (rules, rest) = more_rules(alloc, one(alloc, first)?, rest)?;
                made(alloc, ItemNode::Rw { at: spot.at, rules }, rest)
            }
            Spelling::Unfold => {
                let (name, rest) = any_name(alloc, rest)?;
                made(alloc, ItemNode::Unfold { at: spot.at, name }, rest)
            }
            Spelling::Have => {
                let (name, rest) = one_part(alloc, rest)?;
                let (_, rest) = word(rest, Word::Colon)?;
                let (ty, rest) = term(alloc, rest, 0)?;
                let (_, rest) = word(rest, Word::Assign)?;
                let (value, rest) = term(alloc, rest, 0)?;
                let at = spot.at;
                made(
                    alloc,
                    ItemNode::Have {
                        at,
                        name,
                        ty,
                        value,
                    },
                    rest,
                )
            }
            Spelling::Induction => {
                let (name, rest) = one_part(alloc, rest)?;
                made(alloc, ItemNode::Induction { at: spot.at, name }, rest)
            }
            Spelling::Cases => {
                let (name, rest) = one_part(alloc, rest)?;
                made(alloc, ItemNode::Cases { at: spot.at, name }, rest)
            }
            Spelling::Injection => {
                let (name, rest) = one_part(alloc, rest)?;
                made(alloc, ItemNode::Injection { at: spot.at, name }, rest)
            }
            _ => Err(stuck(toks)),
        },
        _ => Err(stuck(toks)),
    }
}

/// A rule of `rw`.
#[cycle(term)]
#[tactic(auto, using(crate::proofs::Forms::read_rule))]
fn rule(alloc: Global, toks: &[Piece]) -> Result<(Rule, &[Piece]), Halt>
    ensures told { ToldAs result rule_tree (read symbol.rw_rule (views toks.now)) }
    ensures shorter { Shorter result toks.now }
{
    let (arrow, rest) = some_word(toks, Word::BackArrow)?;
    let (term, rest) = term(alloc, rest, 0)?;
    match arrow {
        Some(at) => Ok((
            Rule {
                at,
                back: true,
                term,
            },
            rest,
        )),
        None => {
            let at = place(&term);
            Ok((
                Rule {
                    at,
                    back: false,
                    term,
                },
                rest,
            ))
        }
    }
}

/// The rules, and behind them those up to the bracket.
#[cycle(term)]
#[tactic(auto, using(crate::proofs::Laws::read_more_rules, crate::proofs::Forms::map_one, crate::proofs::Lists::behind_one, crate::proofs::Lists::behind_err, crate::proofs::Lists::behind_end))]
fn more_rules(
    alloc: Global,
    first: Vec<Rule>,
    toks: &[Piece],
) -> Result<(Vec<Rule>, &[Piece]), Halt>
    ensures told { ToldAs result (λ v. map rule_tree v.items) (behind (map rule_tree first.items) (read symbol.more_rules (views toks.now))) }
    ensures shorter { Shorter result toks.now }
{
    let mut all = first;
    let mut rest = toks;
    'list: loop {
        match next(rest) {
            Front::Word(Word::Comma, _, more) => {
                let (rule, more) = rule(alloc, more)?;
                all.push(rule)?;
                rest = more;
            }
            Front::Word(Word::RightBracket, _, more) => return Ok((all, more)),
            _ => return Err(stuck(rest)),
        }
    }
}
