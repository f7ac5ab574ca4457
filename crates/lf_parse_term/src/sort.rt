//! The levels of `Type` and `Sort`, which are read as terms first.
ghost use Rattle.std.specs.Prelude.{◌≡◌, ◌∷◌, [], ◌++◌, IfOk, length, option_map, true};
ghost use Rattle.lf_syntax.specs.Build.{
  level_of as level_tree_of,
  level_atoms_of,
  plus_level as plus_level_tree,
  max_level as max_level_tree,
  imax_level as imax_level_tree,
  applied_level as applied_level_tree,
  bare_name,
};
ghost use Rattle.lf_syntax.specs.Tree as tree;
ghost use Rattle.lf_parse_term.specs.Sort.{named_so, name_level_of};
ghost use Rattle.lf_parse_term.specs.Spine.{settled, list_of, extend};
ghost use Rattle.std.specs.Prelude.{◌≤◌, ◌+◌};

use lf_base::NoMemory;
use lf_syntax::{Ident, LevelNode, LevelTerm, Term, TermNode};
use lf_text::Op;
use std::alloc::Global;

/// The level that the name alone is.
fn name_level(
    alloc: Global,
    explicit: bool,
    name: &Ident,
    levels: &[LevelTerm],
) -> Result<Option<LevelTerm>, NoMemory>
    ensures { IfOk result (λ o. o ≡ name_level_of explicit name.now levels.now) }
{
    if explicit {
        return Ok(None);
    }
    match levels {
        [] => match name.name.parts() {
            [_part] => {
                let name = name.copy(alloc)?;
                Ok(Some(LevelTerm::of(alloc, LevelNode::Name(name))?))
            }
            _ => Ok(None),
        },
        _ => Ok(None),
    }
}

/// Whether the term is this word alone.
fn is_word(term: &Term, word: &str) -> bool
    ensures { result ≡ named_so word.now (bare_name term.now) }
{
    match term.node() {
        TermNode::Ident {
            explicit: false,
            name,
            levels,
            ..
        } => match levels.as_slice() {
            [] => match name.name.parts() {
                [part] => word == part.as_str(),
                _ => false,
            },
            _ => false,
        },
        _ => false,
    }
}

/// `max` of two parts or more.
#[tactic(auto, using(crate::proofs::Sorts::max_short, crate::proofs::Sorts::max_long))]
fn max_level(alloc: Global, at: usize, parts: Vec<LevelTerm>) -> Result<Option<LevelTerm>, NoMemory>
    ensures { IfOk result (λ o. o ≡ max_level_tree at parts.items) }
{
    if parts.len() < 2 {
        return Ok(None);
    }
    Ok(Some(LevelTerm::of(alloc, LevelNode::Max { at, parts })?))
}

/// `imax` of two parts.
fn imax_level(alloc: Global, at: usize, parts: &[LevelTerm]) -> Result<Option<LevelTerm>, NoMemory>
    ensures { IfOk result (λ o. o ≡ imax_level_tree at parts.now) }
{
    match parts {
        [left, right] => {
            let left = left.copy(alloc)?;
            let right = right.copy(alloc)?;
            Ok(Some(LevelTerm::of(alloc, LevelNode::Imax { at, left, right })?))
        }
        _ => Ok(None),
    }
}

/// The level that the term is: one in parentheses, or an atom.
#[cycle(sort)]
pub fn level_of(alloc: Global, term: &Term, atom: bool) -> Result<Option<LevelTerm>, NoMemory>
    ensures { IfOk result (λ o. o ≡ level_tree_of term.now atom) }
{
    match term.node() {
        TermNode::Num(n) => Ok(Some(LevelTerm::of(alloc, LevelNode::Num(*n))?)),
        TermNode::Ident {
            explicit,
            name,
            levels,
            ..
        } => name_level(alloc, *explicit, name, levels.as_slice()),
        TermNode::Paren {
            term: inside,
            ty: None,
            ..
        } => level_of(alloc, inside, false),
        TermNode::Oper {
            at,
            op,
            left,
            right,
        } if !atom => plus_level(alloc, *at, *op, left, right),
        TermNode::App { at, head, args } if !atom => {
            applied_level(alloc, *at, head, args.as_slice())
        }
        _ => Ok(None),
    }
}

/// A level and a numeral.
#[cycle(sort)]
fn plus_level(
    alloc: Global,
    at: usize,
    op: Op,
    left: &Term,
    right: &Term,
) -> Result<Option<LevelTerm>, NoMemory>
    ensures { IfOk result (λ o. o ≡ plus_level_tree at op (level_tree_of left.now true) right.now) }
{
    let base = level_of(alloc, left, true)?;
    match op {
        Op::Add => match base {
            Some(base) => match right.node() {
                TermNode::Num(add) => {
                    let add = *add;
                    let level = LevelTerm::of(alloc, LevelNode::Plus { at, base, add })?;
                    Ok(Some(level))
                }
                _ => Ok(None),
            },
            None => Ok(None),
        },
        _ => Ok(None),
    }
}

/// `max` or `imax` of levels.
#[cycle(sort)]
#[tactic(auto, using(crate::proofs::Sorts::applied_none, crate::proofs::Sorts::applied_max, crate::proofs::Sorts::applied_imax, crate::proofs::Sorts::applied_other))]
fn applied_level(
    alloc: Global,
    at: usize,
    head: &Term,
    args: &[Term],
) -> Result<Option<LevelTerm>, NoMemory>
    ensures { IfOk result (λ o. o ≡ applied_level_tree at (bare_name head.now) (level_atoms_of (tree.terms_of args.now))) }
{
    let max = is_word(head, "max");
    let imax = is_word(head, "imax");
    if !max && !imax {
        return Ok(None);
    }
    let Some(parts) = level_atoms(alloc, args)? else {
        return Ok(None);
    };
    if max {
        return max_level(alloc, at, parts);
    }
    imax_level(alloc, at, parts.as_slice())
}

/// The levels that the terms are, if each is an atom of one.
#[cycle(sort)]
#[tactic(auto, using(crate::proofs::Sorts::prefixed_one, crate::proofs::Sorts::prefixed_none, crate::proofs::Sorts::prefixed_nil, crate::proofs::Sorts::prefixed_last))]
fn level_atoms(alloc: Global, terms: &[Term]) -> Result<Option<Vec<LevelTerm>>, NoMemory>
    ensures { IfOk result (λ o. option_map (λ v. v.items) o ≡ level_atoms_of (tree.terms_of terms.now)) }
{
    let mut all = Vec::new(alloc);
    let mut rest = terms;
    'list: while let Some((first, more)) = rest.split_first() {
        let level = level_of(alloc, first, true)?;
        match level {
            Some(level) => all.push(level)?,
            None => return Ok(None),
        }
        rest = more;
    }
    Ok(Some(all))
}

/// The terms and two behind them.
fn with_both(before: Vec<Term>, left: Term, right: Term) -> Result<Vec<Term>, NoMemory>
    ensures { IfOk result (λ v. v.items ≡ before.items ++ (left ∷ right ∷ [])) }
{
    let mut all = before;
    all.push(left)?;
    all.push(right)?;
    Ok(all)
}

/// The terms and one behind them.
fn with_one(before: Vec<Term>, term: Term) -> Result<Vec<Term>, NoMemory>
    ensures { IfOk result (λ v. v.items ≡ before.items ++ (term ∷ [])) }
{
    let mut all = before;
    all.push(term)?;
    Ok(all)
}

/// The terms and one behind them, which may be the level of the last, a `Type` or a `Sort`.
fn join_last(
    alloc: Global,
    before: Vec<Term>,
    last: Term,
    term: Term,
) -> Result<Vec<Term>, NoMemory>
    ensures { IfOk result (λ v. v.items ≡ before.items ++ list_of (settled last (term ∷ []))) }
{
    match last.node() {
        TermNode::TypeU { at, level: None } => match level_of(alloc, &term, true)? {
            Some(level) => {
                let node = TermNode::TypeU {
                    at: *at,
                    level: Some(level),
                };
                with_one(before, Term::of(alloc, node)?)
            }
            None => with_both(before, last.copy(alloc)?, term),
        },
        TermNode::SortU { at, level: None } => match level_of(alloc, &term, true)? {
            Some(level) => {
                let node = TermNode::SortU {
                    at: *at,
                    level: Some(level),
                };
                with_one(before, Term::of(alloc, node)?)
            }
            None => with_both(before, last.copy(alloc)?, term),
        },
        _ => with_both(before, last.copy(alloc)?, term),
    }
}

/// The terms and one behind them, which may be the level of the last.
#[tactic(auto, using(crate::proofs::Puts::extend_end, crate::proofs::Puts::joined_length))]
pub fn put(alloc: Global, terms: Vec<Term>, term: Term) -> Result<Vec<Term>, NoMemory>
    ensures terms { IfOk result (λ v. v.items ≡ extend terms.items (term ∷ [])) }
    ensures more { IfOk result (λ v. length v.items ≤ length terms.items + 1) }
{
    let mut all = terms;
    match all.pop() {
        None => with_one(all, term),
        Some(last) => join_last(alloc, all, last, term),
    }
}
