//! The parser: what a term's tokens spell, by recursive descent.
ghost use Rattle.std.specs.Prelude.{◌≡◌, ◌++◌, ◌∷◌, [], IfOk, suc, codes};
ghost use Rattle.lf_core.specs.Term as tree;
ghost use Rattle.lf_front.specs.Grammar.{level_of, explicit};
ghost use Rattle.lf_front.specs.Parser as parser;
ghost use Rattle.lf_front.specs.Parser.{Parses, IsRest, IsNumber, IsHead, GivesTerm};

use crate::names::{Local, Refusal, extended, named_by};
use crate::token::Token;
use lf_core::{Binder, BinderKind, ConstInfo, Expr, Level, Name, NoMemory};
use std::alloc::Global;

fn after_open(tokens: &[Token]) -> Option<&[Token]>
    ensures { IsRest result (parser.after_open tokens.now) }
{
    match tokens {
        [Token::Open, rest @ ..] => Some(rest),
        _ => None,
    }
}

fn after_close(tokens: &[Token]) -> Option<&[Token]>
    ensures { IsRest result (parser.after_close tokens.now) }
{
    match tokens {
        [Token::Close, rest @ ..] => Some(rest),
        _ => None,
    }
}

pub(crate) fn after_colon(tokens: &[Token]) -> Option<&[Token]>
    ensures { IsRest result (parser.after_colon tokens.now) }
{
    match tokens {
        [Token::Colon, rest @ ..] => Some(rest),
        _ => None,
    }
}

fn after_comma(tokens: &[Token]) -> Option<&[Token]>
    ensures { IsRest result (parser.after_comma tokens.now) }
{
    match tokens {
        [Token::Comma, rest @ ..] => Some(rest),
        _ => None,
    }
}

fn after_arrow(tokens: &[Token]) -> Option<&[Token]>
    ensures { IsRest result (parser.after_arrow tokens.now) }
{
    match tokens {
        [Token::Arrow, rest @ ..] => Some(rest),
        _ => None,
    }
}

fn after_forall(tokens: &[Token]) -> Option<&[Token]>
    ensures { IsRest result (parser.after_forall tokens.now) }
{
    match tokens {
        [Token::Forall, rest @ ..] => Some(rest),
        _ => None,
    }
}

fn after_number(tokens: &[Token]) -> Option<(u32, &[Token])>
    ensures { IsNumber result (parser.after_number tokens.now) }
{
    match tokens {
        [Token::Number(n), rest @ ..] => Some((*n, rest)),
        _ => None,
    }
}

/// The level that a numeral writes.
fn level_of(alloc: Global, n: u32) -> Result<Level, NoMemory>
    ensures { IfOk result (λ l. l ≡ level_of n) }
{
    let mut level = Level::zero(alloc)?;
    for _ in 0..n {
        level = Level::succ(alloc, level)?;
    }
    Ok(level)
}

fn numbered_sort(alloc: Global, n: u32) -> Result<Expr, NoMemory>
    ensures { IfOk result (λ t. t ≡ tree.sort (level_of n)) }
{
    let level = level_of(alloc, n)?;
    Expr::sort(alloc, level)
}

fn type_at(alloc: Global, n: u32) -> Result<Expr, NoMemory>
    ensures { IfOk result (λ t. t ≡ tree.sort (level_of (suc n))) }
{
    let level = Level::succ(alloc, level_of(alloc, n)?)?;
    Expr::sort(alloc, level)
}

fn read_type(alloc: Global, tokens: &[Token]) -> Result<(Expr, &[Token]), Refusal>
    ensures { Parses result (parser.type_at tokens.now (parser.after_number tokens.now)) }
{
    match after_number(tokens) {
        Some((n, rest)) => Ok((type_at(alloc, n)?, rest)),
        None => Ok((type_at(alloc, 0)?, tokens)),
    }
}

fn read_sort(alloc: Global, tokens: &[Token]) -> Result<(Expr, &[Token]), Refusal>
    ensures { Parses result (parser.sort_at tokens.now (parser.after_number tokens.now)) }
{
    match after_number(tokens) {
        Some((n, rest)) => Ok((numbered_sort(alloc, n)?, rest)),
        None => Ok((numbered_sort(alloc, 0)?, tokens)),
    }
}

fn explicit(alloc: Global, name: &Name) -> Result<Binder, NoMemory>
    ensures { IfOk result (λ b. b ≡ explicit name.now) }
{
    Ok(Binder {
        name: name.copy(alloc)?,
        kind: BinderKind::Explicit,
    })
}

/// The tokens behind the `)` that ends a term in parentheses.
fn closed(term: Expr, tokens: &[Token]) -> Result<(Expr, &[Token]), Refusal>
    ensures { Parses result (parser.closed_with term (parser.after_close tokens.now)) }
{
    match after_close(tokens) {
        Some(rest) => Ok((term, rest)),
        None => {
            drop(term);
            Err(Refusal::NotBuilt)
        }
    }
}

/// The tokens behind the `),` that ends a group.
fn after_group(tokens: &[Token]) -> Option<&[Token]>
    ensures { IsRest result (parser.comma_of (parser.after_close tokens.now)) }
{
    match after_close(tokens) {
        Some(rest) => after_comma(rest),
        None => None,
    }
}

pub(crate) fn after_identifier(tokens: &[Token]) -> Option<(&Name, &[Token])>
    ensures { IsHead result (parser.after_identifier tokens.now) }
{
    match tokens {
        [Token::Ident(name), rest @ ..] => Some((name, rest)),
        _ => None,
    }
}

/// The name behind the `(` of a group, and the tokens behind its colon.
fn group_head(tokens: &[Token]) -> Option<(&Name, &[Token])>
    ensures { IsHead result (parser.group_head (parser.after_open tokens.now)) }
{
    let rest = after_open(tokens)?;
    let (name, rest) = after_identifier(rest)?;
    let rest = after_colon(rest)?;
    if name.parts().len() != 1 {
        return None;
    }
    Some((name, rest))
}

/// The arrow from a domain to a codomain; its variable is called `a`.
fn make_arrow(alloc: Global, domain: Expr, codomain: Expr) -> Result<Expr, NoMemory>
    ensures { IfOk result (λ t. t ≡ tree.pi (explicit (codes "a" ∷ [])) domain codomain) }
{
    let name = Name::one(alloc, "a")?;
    let binder = explicit(alloc, &name)?;
    Expr::pi(alloc, binder, domain, codomain)
}

fn make_forall(alloc: Global, name: &Name, domain: Expr, body: Expr) -> Result<Expr, NoMemory>
    ensures { IfOk result (λ t. t ≡ tree.pi (explicit name.now) domain body) }
{
    let binder = explicit(alloc, name)?;
    Expr::pi(alloc, binder, domain, body)
}

/// A term, nested at most `depth` deep.
#[cycle(terms)]
pub(crate) fn term<'t>(
    alloc: Global,
    constants: &[ConstInfo],
    locals: &[Local],
    depth: u32,
    tokens: &'t [Token],
) -> Result<(Expr, &'t [Token]), Refusal>
    ensures { Parses result (parser.term depth constants.now locals.now tokens.now) }
{
    if depth == 0 {
        return Err(Refusal::NotBuilt);
    }
    match after_forall(tokens) {
        Some(rest) => for_all(alloc, constants, locals, depth - 1, rest),
        None => arrows(alloc, constants, locals, depth - 1, tokens),
    }
}

/// What follows a `∀`.
#[cycle(terms)]
fn for_all<'t>(
    alloc: Global,
    constants: &[ConstInfo],
    locals: &[Local],
    depth: u32,
    tokens: &'t [Token],
) -> Result<(Expr, &'t [Token]), Refusal>
    ensures { Parses result (parser.group (parser.term depth constants.now) locals.now (parser.group_head (parser.after_open tokens.now))) }
{
    let Some((name, rest)) = group_head(tokens) else {
        return Err(Refusal::NotBuilt);
    };
    let (domain, rest) = term(alloc, constants, locals, depth, rest)?;
    let Some(rest) = after_group(rest) else {
        drop(domain);
        return Err(Refusal::NotBuilt);
    };
    let local = Local::Named(name.copy(alloc)?);
    match inside(alloc, constants, locals, local, depth, rest) {
        Ok((body, rest)) => Ok((make_forall(alloc, name, domain, body)?, rest)),
        Err(refusal) => {
            drop(domain);
            Err(refusal)
        }
    }
}

/// A term in which one more local can be named.
#[cycle(terms)]
fn inside<'t>(
    alloc: Global,
    constants: &[ConstInfo],
    locals: &[Local],
    local: Local,
    depth: u32,
    tokens: &'t [Token],
) -> Result<(Expr, &'t [Token]), Refusal>
    ensures { Parses result (parser.term depth constants.now (locals.now ++ local ∷ []) tokens.now) }
{
    let all = extended(alloc, locals, local)?;
    term(alloc, constants, all.as_slice(), depth, tokens)
}

/// An atom, and an arrow behind it where there is one.
#[cycle(terms)]
fn arrows<'t>(
    alloc: Global,
    constants: &[ConstInfo],
    locals: &[Local],
    depth: u32,
    tokens: &'t [Token],
) -> Result<(Expr, &'t [Token]), Refusal>
    ensures { Parses result (parser.after_atom (parser.term depth constants.now) locals.now
        (parser.atom (parser.term depth constants.now) constants.now locals.now tokens.now)) }
{
    let (domain, rest) = atom(alloc, constants, locals, depth, tokens)?;
    let Some(rest) = after_arrow(rest) else {
        return Ok((domain, rest));
    };
    match inside(alloc, constants, locals, Local::Unnamed, depth, rest) {
        Ok((codomain, rest)) => Ok((make_arrow(alloc, domain, codomain)?, rest)),
        Err(refusal) => {
            drop(domain);
            Err(refusal)
        }
    }
}

#[cycle(terms)]
fn atom<'t>(
    alloc: Global,
    constants: &[ConstInfo],
    locals: &[Local],
    depth: u32,
    tokens: &'t [Token],
) -> Result<(Expr, &'t [Token]), Refusal>
    ensures { Parses result (parser.atom (parser.term depth constants.now) constants.now locals.now tokens.now) }
{
    match tokens {
        [Token::Ident(name), rest @ ..] => Ok((named_by(alloc, constants, locals, name)?, rest)),
        [Token::Prop, rest @ ..] => Ok((numbered_sort(alloc, 0)?, rest)),
        [Token::Type, rest @ ..] => read_type(alloc, rest),
        [Token::Sort, rest @ ..] => read_sort(alloc, rest),
        [Token::Open, rest @ ..] => {
            let (term, rest) = term(alloc, constants, locals, depth, rest)?;
            closed(term, rest)
        }
        _ => Err(Refusal::NotBuilt),
    }
}
