//! The axioms of a text.
ghost use Rattle.std.specs.Prelude.{◌≡◌, ◌≤◌, ◌++◌, ◌∷◌, [], All, Ok, IfOk, IfSome, OnOk, IsTrue, ◌↔◌, ℕ, length};
ghost use Rattle.lf_core.specs.Size as size;
ghost use Rattle.lf_front.specs.Answers.{IsShallow};
ghost use Rattle.lf_front.specs.Infer.{type_of};
ghost use Rattle.lf_front.specs.Declares.{nesting, axiom_of};
ghost use Rattle.lf_front.specs.Parser.{Parses, IsHead};
ghost use Rattle.lf_front.specs.Reader as reader;
ghost use Rattle.lf_front.specs.Reader.{ReadsOne, ReadsAll};

use crate::names::{Refusal, is_declared};
use crate::parse::{after_colon, after_identifier, term};
use crate::token::Token;
use crate::typing::{CheckCx, infer};
use lf_core::{Ans, ConstInfo, ConstKind, Detail, Expr, ExprNode, Name, NoMemory};
use sqlite_items::Items;
use std::alloc::Global;

/// How many of the tokens `(`, `∀` and `→` stand before the next `axiom`.
fn nesting(tokens: &[Token]) -> usize
    ensures { result ≡ nesting tokens.now }
{
    let mut n = 0;
    'tokens: for token in tokens {
        match token {
            Token::Axiom => break 'tokens,
            Token::Open | Token::Forall | Token::Arrow => n += 1,
            _ => {}
        }
    }
    n
}

/// The name of an axiom, and the tokens behind its colon.
fn axiom_head(tokens: &[Token]) -> Option<(&Name, &[Token])>
    ensures { IsHead result (reader.axiom_head tokens.now) }
{
    match tokens {
        [Token::Axiom, rest @ ..] => {
            let (name, rest) = after_identifier(rest)?;
            let rest = after_colon(rest)?;
            Some((name, rest))
        }
        _ => None,
    }
}

#[tactic(auto, unfolding(crate::specs::Reader::axiom_term))]
fn axiom_term<'t>(
    alloc: Global,
    constants: &[ConstInfo],
    tokens: &'t [Token],
) -> Result<(Expr, &'t [Token]), Refusal>
    ensures { Parses result (reader.axiom_term constants.now tokens.now) }
{
    term(alloc, constants, &[], 65, tokens)
}

fn axiom_of(alloc: Global, name: &Name, ty: Expr) -> Result<ConstInfo, NoMemory>
    ensures { IfOk result (λ c. c ≡ axiom_of name.now ty) }
{
    Ok(ConstInfo {
        name: name.copy(alloc)?,
        kind: ConstKind::Axiom,
        levels: Items::new(alloc),
        ty,
        value: None,
        height: 0,
        detail: Detail::Plain,
    })
}

fn is_sort(ty: &Expr) -> bool
    ensures { result ≡ reader.is_sort (Ok ty.now) }
{
    match ty.node() {
        ExprNode::Sort(_) => true,
        _ => false,
    }
}

/// Whether the term is a type.
fn is_type(alloc: Global, constants: &[ConstInfo], ty: &Expr) -> Result<bool, NoMemory>
    requires shallow { All IsShallow constants.now }
    requires term { size.depth ty.now ≤ 1024 }
    ensures { IfOk result (λ b. b ≡ reader.is_sort (type_of constants.now [] ty.now)) }
{
    let mut cx = CheckCx {
        consts: constants,
        locals: Vec::new(alloc),
    };
    match infer(alloc, &mut cx, ty) {
        Ans::Done(sort) => {
            let yes = is_sort(&sort);
            drop(sort);
            Ok(yes)
        }
        Ans::NoMemory => Err(NoMemory),
        _ => Ok(false),
    }
}

fn typed_axiom<'t>(
    alloc: Global,
    constants: &[ConstInfo],
    name: &Name,
    ty: Expr,
    rest: &'t [Token],
) -> Result<(ConstInfo, &'t [Token]), Refusal>
    requires shallow { All IsShallow constants.now }
    requires term { size.depth ty ≤ 1024 }
    ensures { ReadsOne result (reader.typed_axiom name.now ty rest.now (type_of constants.now [] ty)) }
{
    if !is_type(alloc, constants, &ty)? {
        drop(ty);
        return Err(Refusal::NotBuilt);
    }
    Ok((axiom_of(alloc, name, ty)?, rest))
}

fn read_axiom<'t>(
    alloc: Global,
    constants: &[ConstInfo],
    name: &Name,
    tokens: &'t [Token],
) -> Result<(ConstInfo, &'t [Token]), Refusal>
    requires { All IsShallow constants.now }
    ensures { ReadsOne result (reader.read_axiom constants.now name.now (reader.axiom_term constants.now tokens.now)) }
{
    let (ty, rest) = axiom_term(alloc, constants, tokens)?;
    if ty.depth() > 1024 {
        drop(ty);
        return Err(Refusal::NotBuilt);
    }
    typed_axiom(alloc, constants, name, ty, rest)
}

/// The axiom at the front of the tokens.
fn axiom_at<'t>(
    alloc: Global,
    constants: &[ConstInfo],
    tokens: &'t [Token],
) -> Result<(ConstInfo, &'t [Token]), Refusal>
    requires { All IsShallow constants.now }
    ensures { ReadsOne result (reader.axiom_at constants.now tokens.now) }
{
    let Some((name, rest)) = axiom_head(tokens) else {
        return Err(Refusal::NotBuilt);
    };
    if is_declared(constants, name) {
        return Err(Refusal::NotBuilt);
    }
    if nesting(rest) > 64 {
        return Err(Refusal::NotBuilt);
    }
    read_axiom(alloc, constants, name, rest)
}

fn keep(constants: &mut Items<ConstInfo>, constant: ConstInfo) -> Result<(), NoMemory>
    ensures { OnOk result (constants.new ≡ constants.old ++ constant ∷ []) }
{
    constants.push(constant)?;
    Ok(())
}

/// The axioms that the tokens declare.
pub(crate) fn axioms(alloc: Global, tokens: &[Token]) -> Result<Items<ConstInfo>, Refusal>
    ensures reads { ReadsAll tokens.now result }
    ensures shallow { IfOk result (All IsShallow) }
{
    let mut constants = Items::new(alloc);
    let mut rest = tokens;
    'axioms: while !rest.is_empty() {
        match axiom_at(alloc, constants.as_slice(), rest) {
            Ok((constant, behind)) => {
                keep(&mut constants, constant)?;
                rest = behind;
            }
            Err(refusal) => return Err(refusal),
        }
    }
    Ok(constants)
}
