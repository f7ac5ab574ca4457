//! Tokens as short texts.
use crate::words::put;
use lf_row_text::{RowFault, shown};
use lf_text::Text;
use lf_token::{Token, TokenKind, Word, nesting_numbers, tokens};
use std::alloc::Global;

/// A letter for the kind; blocks as braces and semicolons.
fn letter(kind: TokenKind) -> &'static str {
    match kind {
        TokenKind::Ident(_) => "i",
        TokenKind::Word(Word::LayoutOpen) => "{",
        TokenKind::Word(Word::LayoutSep) => ";",
        TokenKind::Word(Word::LayoutClose) => "}",
        TokenKind::Word(_) => "w",
        TokenKind::Operator(_) => "o",
        TokenKind::Num(_) => "n",
        TokenKind::BadChar => "?c",
        TokenKind::OpenComment => "?o",
        TokenKind::BadNum => "?n",
        TokenKind::WideNum => "?w",
    }
}

// None would be a token with no place in its text.
fn spelling<'a>(text: &'a str, token: &Token) -> Option<&'a str> {
    text.get(token.at..)?.get(..token.len)
}

/// Each token by its letter and its text.
pub fn letters(alloc: Global, text: &Text) -> Result<String, RowFault> {
    let mut line = String::new(alloc);
    for token in &tokens(alloc, text)? {
        put(&mut line, letter(token.kind))?;
        let spelling = spelling(text.as_str(), token).ok_or(RowFault::Malformed)?;
        line.push_str(shown(alloc, spelling)?.as_str())?;
    }
    Ok(line)
}

/// Each token by its place and its length, in bytes.
pub fn places(alloc: Global, text: &Text) -> Result<String, RowFault> {
    let mut line = String::new(alloc);
    for token in &tokens(alloc, text)? {
        let place = format!(in alloc; "{}+{}", token.at, token.len)?;
        put(&mut line, place.as_str())?;
    }
    Ok(line)
}

/// Each numeral by its value, the other tokens by their letters.
pub fn values(alloc: Global, text: &Text) -> Result<String, RowFault> {
    let mut line = String::new(alloc);
    for token in &tokens(alloc, text)? {
        match token.kind {
            TokenKind::Num(value) => put(&mut line, format!(in alloc; "{value}")?.as_str())?,
            kind => put(&mut line, letter(kind))?,
        }
    }
    Ok(line)
}

/// The nesting number of each token.
pub fn nesting(alloc: Global, text: &Text) -> Result<String, RowFault> {
    let tokens = tokens(alloc, text)?;
    let mut line = String::new(alloc);
    for number in &nesting_numbers(alloc, &tokens)? {
        put(&mut line, format!(in alloc; "{number}")?.as_str())?;
    }
    Ok(line)
}
