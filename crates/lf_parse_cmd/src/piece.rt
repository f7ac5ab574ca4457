//! Tokens as the grammar sees them.
ghost use Rattle.std.specs.Prelude.{◌≡◌, ◌+◌, ◌<◌, ◌≤◌, ◌++◌, ◌∷◌, [], length, IfOk};
ghost use Rattle.std.specs.Str.{IsCharBoundary};
ghost use Rattle.lf_text.specs.Nesting.{nesting_of, outermost};
ghost use Rattle.lf_text.specs.Tokens.{tokens_of};
ghost use Rattle.lf_syntax.specs.Classes.{parts_of, class_of, piece_of, pieces, pieces_of};
ghost use Rattle.lf_parse_term.specs.View.{class_view, view, views};
ghost use Rattle.lf_parse_cmd.specs.Within.{AllWithin};

use lf_base::NoMemory;
use lf_name::{Name, Word};
use lf_parse_term::{Class, Piece, Spot};
use lf_syntax::SyntaxFault;
use lf_text::{Text, Token, TokenKind};
use lf_token::{nesting_numbers, tokens, tokens_cover_the_text};
use sqlite_items::Items;
use std::alloc::Global;

/// The parts of a name between its full stops.
fn parts(alloc: Global, text: &str) -> Result<Items<Word>, NoMemory>
    ensures parts { IfOk result (λ ps. ps ≡ parts_of text.now) }
    ensures some { IfOk result (λ ps. 0 < length ps) }
{
    let mut parts = Items::new(alloc);
    let mut rest = text;
    'parts: while let Some((part, more)) = rest.split_once('.') {
        parts.push(Word::new(alloc, part)?)?;
        rest = more;
    }
    parts.push(Word::new(alloc, rest)?)?;
    Ok(parts)
}

/// The name that is spelled so.
fn name(alloc: Global, text: &str) -> Result<Name, NoMemory>
    ensures { IfOk result (λ n. n ≡ parts_of text.now) }
{
    Name::new(alloc, parts(alloc, text)?)
}

/// The class of a token of this kind, which is spelled so.
fn class(alloc: Global, text: &str, kind: TokenKind) -> Result<Class, NoMemory>
    ensures { IfOk result (λ c. class_view c ≡ class_of text.now kind) }
{
    Ok(match kind {
        TokenKind::Ident(spelling) => Class::Name(spelling, name(alloc, text)?),
        TokenKind::Word(word) => Class::Word(word),
        TokenKind::Operator(op) => Class::Operator(op),
        TokenKind::Num(value) => Class::Number(value, text.len()),
        TokenKind::BadChar => Class::Wrong(SyntaxFault::Char),
        TokenKind::OpenComment => Class::Wrong(SyntaxFault::Comment),
        TokenKind::BadNum => Class::Wrong(SyntaxFault::Numeral),
        TokenKind::WideNum => Class::Wrong(SyntaxFault::Wide),
    })
}

/// A token of the text, with its nesting number.
fn piece(alloc: Global, text: &str, token: &Token, nesting: usize) -> Result<Piece, NoMemory>
    requires from { IsCharBoundary text.now token.now.at }
    requires to { IsCharBoundary text.now (token.now.at + token.now.len) }
    ensures { IfOk result (λ p. view p ≡ piece_of text.now token.now nesting) }
{
    let end = token.at + token.len;
    let spot = Spot {
        at: token.at,
        end,
        nesting,
    };
    let class = class(alloc, &text[token.at..end], token.kind)?;
    Ok(Piece { class, spot })
}

/// Tokens of the text, with their nesting numbers.
fn with_numbers(
    alloc: Global,
    text: &str,
    tokens: &[Token],
    numbers: &[usize],
) -> Result<Vec<Piece>, NoMemory>
    requires within { AllWithin text.now tokens.now }
    requires numbers { numbers.now ≡ nesting_of outermost tokens.now }
    ensures { IfOk result (λ v. views v.items ≡ pieces text.now tokens.now numbers.now) }
{
    let mut all = Vec::with_capacity(alloc, tokens.len())?;
    'tokens: for (index, token) in tokens.iter().enumerate() {
        all.push(piece(alloc, text, token, numbers[index])?)?;
    }
    Ok(all)
}

/// The tokens of the text.
pub fn pieces(alloc: Global, text: &Text) -> Result<Vec<Piece>, NoMemory>
    ensures { IfOk result (λ v. views v.items ≡ pieces_of text.now) }
{
    let tokens = tokens(alloc, text)?;
    let numbers = nesting_numbers(alloc, &tokens)?;
    tokens_cover_the_text();
    with_numbers(alloc, text.as_str(), &tokens, &numbers)
}
