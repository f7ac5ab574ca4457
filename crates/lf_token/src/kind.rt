ghost use Rattle.std.specs.Prelude.{◌≡◌, ℕ, ◌+◌, ◌*◌, ◌-◌, ◌^◌, ◌≤◌, ◌<◌, Some, None, nat_lt, if◌then◌else◌, IsTrue, ◌==◌};
ghost use Rattle.std.specs.List.{list_all, list_any};
ghost use Rattle.std.specs.Option.{SomeIff};
ghost use Rattle.std.specs.Str.{encode_utf8_all};
ghost use Rattle.std.specs.Str.Parse.{digits_value};
ghost use Rattle.std.specs.Char.{digit_value};
ghost use Rattle.lf_text.specs.Lexemes.{is_digit};
ghost use Rattle.lf_text.specs.Lexemes.{name_kind};
ghost use Rattle.lf_token.specs.Scan.{kind_by};

use crate::shape::Shape;
use crate::words::named;
use lf_text::{Spelling, TokenKind};

fn digit_of(c: char) -> u128
    requires { IsTrue (is_digit c) }
    ensures value { result ≡ digit_value c }
    ensures below { result < 10 }
{
    (c as u32 - '0' as u32) as u128
}

/// The number with a digit more, where it is below 2^128.
fn append(value: u128, digit: u128) -> Option<u128>
    ensures { SomeIff result (value * 10 + digit < 2 ^ 128) (value * 10 + digit) }
{
    match value.checked_mul(10) {
        Some(tens) => tens.checked_add(digit),
        None => None,
    }
}

/// The number that the digits write, where it is below 2^128.
fn number(cs: &[char]) -> Option<u128>
    requires { IsTrue (list_all is_digit cs.now) }
    ensures { result ≡ (if nat_lt (digits_value 10 cs.now) (2 ^ 128) then Some (digits_value 10 cs.now) else None) }
{
    let mut value: u128 = 0;
    'digits: for c in cs {
        match append(value, digit_of(*c)) {
            Some(next) => value = next,
            None => return None,
        }
    }
    Some(value)
}

/// Whether a dot is among the characters.
fn has_dot(cs: &[char]) -> bool
    ensures { result ≡ list_any (λ c. c == 46) cs.now }
{
    'characters: for c in cs {
        if *c == '.' {
            return true;
        }
    }
    false
}

/// The kind of the name of these characters.
fn name_kind(cs: &[char], text: &str) -> TokenKind
    requires spelled { text.now ≡ encode_utf8_all cs.now }
    ensures { result ≡ name_kind cs.now }
{
    match named(text) {
        Some(kind) => kind,
        None if has_dot(cs) => TokenKind::Ident(Spelling::Several),
        None => TokenKind::Ident(Spelling::Plain),
    }
}

/// The kind of the token of these characters, none where they are white space.
pub fn kind_by(shape: Shape, cs: &[char], text: &str) -> Option<TokenKind>
    requires spelled { text.now ≡ encode_utf8_all cs.now }
    requires digits { shape ≡ Shape.Numeral → IsTrue (list_all is_digit cs.now) }
    ensures { result ≡ kind_by shape cs.now }
{
    Some(match shape {
        Shape::White => return None,
        Shape::OpenComment => TokenKind::OpenComment,
        Shape::Name => name_kind(cs, text),
        Shape::Numeral => match number(cs) {
            Some(value) => TokenKind::Num(value),
            None => TokenKind::WideNum,
        },
        Shape::BadNum => TokenKind::BadNum,
        Shape::Symbol(kind) => kind,
        Shape::BadChar => TokenKind::BadChar,
    })
}
