ghost use Rattle.std.specs.Prelude.{◌≡◌, ◌≤◌, ◌<◌, ◌^◌, length, take, drop, slice_index, IsTrue, false, ◌≢◌};
ghost use Rattle.std.specs.List.{list_all};
ghost use Rattle.std.specs.Str.{encode_utf8_all};
ghost use Rattle.lf_text.specs.Lexemes.{is_digit, starts_part, token_at, comment_at, piece_at};
ghost use Rattle.lf_token.specs.Scan.{kind_by};

use crate::characters::{is_digit, is_white, starts_part};
use crate::scan::{chars_in, comment_len, digits_len, line_len, part_len, tail_len};
use crate::words::symbol_at;
use lf_text::TokenKind;

/// What the characters at a place are.
#[derive(Clone, Copy, Debug, PartialEq, Eq)]
pub enum Shape {
    White,
    OpenComment,
    Name,
    Numeral,
    BadNum,
    Symbol(TokenKind),
    BadChar,
}

/// The shape and the length of the token at the front, which starts with a digit.
fn numeral_shape(cs: &[char]) -> (Shape, usize)
    requires some { 0 < length cs.now }
    requires digit { IsTrue (is_digit (slice_index cs.now 0)) }
    ensures token { token_at cs.now ≡ (kind_by result.0 (take result.1 cs.now), result.1) }
    ensures digits { result.0 ≡ Shape.Numeral → IsTrue (list_all is_digit (take result.1 cs.now)) }
    ensures within { result.1 ≤ length cs.now }
    ensures some { 0 < result.1 }
{
    let digits = digits_len(cs);
    let part = part_len(&cs[digits..]);
    if part == 0 {
        (Shape::Numeral, digits)
    } else {
        (Shape::BadNum, digits + part)
    }
}

/// The shape and the length of the token at the front, where no name and no numeral starts; the
/// characters are those of the text from its byte `at` on.
fn symbol_shape(text: &str, at: usize, cs: &[char]) -> (Shape, usize)
    requires some { 0 < length cs.now }
    requires short { length text.now < 2 ^ 32 }
    requires spelled { drop at text.now ≡ encode_utf8_all cs.now }
    requires no_part { starts_part (slice_index cs.now 0) ≡ false }
    requires no_digit { is_digit (slice_index cs.now 0) ≡ false }
    ensures token { token_at cs.now ≡ (kind_by result.0 (take result.1 cs.now), result.1) }
    ensures kind { result.0 ≢ Shape.Numeral }
    ensures within { result.1 ≤ length cs.now }
    ensures some { 0 < result.1 }
{
    match symbol_at(text, at) {
        Some((bytes, kind)) => (Shape::Symbol(kind), chars_in(cs, bytes)),
        None => (Shape::BadChar, 1),
    }
}

/// The shape and the length of the token at the front; the characters are those of the text from its
/// byte `at` on.
fn token_shape(text: &str, at: usize, cs: &[char]) -> (Shape, usize)
    requires some { 0 < length cs.now }
    requires short { length text.now < 2 ^ 32 }
    requires spelled { drop at text.now ≡ encode_utf8_all cs.now }
    ensures token { token_at cs.now ≡ (kind_by result.0 (take result.1 cs.now), result.1) }
    ensures digits { result.0 ≡ Shape.Numeral → IsTrue (list_all is_digit (take result.1 cs.now)) }
    ensures within { result.1 ≤ length cs.now }
    ensures some { 0 < result.1 }
{
    if starts_part(cs[0]) {
        (Shape::Name, tail_len(&cs[1..]) + 1)
    } else if is_digit(cs[0]) {
        numeral_shape(cs)
    } else {
        symbol_shape(text, at, cs)
    }
}

/// The shape and the length of what begins with `/-`.
fn comment_shape(cs: &[char]) -> (Shape, usize)
    requires { 2 ≤ length cs.now }
    ensures comment { comment_at cs.now ≡ (kind_by result.0 (take result.1 cs.now), result.1) }
    ensures kind { result.0 ≢ Shape.Numeral }
    ensures within { result.1 ≤ length cs.now }
    ensures some { 0 < result.1 }
{
    match comment_len(&cs[2..]) {
        Some(n) => (Shape::White, n + 2),
        None => (Shape::OpenComment, cs.len()),
    }
}

/// What stands at the front, and how many characters it takes; they are those of the text from its
/// byte `at` on.
pub fn shape_at(text: &str, at: usize, cs: &[char]) -> (Shape, usize)
    requires some { 0 < length cs.now }
    requires short { length text.now < 2 ^ 32 }
    requires spelled { drop at text.now ≡ encode_utf8_all cs.now }
    ensures piece { piece_at cs.now ≡ (kind_by result.0 (take result.1 cs.now), result.1) }
    ensures digits { result.0 ≡ Shape.Numeral → IsTrue (list_all is_digit (take result.1 cs.now)) }
    ensures within { result.1 ≤ length cs.now }
    ensures some { 0 < result.1 }
{
    if is_white(cs[0]) {
        (Shape::White, 1)
    } else if cs.starts_with(&['-', '-']) {
        (Shape::White, line_len(cs))
    } else if cs.starts_with(&['/', '-']) {
        comment_shape(cs)
    } else {
        token_shape(text, at, cs)
    }
}
