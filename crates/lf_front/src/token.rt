//! The tokens of a text of axioms.
ghost use Rattle.std.specs.Prelude.{
  ◌≡◌,
  ℕ,
  ◌+◌,
  ◌≤◌,
  ◌<◌,
  length,
  drop,
  slice_index,
  true,
  false,
  IfOk,
  IfSome,
  IfNone,
  OnOk,
  IsTrue,
  ◌&&◌,
  ◌++◌,
  ◌∷◌,
  [],
  nat_le,
  string_bytes,
};
ghost use Rattle.std.specs.List.{list_all, list_any, prefix_len};
ghost use Rattle.std.specs.Str.{bytes_eq};
ghost use Rattle.lf_front.specs.Lexemes.{
  starts,
  goes_on,
  goes_over,
  part_next,
  is_lexeme,
  is_digit,
  is_white,
  is_ascii,
  command_words,
  left_out_words,
  more_left_out_words,
  other_words,
  is_one_of,
  is_reserved,
  parts_of,
  value_after,
  number_token,
  symbol_token,
  word_token,
  token_of,
  past_white,
  IsLongest,
  Tokens,
};
ghost use Rattle.lf_front.specs.Scan.{tail_len, symbol_len};

use lf_core::{Name, NoMemory, Word};
use sqlite_items::Items;
use std::alloc::Global;

/// A token. A numeral is at most 32; a larger one, a word that is reserved without use here, and whatever else
/// stands in the text is `Other`.
#[derive(Debug, Drop)]
pub enum Token {
    Axiom,
    Forall,
    Prop,
    Type,
    Sort,
    Ident(Name),
    Number(u32),
    Colon,
    Arrow,
    Open,
    Close,
    Comma,
    Other,
}

/// Whether a part of an identifier begins with the byte.
#[tactic(auto, unfolding(crate::specs::Lexemes::starts))]
fn starts(c: u8) -> bool
    ensures { result ≡ starts c }
{
    c == b'_' || c.is_ascii_alphabetic()
}

#[tactic(auto, unfolding(crate::specs::Lexemes::is_digit))]
fn is_digit(c: u8) -> bool
    ensures value { result ≡ is_digit c }
    ensures range { IsTrue result → 48 ≤ c }
{
    c.is_ascii_digit()
}

/// Whether a part of an identifier goes on with the byte.
fn goes_on(c: u8) -> bool
    ensures { result ≡ goes_on c }
{
    starts(c) || is_digit(c)
}

/// Whether a part of an identifier begins at the place.
fn part_at(cs: &[u8], n: usize) -> bool
    requires { n ≤ length cs.now }
    ensures { result ≡ part_next (drop n cs.now) }
{
    n < cs.len() && starts(cs[n])
}

/// Whether an identifier goes on with the byte at the place.
fn goes_over(cs: &[u8], n: usize) -> bool
    requires { n < length cs.now }
    ensures { result ≡ goes_over (slice_index cs.now n) (drop (n + 1) cs.now) }
{
    goes_on(cs[n]) || (cs[n] == b'.' && part_at(cs, n + 1))
}

/// How far an identifier goes on behind its first byte.
#[tactic(auto, using(crate::proofs::Longest::tail_step))]
fn tail_len(cs: &[u8]) -> usize
    ensures value { result ≡ tail_len cs.now }
    ensures within { result ≤ length cs.now }
{
    let mut n = 0;
    'bytes: while n < cs.len() {
        if !goes_over(cs, n) {
            break 'bytes;
        }
        n += 1;
    }
    n
}

/// How many bytes at the front may stand inside a part.
fn part_len(cs: &[u8]) -> usize
    ensures value { result ≡ prefix_len goes_on cs.now }
    ensures within { result ≤ length cs.now }
{
    cs.iter().take_while(|c| goes_on(**c)).count()
}

fn symbol_len(cs: &[u8]) -> usize
    ensures { result ≡ symbol_len cs.now }
{
    let three = &cs[..cs.len().min(3)];
    if three == "→".as_bytes() || three == "∀".as_bytes() {
        return 3;
    }
    if &cs[..cs.len().min(2)] == b"->".as_slice() {
        return 2;
    }
    1
}

/// The length of the longest lexeme at the front.
fn lexeme_len(cs: &[u8]) -> usize
    requires { 0 < length cs.now }
    ensures longest { IsLongest is_lexeme cs.now result }
    ensures some { 0 < result }
{
    if starts(cs[0]) {
        return tail_len(&cs[1..]) + 1;
    }
    if is_digit(cs[0]) {
        return part_len(&cs[1..]) + 1;
    }
    symbol_len(cs)
}

fn is_command_word(cs: &[u8]) -> bool
    ensures { result ≡ is_one_of command_words cs.now }
{
    cs == b"axiom".as_slice()
        || cs == b"def".as_slice()
        || cs == b"theorem".as_slice()
        || cs == b"inductive".as_slice()
        || cs == b"namespace".as_slice()
        || cs == b"section".as_slice()
        || cs == b"end".as_slice()
        || cs == b"open".as_slice()
        || cs == b"universe".as_slice()
        || cs == b"variable".as_slice()
}

fn is_left_out_word(cs: &[u8]) -> bool
    ensures { result ≡ is_one_of left_out_words cs.now }
{
    cs == b"abbrev".as_slice()
        || cs == b"attribute".as_slice()
        || cs == b"class".as_slice()
        || cs == b"deriving".as_slice()
        || cs == b"example".as_slice()
        || cs == b"import".as_slice()
        || cs == b"instance".as_slice()
        || cs == b"macro".as_slice()
        || cs == b"mutual".as_slice()
        || cs == b"noncomputable".as_slice()
}

fn is_left_out_word_too(cs: &[u8]) -> bool
    ensures { result ≡ is_one_of more_left_out_words cs.now }
{
    cs == b"notation".as_slice()
        || cs == b"opaque".as_slice()
        || cs == b"partial".as_slice()
        || cs == b"private".as_slice()
        || cs == b"protected".as_slice()
        || cs == b"set_option".as_slice()
        || cs == b"structure".as_slice()
        || cs == b"syntax".as_slice()
        || cs == b"unsafe".as_slice()
}

fn is_other_word(cs: &[u8]) -> bool
    ensures { result ≡ is_one_of other_words cs.now }
{
    cs == b"fun".as_slice()
        || cs == b"let".as_slice()
        || cs == b"by".as_slice()
        || cs == b"where".as_slice()
        || cs == b"sorry".as_slice()
        || cs == b"_".as_slice()
}

fn is_reserved(cs: &[u8]) -> bool
    ensures { result ≡ is_reserved cs.now }
{
    is_command_word(cs) || is_left_out_word(cs) || is_left_out_word_too(cs) || is_other_word(cs)
}

fn push_ascii(part: &mut String, c: u8) -> Result<(), NoMemory>
    requires { c < 128 }
    ensures { OnOk result (string_bytes part.new ≡ string_bytes part.old ++ c ∷ []) }
{
    part.push(char::from(c))?;
    Ok(())
}

/// The name of an identifier: the parts between its dots.
fn parts_of(alloc: Global, cs: &[u8]) -> Result<Name, NoMemory>
    requires { list_all is_ascii cs.now ≡ true }
    ensures { IfOk result (λ n. n ≡ parts_of cs.now) }
{
    let mut words = Items::new(alloc);
    let mut part = String::new(alloc);
    'bytes: for c in cs {
        if *c == b'.' {
            words.push(Word::new(alloc, part.as_str())?)?;
            part = String::new(alloc);
        } else {
            push_ascii(&mut part, *c)?;
        }
    }
    words.push(Word::new(alloc, part.as_str())?)?;
    Name::new(alloc, words)
}

/// The value of a numeral of at most 32.
fn small_value(cs: &[u8]) -> Option<u32>
    ensures some { IfSome result (λ n. (list_all is_digit cs.now ≡ true) × (n ≡ value_after 0 cs.now) × (n ≤ 32)) }
    ensures none { IfNone result (list_all is_digit cs.now && nat_le (value_after 0 cs.now) 32 ≡ false) }
{
    let mut n = 0;
    'digits: for c in cs {
        if n > 32 {
            return None;
        }
        if !is_digit(*c) {
            return None;
        }
        n = 10 * n + u32::from(*c - b'0');
    }
    if n > 32 { None } else { Some(n) }
}

fn word_token(alloc: Global, cs: &[u8]) -> Result<Token, NoMemory>
    requires { list_all is_ascii cs.now ≡ true }
    ensures { IfOk result (λ t. t ≡ word_token cs.now) }
{
    if cs == b"axiom".as_slice() {
        return Ok(Token::Axiom);
    }
    if cs == b"forall".as_slice() {
        return Ok(Token::Forall);
    }
    if cs == b"Prop".as_slice() {
        return Ok(Token::Prop);
    }
    if cs == b"Type".as_slice() {
        return Ok(Token::Type);
    }
    if cs == b"Sort".as_slice() {
        return Ok(Token::Sort);
    }
    if is_reserved(cs) {
        return Ok(Token::Other);
    }
    Ok(Token::Ident(parts_of(alloc, cs)?))
}

fn number_token(cs: &[u8]) -> Token
    ensures { result ≡ number_token cs.now }
{
    match small_value(cs) {
        Some(n) => Token::Number(n),
        None => Token::Other,
    }
}

fn symbol_token(cs: &[u8]) -> Token
    ensures { result ≡ symbol_token cs.now }
{
    if cs == b":".as_slice() {
        return Token::Colon;
    }
    if cs == b"(".as_slice() {
        return Token::Open;
    }
    if cs == b")".as_slice() {
        return Token::Close;
    }
    if cs == b",".as_slice() {
        return Token::Comma;
    }
    if cs == "→".as_bytes() || cs == b"->".as_slice() {
        return Token::Arrow;
    }
    if cs == "∀".as_bytes() {
        return Token::Forall;
    }
    Token::Other
}

/// What a lexeme is.
#[tactic(auto, using(crate::proofs::Lexing::word_is_ascii))]
fn token_of(alloc: Global, cs: &[u8]) -> Result<Token, NoMemory>
    requires { is_lexeme cs.now ≡ true }
    ensures { IfOk result (λ t. t ≡ token_of cs.now) }
{
    if cs.is_empty() {
        return Ok(Token::Other);
    }
    if starts(cs[0]) {
        return word_token(alloc, cs);
    }
    if is_digit(cs[0]) {
        return Ok(number_token(cs));
    }
    Ok(symbol_token(cs))
}

fn white_len(cs: &[u8]) -> usize
    ensures value { result ≡ prefix_len is_white cs.now }
    ensures within { result ≤ length cs.now }
{
    cs.iter()
        .take_while(|c| matches!(**c, b' ' | b'\t' | b'\n' | b'\r'))
        .count()
}

#[tactic(auto, using(lf_base::proofs::Pieces::tail_is))]
fn past_white(cs: &[u8]) -> &[u8]
    ensures { result.now ≡ past_white cs.now }
{
    &cs[white_len(cs)..]
}

/// The tokens of the bytes.
pub(crate) fn tokens(alloc: Global, cs: &[u8]) -> Result<Vec<Token>, NoMemory>
    ensures { IfOk result (λ v. Tokens cs.now v.items) }
{
    let mut out = Vec::new(alloc);
    let mut rest = cs;
    'tokens: loop {
        let front = past_white(rest);
        if front.is_empty() {
            return Ok(out);
        }
        let n = lexeme_len(front);
        out.push(token_of(alloc, &front[..n])?)?;
        rest = &front[n..];
    }
}
