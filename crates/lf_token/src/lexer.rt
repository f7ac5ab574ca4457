ghost use Rattle.std.specs.Prelude.{◌≡◌, List, ℕ, ◌+◌, ◌^◌, ◌≤◌, ◌<◌, ◌++◌, length, take, drop, OnOk, IfOk, true};
ghost use Rattle.std.specs.Str.{IsCharBoundary, chars, all_scalars, encode_utf8_all};
ghost use Rattle.lf_text.specs.Lexemes.{piece_at, lexeme};
ghost use Rattle.lf_text.specs.Place.{line_of, column_of};
ghost use Rattle.lf_text.specs.Tokens.{tokens_of};
ghost use Rattle.lf_token.specs.Layouts.{Knows, Goes, token_between};
ghost use Rattle.lf_token.specs.Places.{IsAt};
ghost use Rattle.lf_token.specs.Spelling.{width};

use crate::kind::kind_by;
use crate::layout::Layout;
use crate::place::{Place, past};
use crate::shape::shape_at;
use lf_base::NoMemory;
use lf_text::{Text, Token, TokenKind};
use std::alloc::Global;

/// The characters of a text.
fn characters(alloc: Global, text: &str) -> Result<Vec<char>, NoMemory>
    ensures { IfOk result (λ v. v.items ≡ chars text.now) }
{
    Ok(text.chars().collect(alloc)?)
}

/// The token of this kind between two places, if there is one, is put.
fn put_kind(
    layout: &mut Layout,
    text: &str,
    place: Place,
    end: usize,
    kind: Option<TokenKind>,
) -> Result<(), NoMemory>
    requires knows { Knows text.now layout.old }
    requires short { length text.now < 2 ^ 32 }
    requires line { place.line ≡ line_of text.now place.at }
    requires column { place.column ≡ column_of text.now place.at }
    requires from { IsCharBoundary text.now place.at }
    requires to { IsCharBoundary text.now end }
    requires order { place.at ≤ end }
    ensures knows { OnOk result (Knows text.now layout.new) }
    ensures goes { OnOk result ((rest : List Token) → Goes text.now layout.old (token_between place.at end kind ++ rest) layout.new rest) }
{
    match kind {
        Some(kind) => {
            let token = Token {
                at: place.at,
                len: end - place.at,
                kind,
            };
            layout.put(text, token, place)?;
            Ok(())
        }
        None => Ok(()),
    }
}

/// What stands at a place is put; the rest of the text from there on has these characters. How many
/// of them it takes, and the place behind.
fn put_piece(
    layout: &mut Layout,
    text: &str,
    place: Place,
    cs: &[char],
) -> Result<(usize, Place), NoMemory>
    requires some { 0 < length cs.now }
    requires short { length text.now < 2 ^ 32 }
    requires within { place.at ≤ length text.now }
    requires spelled { drop place.at text.now ≡ encode_utf8_all cs.now }
    requires scalars { all_scalars cs.now ≡ true }
    requires knows { Knows text.now layout.old }
    requires line { place.line ≡ line_of text.now place.at }
    requires column { place.column ≡ column_of text.now place.at }
    requires low { place.line ≤ place.at + 1 }
    requires left { place.column ≤ place.at }
    ensures some { IfOk result (λ r. 0 < r.0) }
    ensures within { IfOk result (λ r. r.0 ≤ length cs.now) }
    ensures place { IfOk result (λ r. (before : List ℕ) → IsAt before place → IsAt (before ++ take r.0 cs.now) r.1) }
    ensures at { IfOk result (λ r. r.1.at ≡ place.at + width (take r.0 cs.now)) }
    ensures knows { OnOk result (Knows text.now layout.new) }
    ensures goes { IfOk result (λ r. (r.0 ≡ (piece_at cs.now).1)
        × ((rest : List Token) → Goes text.now layout.old (lexeme place.at (take r.0 cs.now) (piece_at cs.now).0 ++ rest) layout.new rest)) }
{
    let (shape, len) = shape_at(text, place.at, cs);
    let piece = &cs[..len];
    let end = past(place, piece);
    let kind = kind_by(shape, piece, &text[place.at..end.at]);
    put_kind(layout, text, place, end.at, kind)?;
    Ok((len, end))
}

/// The tokens of the text, in order, with the layout tokens.
pub fn tokens(alloc: Global, text: &Text) -> Result<Vec<Token>, NoMemory>
    ensures { IfOk result (λ v. v.items ≡ tokens_of text.now) }
{
    let bytes = text.as_str();
    let cs = characters(alloc, bytes)?;
    let mut layout = Layout::new(alloc);
    let mut place = Place {
        at: 0,
        line: 1,
        column: 0,
    };
    let mut done = 0;
    'pieces: while done < cs.len() {
        let (len, end) = put_piece(&mut layout, bytes, place, &cs[done..])?;
        place = end;
        done += len;
    }
    layout.finish(bytes)
}
