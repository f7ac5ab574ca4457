ghost use Rattle.std.specs.Prelude.{◌≡◌, ℕ, ◌+◌, ◌^◌, ◌≤◌, ◌<◌, ◌&&◌, ◌==◌, not, IfSome, length, take, drop, slice_index};
ghost use Rattle.std.specs.List.{prefix_len};
ghost use Rattle.lf_text.specs.Lexemes.{continues_part, is_digit, through};
ghost use Rattle.lf_text.specs.Place.{is_line_feed};
ghost use Rattle.lf_token.specs.Scan.{part_next, goes_over, tail_len, part_len};
ghost use Rattle.lf_token.specs.Spelling.{width};

use crate::characters::{continues_part, is_digit, starts_part};

/// Whether a part of an identifier may start at the place.
fn part_at(cs: &[char], n: usize) -> bool
    requires { n ≤ length cs.now }
    ensures { result ≡ part_next (drop n cs.now) }
{
    n < cs.len() && starts_part(cs[n])
}

/// Whether an identifier goes on with the character at the place.
fn goes_over(cs: &[char], n: usize) -> bool
    requires { n < length cs.now }
    ensures { result ≡ goes_over (slice_index cs.now n) (drop (n + 1) cs.now) }
{
    continues_part(cs[n]) || (cs[n] == '.' && part_at(cs, n + 1))
}

/// How far an identifier goes on behind its first character.
#[tactic(auto, using(crate::proofs::Steps::tail_step))]
pub fn tail_len(cs: &[char]) -> usize
    ensures value { result ≡ tail_len cs.now }
    ensures within { result ≤ length cs.now }
{
    let mut n = 0;
    'characters: while n < cs.len() {
        if !goes_over(cs, n) {
            break 'characters;
        }
        n += 1;
    }
    n
}

/// How many characters at the front go on a part.
fn continuing_len(cs: &[char]) -> usize
    ensures value { result ≡ prefix_len continues_part cs.now }
    ensures within { result ≤ length cs.now }
{
    cs.iter().take_while(|c| continues_part(**c)).count()
}

/// The length of the part of an identifier at the front, or 0.
pub fn part_len(cs: &[char]) -> usize
    ensures value { result ≡ part_len cs.now }
    ensures within { result ≤ length cs.now }
{
    match cs {
        [] => 0,
        [first, rest @ ..] if starts_part(*first) => continuing_len(rest) + 1,
        _ => 0,
    }
}

/// How many characters at the front are digits.
pub fn digits_len(cs: &[char]) -> usize
    ensures value { result ≡ prefix_len is_digit cs.now }
    ensures within { result ≤ length cs.now }
{
    cs.iter().take_while(|c| is_digit(**c)).count()
}

/// How many characters stand before the next line feed, or the end.
pub fn line_len(cs: &[char]) -> usize
    ensures value { result ≡ prefix_len (λ c. not (is_line_feed c)) cs.now }
    ensures within { result ≤ length cs.now }
{
    cs.iter().take_while(|c| **c != '\n').count()
}

fn opens_comment(cs: &[char], n: usize) -> bool
    requires { n + 1 < length cs.now }
    ensures { result ≡ (slice_index cs.now n == 47 && slice_index cs.now (n + 1) == 45) }
{
    cs[n] == '/' && cs[n + 1] == '-'
}

fn closes_comment(cs: &[char], n: usize) -> bool
    requires { n + 1 < length cs.now }
    ensures { result ≡ (slice_index cs.now n == 45 && slice_index cs.now (n + 1) == 47) }
{
    cs[n] == '-' && cs[n + 1] == '/'
}

/// Behind the `/-` of a comment: how many characters there are through its own `-/`.
pub fn comment_len(cs: &[char]) -> Option<usize>
    ensures value { result ≡ through 0 cs.now }
    ensures within { IfSome result (λ n. n ≤ length cs.now) }
{
    let mut depth: usize = 0;
    let mut n = 0;
    'characters: while n + 1 < cs.len() {
        if opens_comment(cs, n) {
            depth += 1;
            n += 2;
        } else if closes_comment(cs, n) {
            n += 2;
            if depth == 0 {
                return Some(n);
            }
            depth -= 1;
        } else {
            n += 1;
        }
    }
    None
}

/// How many of the characters have this many bytes together, where some do.
pub fn chars_in(cs: &[char], bytes: usize) -> usize
    requires { bytes < 2 ^ 32 }
    ensures { (k : ℕ) → k ≤ length cs.now → bytes ≡ width (take k cs.now) → result ≡ k }
{
    let mut n = 0;
    let mut passed = 0;
    'characters: while passed < bytes && n < cs.len() {
        passed += cs[n].len_utf8();
        n += 1;
    }
    n
}
