//! Numbers of the command line.
ghost use Rattle.std.specs.Prelude.{◌≡◌};
ghost use Rattle.lf_words.specs.Words.{are_digits, number_of, within};

fn is_digits(bytes: &[u8]) -> bool
    ensures { result ≡ are_digits bytes.now }
{
    match bytes {
        [] => true,
        [byte, rest @ ..] => 48 <= *byte && *byte <= 57 && is_digits(rest),
    }
}

/// The number that one to seven decimal digits write.
#[tactic(auto, using(crate::proofs::Numbers::parses))]
pub fn number(text: &str) -> Option<u32>
    ensures { result ≡ number_of text.now }
{
    let bytes = text.as_bytes();
    if 1 <= bytes.len() && bytes.len() <= 7 && is_digits(bytes) {
        text.parse::<u32>().ok()
    } else {
        None
    }
}

/// The number, where it is between these.
pub fn number_within(least: u32, most: u32, text: &str) -> Option<u32>
    ensures { result ≡ within least most (number_of text.now) }
{
    match number(text) {
        Some(n) if least <= n && n <= most => Some(n),
        _ => None,
    }
}
