ghost use Rattle.std.specs.Prelude.{◌≡◌};
ghost use Rattle.lf_text.specs.Lexemes.{is_white, is_digit, starts_part, continues_part};

/// Whether the character is white space.
pub fn is_white(c: char) -> bool
    ensures { result ≡ is_white c }
{
    matches!(c, ' ' | '\t' | '\n' | '\r')
}

/// Whether the character is a decimal digit.
pub fn is_digit(c: char) -> bool
    ensures { result ≡ is_digit c }
{
    c.is_ascii_digit()
}

/// Whether a part of an identifier may start with the character.
#[tactic(auto, unfolding(lf_text::specs::Lexemes::starts_part))]
pub fn starts_part(c: char) -> bool
    ensures { result ≡ starts_part c }
{
    (c == '_' || unicode_ident::is_xid_start(c)) && !matches!(c, 'λ' | 'Π' | 'Σ' | '·')
}

/// Whether a part of an identifier may go on with the character.
#[tactic(auto, unfolding(lf_text::specs::Lexemes::continues_part))]
pub fn continues_part(c: char) -> bool
    ensures { result ≡ continues_part c }
{
    (unicode_ident::is_xid_continue(c) || matches!(c, '\'' | '!' | '?' | '₀'..='₉'))
        && !matches!(c, 'λ' | 'Π' | 'Σ' | '·')
}
