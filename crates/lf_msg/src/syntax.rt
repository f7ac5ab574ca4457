//! What breaks the grammar.
use std::fmt;

/// Why a command doesn't derive from the grammar, at its first bad token. The texts are those of docs/messages.md, "Syntax".
#[derive(Clone, Copy, Debug)]
pub enum SyntaxError {
    /// A token that can't stand there.
    UnexpectedToken,
    /// The tokens begin a command and end before it does.
    UnexpectedEnd,
    /// A character that begins no token.
    BadCharacter,
    /// A comment that isn't closed.
    UnclosedComment,
    /// A numeral that runs into an identifier.
    BadNumeral,
    /// A numeral of more than 128 bits.
    WideNumeral,
    /// A nesting number above 256.
    NestedTooDeeply,
}

impl fmt::Display for SyntaxError {
    ghost use Rattle.std.specs.Prelude.{Some};
    ghost use Rattle.lf_msg.specs.Texts.{syntax_text};

    ghost output = { λ e. Some (syntax_text e) };

    fn fmt<W: fmt::Write>(&self, f: &mut fmt::Formatter<W>) -> fmt::Result {
        f.write_str(match self {
            Self::UnexpectedToken => "unexpected token",
            Self::UnexpectedEnd => "unexpected end of command",
            Self::BadCharacter => "bad character",
            Self::UnclosedComment => "unclosed comment",
            Self::BadNumeral => "bad numeral",
            Self::WideNumeral => "numeral of more than 128 bits",
            Self::NestedTooDeeply => "nested too deeply",
        })
    }
}
