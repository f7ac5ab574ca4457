ghost use Rattle.std.specs.Prelude.{◌≡◌};
ghost use Rattle.lf_text.specs.Roles.{word_role, role_of};

use crate::token::TokenKind;
use crate::word::Word;

/// What a token is to the rules of layout and of nesting.
#[derive(Clone, Copy, Debug, PartialEq, Eq)]
pub enum Role {
    /// It begins a command.
    Command,
    /// A block opens behind it: `by`, `·`.
    BlockOpener,
    /// `where`.
    Where,
    /// `|`.
    Bar,
    /// A bracket that opens.
    Opening,
    /// A bracket that closes.
    Closing,
    /// `let`, which waits for a `;`.
    Let,
    /// `;`.
    Semicolon,
    /// What nests without a bracket: `fun`, `∀`, `@`, `¬` and the operators between terms.
    Nesting,
    /// The beginning of a block.
    BlockOpen,
    /// What parts two items of a block.
    BlockSep,
    /// The end of a block.
    BlockClose,
    /// Nothing of these.
    Other,
}

impl Word {
    /// What the word is to the rules.
    pub fn role(self) -> Role
        ensures { result ≡ word_role self }
    {
        match self {
            Word::Axiom | Word::Def | Word::Theorem | Word::Inductive => Role::Command,
            Word::Structure | Word::Class | Word::Instance => Role::Command,
            Word::Namespace | Word::Section | Word::End | Word::Open => Role::Command,
            Word::Universe | Word::Variable | Word::LeftOut => Role::Command,
            Word::Check | Word::Reduce | Word::Print => Role::Command,
            Word::Fun | Word::Forall | Word::AtSign | Word::NotSign => Role::Nesting,
            Word::Let => Role::Let,
            Word::By | Word::Dot => Role::BlockOpener,
            Word::Where => Role::Where,
            Word::Bar => Role::Bar,
            Word::LeftParen | Word::LeftBrace | Word::LeftBracket => Role::Opening,
            Word::LevelBrace => Role::Opening,
            Word::RightParen | Word::RightBrace | Word::RightBracket => Role::Closing,
            Word::Semicolon => Role::Semicolon,
            Word::LayoutOpen => Role::BlockOpen,
            Word::LayoutSep => Role::BlockSep,
            Word::LayoutClose => Role::BlockClose,
            Word::PropWord | Word::TypeWord | Word::SortWord | Word::Sorry => Role::Other,
            Word::Colon | Word::Assign | Word::Comma | Word::FatArrow => Role::Other,
            Word::BackArrow | Word::Underscore => Role::Other,
        }
    }
}

impl TokenKind {
    /// What a token of this kind is to the rules.
    pub fn role(self) -> Role
        ensures { result ≡ role_of self }
    {
        match self {
            TokenKind::Word(word) => word.role(),
            TokenKind::Operator(_) => Role::Nesting,
            TokenKind::Ident(_) | TokenKind::Num(_) => Role::Other,
            TokenKind::BadChar | TokenKind::OpenComment => Role::Other,
            TokenKind::BadNum | TokenKind::WideNum => Role::Other,
        }
    }
}
