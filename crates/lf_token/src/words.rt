ghost use Rattle.std.specs.Prelude.{◌≡◌, drop};
ghost use Rattle.lf_tables.specs.Rows.{value_of, longest_of};
ghost use Rattle.lf_text.specs.Words.{named, symbols};

use lf_tables::{Table, rows};
use lf_text::{Op, Spelling, TokenKind, Word};

/// What the name is that is written so, if it is a reserved word, or means something in some places.
pub fn named(text: &str) -> Option<TokenKind>
    ensures { result ≡ value_of text.now named }
{
    let rows = rows! {
        "Prop" => TokenKind::Word(Word::PropWord),
        "Sort" => TokenKind::Word(Word::SortWord),
        "Type" => TokenKind::Word(Word::TypeWord),
        "_" => TokenKind::Word(Word::Underscore),
        "abbrev" => TokenKind::Word(Word::LeftOut),
        "apply" => TokenKind::Ident(Spelling::Apply),
        "assumption" => TokenKind::Ident(Spelling::Assumption),
        "attribute" => TokenKind::Word(Word::LeftOut),
        "axiom" => TokenKind::Word(Word::Axiom),
        "axioms" => TokenKind::Ident(Spelling::Axioms),
        "by" => TokenKind::Word(Word::By),
        "cases" => TokenKind::Ident(Spelling::Cases),
        "class" => TokenKind::Word(Word::Class),
        "def" => TokenKind::Word(Word::Def),
        "deriving" => TokenKind::Word(Word::LeftOut),
        "end" => TokenKind::Word(Word::End),
        "exact" => TokenKind::Ident(Spelling::Exact),
        "example" => TokenKind::Word(Word::LeftOut),
        "forall" => TokenKind::Word(Word::Forall),
        "fun" => TokenKind::Word(Word::Fun),
        "have" => TokenKind::Ident(Spelling::Have),
        "imax" => TokenKind::Ident(Spelling::Imax),
        "import" => TokenKind::Word(Word::LeftOut),
        "induction" => TokenKind::Ident(Spelling::Induction),
        "inductive" => TokenKind::Word(Word::Inductive),
        "injection" => TokenKind::Ident(Spelling::Injection),
        "instance" => TokenKind::Word(Word::Instance),
        "intro" => TokenKind::Ident(Spelling::Intro),
        "let" => TokenKind::Word(Word::Let),
        "macro" => TokenKind::Word(Word::LeftOut),
        "max" => TokenKind::Ident(Spelling::Max),
        "mutual" => TokenKind::Word(Word::LeftOut),
        "namespace" => TokenKind::Word(Word::Namespace),
        "noncomputable" => TokenKind::Word(Word::LeftOut),
        "notation" => TokenKind::Word(Word::LeftOut),
        "opaque" => TokenKind::Word(Word::LeftOut),
        "open" => TokenKind::Word(Word::Open),
        "partial" => TokenKind::Word(Word::LeftOut),
        "private" => TokenKind::Word(Word::LeftOut),
        "protected" => TokenKind::Word(Word::LeftOut),
        "rfl" => TokenKind::Ident(Spelling::Rfl),
        "rw" => TokenKind::Ident(Spelling::Rw),
        "section" => TokenKind::Word(Word::Section),
        "set_option" => TokenKind::Word(Word::LeftOut),
        "sorry" => TokenKind::Word(Word::Sorry),
        "structure" => TokenKind::Word(Word::Structure),
        "syntax" => TokenKind::Word(Word::LeftOut),
        "theorem" => TokenKind::Word(Word::Theorem),
        "unfold" => TokenKind::Ident(Spelling::Unfold),
        "universe" => TokenKind::Word(Word::Universe),
        "unsafe" => TokenKind::Word(Word::LeftOut),
        "variable" => TokenKind::Word(Word::Variable),
        "where" => TokenKind::Word(Word::Where),
    };
    Table::new(&rows).find(text)
}

/// The longest symbol that stands there: how many bytes it has, and what it is.
pub fn symbol_at(text: &str, at: usize) -> Option<(usize, TokenKind)>
    ensures { result ≡ longest_of symbols (drop at text.now) }
{
    let rows = rows! {
        "#check" => TokenKind::Word(Word::Check),
        "#eval" => TokenKind::Word(Word::LeftOut),
        "#print" => TokenKind::Word(Word::Print),
        "#reduce" => TokenKind::Word(Word::Reduce),
        "%" => TokenKind::Operator(Op::Mod),
        "(" => TokenKind::Word(Word::LeftParen),
        ")" => TokenKind::Word(Word::RightParen),
        "*" => TokenKind::Operator(Op::Mul),
        "+" => TokenKind::Operator(Op::Add),
        "," => TokenKind::Word(Word::Comma),
        "-" => TokenKind::Operator(Op::Sub),
        "->" => TokenKind::Operator(Op::Arrow),
        ".{" => TokenKind::Word(Word::LevelBrace),
        "/" => TokenKind::Operator(Op::Div),
        "/\\" => TokenKind::Operator(Op::And),
        ":" => TokenKind::Word(Word::Colon),
        ":=" => TokenKind::Word(Word::Assign),
        ";" => TokenKind::Word(Word::Semicolon),
        "<-" => TokenKind::Word(Word::BackArrow),
        "<->" => TokenKind::Operator(Op::Iff),
        "=" => TokenKind::Operator(Op::Eq),
        "=>" => TokenKind::Word(Word::FatArrow),
        "@" => TokenKind::Word(Word::AtSign),
        "@[" => TokenKind::Word(Word::LeftOut),
        "[" => TokenKind::Word(Word::LeftBracket),
        "\\/" => TokenKind::Operator(Op::Or),
        "]" => TokenKind::Word(Word::RightBracket),
        "{" => TokenKind::Word(Word::LeftBrace),
        "|" => TokenKind::Word(Word::Bar),
        "}" => TokenKind::Word(Word::RightBrace),
        "¬" => TokenKind::Word(Word::NotSign),
        "·" => TokenKind::Word(Word::Dot),
        "λ" => TokenKind::Word(Word::Fun),
        "←" => TokenKind::Word(Word::BackArrow),
        "→" => TokenKind::Operator(Op::Arrow),
        "↔" => TokenKind::Operator(Op::Iff),
        "↦" => TokenKind::Word(Word::FatArrow),
        "∀" => TokenKind::Word(Word::Forall),
        "∧" => TokenKind::Operator(Op::And),
        "∨" => TokenKind::Operator(Op::Or),
        "≠" => TokenKind::Operator(Op::Ne),
    };
    Table::new(&rows).longest(text, at)
}
