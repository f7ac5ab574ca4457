ghost use Rattle.std.specs.Prelude.{◌≡◌};
ghost use Rattle.lf_print.specs.Mark.{mark_text};

/// A fixed part of a printed text.
#[derive(Clone, Copy)]
pub enum Mark {
    /// `(`
    OpenParen,
    /// `)`
    CloseParen,
    /// `{`
    OpenBrace,
    /// `}`
    CloseBrace,
    /// `[`
    OpenBracket,
    /// `]`
    CloseBracket,
    /// ` `
    Space,
    /// `.`
    Dot,
    /// `?`
    Hole,
    /// ` : `
    Colon,
    /// `, `
    Comma,
    /// ` → `
    Arrow,
    /// `∀ `
    ForAll,
    /// `fun `
    Fun,
    /// ` => `
    Maps,
    /// `let `
    LetIn,
    /// ` := `
    Assign,
    /// `; `
    Then,
    /// `Prop`
    Prop,
    /// `Type`
    TypeZero,
    /// `Type `
    TypeOf,
    /// `Sort `
    SortOf,
    /// ` + `
    Plus,
    /// `max `
    Max,
    /// `imax `
    Imax,
    /// `¬`
    Not,
    /// ` ↔ `
    Iff,
    /// ` ∨ `
    Or,
    /// ` ∧ `
    And,
    /// ` = `
    Eq,
    /// ` ≠ `
    Ne,
    /// ` - `
    Sub,
    /// ` * `
    Mul,
    /// ` / `
    Div,
    /// ` % `
    Mod,
    /// ` ...`
    Cut,
}

impl Mark {
    /// Its text.
    pub fn text(self) -> &'static str
        ensures { result.now ≡ mark_text self }
    {
        match self {
            Mark::OpenParen => "(",
            Mark::CloseParen => ")",
            Mark::OpenBrace => "{",
            Mark::CloseBrace => "}",
            Mark::OpenBracket => "[",
            Mark::CloseBracket => "]",
            Mark::Space => " ",
            Mark::Dot => ".",
            Mark::Hole => "?",
            Mark::Colon => " : ",
            Mark::Comma => ", ",
            Mark::Arrow => " → ",
            Mark::ForAll => "∀ ",
            Mark::Fun => "fun ",
            Mark::Maps => " => ",
            Mark::LetIn => "let ",
            Mark::Assign => " := ",
            Mark::Then => "; ",
            Mark::Prop => "Prop",
            Mark::TypeZero => "Type",
            Mark::TypeOf => "Type ",
            Mark::SortOf => "Sort ",
            Mark::Plus => " + ",
            Mark::Max => "max ",
            Mark::Imax => "imax ",
            Mark::Not => "¬",
            Mark::Iff => " ↔ ",
            Mark::Or => " ∨ ",
            Mark::And => " ∧ ",
            Mark::Eq => " = ",
            Mark::Ne => " ≠ ",
            Mark::Sub => " - ",
            Mark::Mul => " * ",
            Mark::Div => " / ",
            Mark::Mod => " % ",
            Mark::Cut => " ...",
        }
    }
}
