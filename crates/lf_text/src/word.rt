/// Words, symbols and layout tokens: all that stands for itself but the operators between terms.
#[derive(Clone, Copy, Debug, PartialEq, Eq)]
pub enum Word {
    Axiom,
    Def,
    Theorem,
    Inductive,
    Structure,
    Class,
    Instance,
    Namespace,
    Section,
    End,
    Open,
    Universe,
    Variable,
    /// `#check`
    Check,
    /// `#reduce`
    Reduce,
    /// `#print`
    Print,
    /// A command word that isn't in this profile, `import` and `@[` among them.
    LeftOut,
    /// `fun`, `λ`.
    Fun,
    /// `∀`, `forall`.
    Forall,
    Let,
    By,
    Where,
    PropWord,
    TypeWord,
    SortWord,
    Sorry,
    LeftParen,
    RightParen,
    LeftBrace,
    RightBrace,
    LeftBracket,
    RightBracket,
    Colon,
    /// `:=`
    Assign,
    Comma,
    Semicolon,
    /// `=>`, `↦`.
    FatArrow,
    AtSign,
    /// `.{`
    LevelBrace,
    /// `·`
    Dot,
    Bar,
    /// `¬`
    NotSign,
    /// `←`, `<-`.
    BackArrow,
    /// The lone `_`.
    Underscore,
    /// The beginning of a block, put in by the layout rules.
    LayoutOpen,
    /// What parts two items of a block, put in by the layout rules.
    LayoutSep,
    /// The end of a block, put in by the layout rules.
    LayoutClose,
}

/// Identifiers that mean something in some places.
#[derive(Clone, Copy, Debug, PartialEq, Eq)]
pub enum Spelling {
    /// One part without a meaning of its own.
    Plain,
    /// More than one part.
    Several,
    Exact,
    Intro,
    Apply,
    Rfl,
    Assumption,
    Rw,
    Unfold,
    Have,
    Induction,
    Cases,
    Injection,
    Max,
    Imax,
    Axioms,
}
