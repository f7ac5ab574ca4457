ghost use Rattle.std.specs.Prelude.{◌≡◌};
ghost use Rattle.lf_text.specs.Operators.{binding, op_level, left_of, right_of};

/// An operator between two terms.
#[derive(Clone, Copy, Debug, PartialEq, Eq)]
pub enum Op {
    /// `↔`, `<->`.
    Iff,
    /// `→`, `->`.
    Arrow,
    /// `∨`, `\/`.
    Or,
    /// `∧`, `/\`.
    And,
    Eq,
    /// `≠`
    Ne,
    Add,
    Sub,
    Mul,
    Div,
    Mod,
}

/// On which side an operator takes its like without brackets.
#[derive(Clone, Copy, Debug, PartialEq, Eq)]
pub enum Side {
    /// `a - b - c` is `(a - b) - c`.
    Left,
    /// `a → b → c` is `a → (b → c)`.
    Right,
    /// On none: `a = b = c` isn't read.
    Neither,
}

/// How an operator binds.
#[derive(Clone, Copy, Debug, PartialEq, Eq)]
pub struct Binding {
    /// The higher, the tighter.
    pub level: u8,
    pub side: Side,
}

impl Op {
    /// How the operator binds.
    pub fn binding(self) -> Binding
        ensures { result ≡ binding self }
    {
        let (level, side) = match self {
            Op::Iff => (20, Side::Neither),
            Op::Arrow => (25, Side::Right),
            Op::Or => (30, Side::Right),
            Op::And => (35, Side::Right),
            Op::Eq | Op::Ne => (50, Side::Neither),
            Op::Add | Op::Sub => (65, Side::Left),
            Op::Mul | Op::Div | Op::Mod => (70, Side::Left),
        };
        Binding { level, side }
    }

    /// Its level.
    pub fn level(self) -> u8
        ensures { result ≡ op_level self }
    {
        self.binding().level
    }

    /// The least level of the term to its left.
    pub fn left(self) -> u8
        ensures { result ≡ left_of self }
    {
        let Binding { level, side } = self.binding();
        match side {
            Side::Left => level,
            Side::Right | Side::Neither => level + 1,
        }
    }

    /// The least level of the term to its right.
    pub fn right(self) -> u8
        ensures { result ≡ right_of self }
    {
        let Binding { level, side } = self.binding();
        match side {
            Side::Right => level,
            Side::Left | Side::Neither => level + 1,
        }
    }
}
