use lf_core::{Expr, Name, NoMemory};

/// Why a term has no type.
#[derive(Debug, Drop)]
pub enum TypeFault {
    /// No constant has this name.
    Unknown(Name),
    /// The constant of this name has another number of levels.
    Levels(Name),
    /// A type was wanted, and what stands there has this type, which is no sort.
    NotType(Expr),
    /// A loose bound variable, a metavariable, or a variable that isn't in the context.
    NotClosed,
    /// The form of this term isn't built yet: an application, a lambda, a `let` or a literal.
    NotBuilt,
}

/// Why the inside of a call ended without a type.
#[derive(Debug, Drop)]
pub enum Halt {
    Refused(TypeFault),
    Out,
    NoMemory,
}

impl From<NoMemory> for Halt {
    ghost use Rattle.std.specs.Prelude.{◌≡◌};
    ghost use Rattle.lf_front.specs.declared.fault.Halt.TheVariants as halt;

    ghost from_gives = { λ _ e. e ≡ halt.NoMemory };

    fn from(_: NoMemory) -> Halt {
        Halt::NoMemory
    }
}
