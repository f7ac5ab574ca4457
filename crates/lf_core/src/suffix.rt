//! Suffixes of the names of realized constants.
ghost use Rattle.std.specs.Prelude.{◌≡◌, Some, IfSome};
ghost use Rattle.lf_core.specs.Suffix.{spelling, IsNumbered, suffix_of, equation_of, is_numeral, fits_kind};

use crate::constant::ConstKind;

/// How the name of a constant that is made on demand ends.
#[derive(Clone, Copy, Debug, PartialEq, Eq)]
pub enum Suffix {
    /// `eq_1`
    Eq1,
    /// `eq_def`
    EqDef,
    /// `inj`
    Inj,
    /// `injEq`
    InjEq,
    /// `eq_2` to `eq_65`, by the number.
    EqAt(u32),
}

/// Whether the byte is a decimal digit.
fn is_digit(byte: u8) -> bool
    ensures { result ≡ is_numeral byte }
{
    48 <= byte && byte <= 57
}

/// The suffix of an equation from the second on.
#[tactic(auto, unfolding(crate::specs::Suffix::equation_of))]
fn equation(last: &[u8]) -> Option<Suffix>
    ensures { result ≡ equation_of last.now }
{
    match last {
        [b'e', b'q', b'_', unit] => {
            if is_digit(*unit) && 50 <= *unit {
                Some(Suffix::EqAt(*unit as u32 - 48))
            } else {
                None
            }
        }
        [b'e', b'q', b'_', ten, unit] => {
            if is_digit(*ten) && is_digit(*unit) {
                let number = 10 * (*ten as u32 - 48) + (*unit as u32 - 48);
                if 10 <= number && number <= 65 {
                    return Some(Suffix::EqAt(number));
                }
            }
            None
        }
        _ => None,
    }
}

/// The suffix with this text.
#[tactic(auto, unfolding(crate::specs::Suffix::suffix_of))]
fn by_text(last: &str) -> Option<Suffix>
    ensures { result ≡ suffix_of last.now }
{
    match last {
        "eq_1" => Some(Suffix::Eq1),
        "eq_def" => Some(Suffix::EqDef),
        "inj" => Some(Suffix::Inj),
        "injEq" => Some(Suffix::InjEq),
        _ => equation(last.as_bytes()),
    }
}

impl Suffix {
    /// The suffix with this text; `None` exactly where the text is none.
    pub fn of(last: &str) -> Option<Suffix>
        ensures exact { result ≡ suffix_of last.now }
        ensures spelled { IfSome result (λ s. IsNumbered s × (last.now ≡ spelling s)) }
        ensures each { (s : Suffix) → IsNumbered s → last.now ≡ spelling s → result ≡ Some s }
    {
        by_text(last)
    }

    /// Whether a constant of this kind has a child with this suffix: of equations a definition, of the others a
    /// constructor.
    pub fn fits(self, parent: ConstKind) -> bool
        ensures { result ≡ fits_kind self parent }
    {
        match self {
            Suffix::Eq1 | Suffix::EqDef | Suffix::EqAt(_) => parent == ConstKind::Def,
            Suffix::Inj | Suffix::InjEq => parent == ConstKind::Constructor,
        }
    }
}
