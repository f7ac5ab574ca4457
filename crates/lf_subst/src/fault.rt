//! Why a substitution isn't made.
use lf_core::NoMemory;

/// Why a substitution gives no term.
#[derive(Clone, Copy, Debug, PartialEq, Eq)]
pub enum SubstFault {
    /// The term would be deeper than 1,024.
    TooDeep,
    /// It would not, but has more nodes than are left.
    Units,
    NoMemory,
}

impl From<NoMemory> for SubstFault {
    ghost use Rattle.std.specs.Prelude.{◌≡◌};
    ghost use Rattle.lf_subst.specs.declared.fault.SubstFault.TheVariants as fault;

    ghost from_gives = { λ _ e. e ≡ fault.NoMemory };

    fn from(_: NoMemory) -> SubstFault {
        SubstFault::NoMemory
    }
}
