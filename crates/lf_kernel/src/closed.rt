//! Terms that stand on their own.
ghost use Rattle.std.specs.Prelude.{◌≡◌};
ghost use Rattle.lf_checker.specs.Admission as admission;
ghost use Rattle.lf_checker.specs.Checker as spec;

use lf_core::{CtorInfo, Expr};

/// Whether a term has no metavariable of terms or of levels, no free variable and no loose bound one. It reads what is kept
/// beside the term.
#[tactic(auto, using(crate::proofs::Standing::closed_by, crate::proofs::Standing::loose_open, crate::proofs::Standing::free_open, crate::proofs::Standing::metavariable_open, crate::proofs::Standing::level_metavariable_open))]
pub fn is_closed(term: &Expr) -> bool
    ensures { result ≡ spec.is_closed term.now }
{
    if term.loose_bound() > 0 {
        return false;
    }
    if term.free_bound() > 0 {
        return false;
    }
    if term.has_metavariable() {
        return false;
    }
    if term.has_level_metavariable() {
        return false;
    }
    true
}

/// The same of a value, where there is one.
pub fn is_value_closed(value: &Option<Expr>) -> bool
    ensures { result ≡ spec.is_value_closed value.now }
{
    match value {
        Some(value) => is_closed(value),
        None => true,
    }
}

/// The same of the constructors' types.
pub fn are_closed(ctors: &[CtorInfo]) -> bool
    ensures { result ≡ admission.are_closed ctors.now }
{
    'constructors: for ctor in ctors {
        if !is_closed(&ctor.ty) {
            return false;
        }
    }
    true
}
