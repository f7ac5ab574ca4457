//! Names among names.
ghost use Rattle.std.specs.Prelude.{◌≡◌, map};
ghost use Rattle.lf_rules.specs.Recursor.{is_among as spec};

use lf_core::Name;
use lf_equations::Case;

/// Whether the name is one of these.
pub fn is_among(name: &Name, names: &[Name]) -> bool
    ensures { result ≡ spec name.now names.now }
{
    match names {
        [] => false,
        [m, ms @ ..] => name.is(m) || is_among(name, ms),
    }
}

/// Whether one of the alternatives is of the constructor of this name.
pub fn has_case(name: &Name, cases: &[Case]) -> bool
    ensures { result ≡ spec name.now (map (λ a. a.constructor) cases.now) }
{
    match cases {
        [] => false,
        [a, rest @ ..] => name.is(&a.constructor) || has_case(name, rest),
    }
}
