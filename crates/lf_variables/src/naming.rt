//! Whether references name a variable or a level.
ghost use Rattle.std.specs.Prelude.{◌≡◌};
ghost use Rattle.lf_elaboration.specs.Variables.{any, begins_with, is_hole, is_named, names_level, names_variable};

use lf_elaboration::{Reference, Variable};
use lf_name::{Name, same_parts};

/// Whether `name` is this identifier, or has more parts and begins with it.
#[tactic(auto, using(crate::proofs::Lists::first_part))]
fn begins_with(ident: &Name, name: &Name) -> bool
    ensures { result ≡ begins_with ident.now name.now }
{
    same_parts(ident.parts(), &name.parts()[..1])
}

fn names_variable(ident: &Name, reference: &Reference) -> bool
    ensures { result ≡ names_variable ident.now reference.now }
{
    match reference {
        Reference::Term(name) => begins_with(ident, name),
        Reference::Level(_) => false,
    }
}

fn is_any_variable(references: &[Reference], ident: &Name) -> bool
    ensures { result ≡ any (names_variable ident.now) references.now }
{
    for reference in references {
        if names_variable(ident, reference) {
            return true;
        }
    }
    false
}

/// Whether this is `_`, which nothing names.
#[tactic(auto, using(crate::proofs::Lists::and_true, crate::proofs::Lists::and_false))]
fn is_hole(ident: &Name) -> bool
    ensures { result ≡ is_hole ident.now }
{
    match ident.parts() {
        [] => false,
        [only] => only.as_str() == "_",
        [_first, _second, _rest @ ..] => false,
    }
}

/// Whether the references name the variable.
pub(crate) fn is_named(references: &[Reference], variable: &Variable) -> bool
    ensures { result ≡ is_named references.now variable.now }
{
    let ident = &variable.name.name;
    !is_hole(ident) && is_any_variable(references, ident)
}

fn names_level(level: &Name, reference: &Reference) -> bool
    ensures { result ≡ names_level level.now reference.now }
{
    match reference {
        Reference::Term(name) | Reference::Level(name) => same_parts(level.parts(), name.parts()),
    }
}

/// Whether the references name the level, as a level or as a term.
pub(crate) fn is_any_level(references: &[Reference], level: &Name) -> bool
    ensures { result ≡ any (names_level level.now) references.now }
{
    for reference in references {
        if names_level(level, reference) {
            return true;
        }
    }
    false
}
