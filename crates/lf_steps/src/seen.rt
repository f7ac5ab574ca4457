//! Constants as the checker sees them.
ghost use Rattle.std.specs.Prelude.{◌≡◌, IfOk};
ghost use Rattle.lf_checker.specs.Calls as calls;
ghost use Rattle.lf_checker.specs.View as spec;
ghost use Rattle.lf_checker.specs.View.{lookup_of, body_of};
ghost use Rattle.lf_steps.specs.Steps.{with_height as tall};
ghost use Rattle.lf_steps.specs.Values.{seen, IfFound, body};

use lf_core::{ConstInfo, Expr, Name, NoMemory, TaskKey};
use lf_env::{BodyOf, Lookup, View};
use std::alloc::Global;

/// What a view tells of a name: the constant, that there is none, or the task that has to be done first.
#[derive(Drop)]
pub enum Seen<'a> {
    Known(&'a ConstInfo),
    Unknown,
    Missing(TaskKey),
}

/// What a constant unfolds to: a definition's value with its height, nothing, or the task that has to be done first.
#[derive(Drop)]
pub enum Body<'a> {
    Value(&'a Expr, u32),
    Opaque,
    Unresolved(TaskKey),
}

/// The constant of this name. One search by hash.
pub fn see<'a>(alloc: Global, view: &'a View, name: &Name) -> Result<Seen<'a>, NoMemory>
    ensures seen { IfOk result (λ s. seen s ≡ calls.see view.now name.now) }
    ensures found { IfOk result (IfFound (lookup_of view.now name.now)) }
{
    match view.lookup(name) {
        Lookup::Found(info) => Ok(Seen::Known(info)),
        Lookup::Absent => Ok(Seen::Unknown),
        Lookup::NeedBody(position) => Ok(Seen::Missing(TaskKey::Body(position))),
        Lookup::NeedReal => Ok(Seen::Missing(TaskKey::Real(name.copy(alloc)?))),
    }
}

fn with_height(shown: BodyOf<'_>, height: u32) -> Body<'_>
    ensures { body result ≡ tall shown.entry height }
{
    match shown {
        BodyOf::Value(value) => Body::Value(value, height),
        BodyOf::Opaque => Body::Opaque,
        BodyOf::NeedBody(position) => Body::Unresolved(TaskKey::Body(position)),
    }
}

/// What a constant of the view unfolds to.
#[tactic(auto, using(crate::proofs::Bodies::shown))]
pub fn known_body<'a>(view: &'a View, name: &Name, info: &ConstInfo) -> Body<'a>
    requires { lookup_of view.now name.now ≡ spec.found info.now }
    ensures { body result ≡ body_of view.now name.now }
{
    with_height(view.body(name), info.height)
}
