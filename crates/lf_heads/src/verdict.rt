//! What the name of a new constant is told.
ghost use Rattle.std.specs.Prelude.{◌≡◌, IfOk};
ghost use Rattle.lf_branch.specs.Branch as branches;
ghost use Rattle.lf_checker.specs.Calls.{see};
ghost use Rattle.lf_checker.specs.View as views;
ghost use Rattle.lf_document.specs.Naming as spec;
ghost use Rattle.lf_heads.specs.Verdicts as values;

use lf_branch::Branch;
use lf_core::{Name, NoMemory, Suffix, TaskKey, Word, copy_all, same_parts};
use lf_env::{BASE, Lookup, View};
use lf_steps::{Seen, see};
use std::alloc::Global;

/// What the name of a new constant is told.
#[derive(Debug, Drop)]
pub enum Verdict {
    /// It isn't the branch's name with one more part.
    NotOwned,
    /// A constant of this name is made when it is asked for.
    Reserved,
    /// It is there already, of the command at this position; 4294967295 is that of the base.
    Duplicate(u32),
    /// Whether it is there is known only when this task is done.
    Waits(TaskKey),
    Free,
}

// Whether a name is there, as the test of a duplicate asks.
#[derive(Debug, Drop)]
enum There {
    At(u32),
    Nowhere,
    NotKnown(TaskKey),
}

#[tactic(auto, using(crate::proofs::Theres::placed_there, crate::proofs::Theres::unplaced_there))]
fn place_of(view: &View, name: &Name) -> There
    ensures { values.there result ≡ views.there_of view.now name.now }
{
    if let Some((position, _)) = view.placed(name) {
        return There::At(position);
    }
    match view.lookup(name) {
        Lookup::NeedBody(position) => There::NotKnown(TaskKey::Body(position)),
        Lookup::Found(_) => There::Nowhere,
        Lookup::Absent => There::Nowhere,
        Lookup::NeedReal => There::Nowhere,
    }
}

fn by_there(there: There) -> Verdict
    ensures { values.verdict result ≡ branches.by_there (values.there there) }
{
    match there {
        There::At(position) => Verdict::Duplicate(position),
        There::Nowhere => Verdict::Free,
        There::NotKnown(key) => Verdict::Waits(key),
    }
}

fn stands_before(limit: u32, position: u32) -> bool
    ensures { result ≡ views.stands_before limit position }
{
    position == BASE || position < limit
}

// By a parent that is an entry of this position.
fn by_entry(
    alloc: Global,
    view: &View,
    suffix: Suffix,
    parent: &Name,
    position: u32,
    otherwise: Verdict,
) -> Result<Verdict, NoMemory>
    ensures { IfOk result (λ v. values.verdict v
        ≡ spec.by_parent view.now suffix (views.there position) (see view.now parent.now) (values.verdict otherwise)) }
{
    match see(alloc, view, parent)? {
        Seen::Known(info) => {
            if suffix.fits(info.kind) && stands_before(view.position(), position) {
                drop(otherwise);
                Ok(Verdict::Reserved)
            } else {
                Ok(otherwise)
            }
        }
        Seen::Unknown => Ok(otherwise),
        Seen::Missing(key) => {
            drop(otherwise);
            Ok(Verdict::Waits(key))
        }
    }
}

// By the parent, as realizable names are looked up.
fn by_parent(
    alloc: Global,
    view: &View,
    suffix: Suffix,
    parent: &Name,
    otherwise: Verdict,
) -> Result<Verdict, NoMemory>
    ensures { IfOk result (λ v. values.verdict v
        ≡ spec.by_parent view.now suffix (views.there_of view.now parent.now) (see view.now parent.now) (values.verdict otherwise)) }
{
    match place_of(view, parent) {
        There::At(position) => by_entry(alloc, view, suffix, parent, position, otherwise),
        There::Nowhere => Ok(otherwise),
        There::NotKnown(key) => {
            drop(otherwise);
            Ok(Verdict::Waits(key))
        }
    }
}

// By the parent with these parts; a name of one part has none.
#[tactic(auto, using(crate::proofs::Theres::no_parent))]
fn under(
    alloc: Global,
    view: &View,
    front: &[Word],
    suffix: Suffix,
    otherwise: Verdict,
) -> Result<Verdict, NoMemory>
    ensures { IfOk result (λ v. values.verdict v
        ≡ spec.by_parent view.now suffix (views.there_of view.now front.now) (see view.now front.now) (values.verdict otherwise)) }
{
    view.names_have_parts();
    if front.is_empty() {
        return Ok(otherwise);
    }
    let parent = Name::new(alloc, copy_all(alloc, front)?)?;
    let told = by_parent(alloc, view, suffix, &parent, otherwise);
    drop(parent);
    told
}

/// What a declared name is told in this view: that it is reserved, where its parent may have a realized constant of its last part; that
/// it is there already; or which task says so. `NoMemory` is the one fault.
#[tactic(auto, using(crate::proofs::Theres::front_is, crate::proofs::Theres::last_is))]
pub fn verdict_of(alloc: Global, view: &View, name: &Name) -> Result<Verdict, NoMemory>
    ensures { IfOk result (λ v. values.verdict v ≡ spec.verdict view.now name.now) }
{
    let otherwise = by_there(place_of(view, name));
    match name.parts() {
        [] => Ok(otherwise),
        [front @ .., last] => match Suffix::of(last.as_str()) {
            None => Ok(otherwise),
            Some(suffix) => under(alloc, view, front, suffix, otherwise),
        },
    }
}

/// What the name of a helper is told in the branch of this name: it is the branch's name with one more part, no suffix of realizable names,
/// and no entry.
#[tactic(auto, using(crate::proofs::Theres::front_is, crate::proofs::Theres::last_is, lf_branch::proofs::Places::verdict_at))]
pub fn verdict_in(branch: &Branch, prefix: &Name, name: &Name) -> Verdict
    requires { prefix.now ≡ branch.now.prefix }
    ensures { values.verdict result ≡ branches.verdict branch.now name.now }
{
    match name.parts() {
        [] => Verdict::NotOwned,
        [front @ .., last] => {
            if !same_parts(prefix.parts(), front) {
                return Verdict::NotOwned;
            }
            match Suffix::of(last.as_str()) {
                Some(_) => Verdict::Reserved,
                None => by_there(place_of(branch.view(), name)),
            }
        }
    }
}
