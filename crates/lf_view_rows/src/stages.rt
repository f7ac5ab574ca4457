//! Views while the branch of `foo` is open, after it is joined, and after an equation is answered.
ghost use Rattle.std.specs.Prelude.{◌≡◌, IfOk};
ghost use Rattle.lf_view_laws.specs.Worked as worked;

use crate::constants::{foo, foo_aux, foo_equation, header, whole};
use crate::tells::found_line;
use lf_core::NoMemory;
use lf_env::View;
use std::alloc::Global;

/// The branch of `foo`, of the command at 3, is open.
#[tactic(auto, using(lf_view_laws::proofs::Worked::no_two))]
pub fn waiting(alloc: Global) -> Result<View, NoMemory>
    ensures { IfOk result (λ v. v ≡ worked.waiting) }
{
    let mut view = View::new(alloc, Vec::new(alloc))?;
    view.push(header(alloc, foo(alloc)?)?, 3)?;
    view.open_branch(foo(alloc)?, 3)?;
    Ok(view)
}

/// It is joined with `foo.aux` and `foo`.
#[tactic(auto, using(lf_view_laws::proofs::Worked::can_join))]
pub fn joined(alloc: Global) -> Result<View, NoMemory>
    ensures { IfOk result (λ v. v ≡ worked.joined) }
{
    let mut view = waiting(alloc)?;
    let mut infos = Vec::new(alloc);
    infos.push(whole(alloc, foo_aux(alloc)?)?)?;
    infos.push(whole(alloc, foo(alloc)?)?)?;
    view.join_branch(3, infos)?;
    Ok(view)
}

/// `foo.eq_1` has the answer that there is none.
#[tactic(auto, using(lf_view_laws::proofs::Worked::can_answer))]
pub fn settled(alloc: Global) -> Result<View, NoMemory>
    ensures { IfOk result (λ v. v ≡ worked.settled) }
{
    let mut view = joined(alloc)?;
    view.answer(foo_equation(alloc)?, None)?;
    Ok(view)
}

// What the view finds under each name.
fn stage(alloc: Global, title: &str, view: &View) -> Result<String, NoMemory> {
    let mut text = format!(in alloc; "{title}\n")?;
    for name in [
        "foo",
        "foo.aux",
        "foo.eq_1",
        "foo.eq_66",
        "foo.inj",
        "foo.a.b",
        "foo.a.eq_1",
        "bar",
    ] {
        let line = found_line(alloc, view, name)?;
        text.push_str(line.as_str())?;
    }
    Ok(text)
}

pub fn while_open(alloc: Global) -> Result<String, NoMemory> {
    stage(alloc, "branch open, at 5:", &waiting(alloc)?.at(alloc, 5)?)
}

pub fn before_it(alloc: Global) -> Result<String, NoMemory> {
    stage(alloc, "branch open, at 3:", &waiting(alloc)?.at(alloc, 3)?)
}

pub fn when_joined(alloc: Global) -> Result<String, NoMemory> {
    stage(alloc, "branch joined, at 4:", &joined(alloc)?.at(alloc, 4)?)
}

pub fn for_realized(alloc: Global) -> Result<String, NoMemory> {
    let view = joined(alloc)?.real_at(alloc, 3)?;
    stage(alloc, "branch joined, for what is made for 3:", &view)
}

pub fn when_answered(alloc: Global) -> Result<String, NoMemory> {
    stage(
        alloc,
        "equation answered, at 5:",
        &settled(alloc)?.at(alloc, 5)?,
    )
}
