//! Constants that are made when they are asked for.
ghost use Rattle.std.specs.Prelude.{◌≡◌, ◌≤◌, option_map};
ghost use Rattle.lf_checker.specs.Calls as checker;
ghost use Rattle.lf_checker.specs.Checker.{calls};
ghost use Rattle.lf_checker.specs.Extends.{shape_of};
ghost use Rattle.lf_checker.specs.View.{lookup_of, found, last_of};
ghost use Rattle.lf_core.specs.Suffix.{suffix_of};
ghost use Rattle.lf_elaboration.specs.Realizers as spec;
ghost use Rattle.lf_realizers.specs.Values.{HasParent, Realizes, StopsOnly, Told};
ghost use Rattle.lf_steps.specs.Runs.{Runs, RunsAs, Rose};
ghost use Rattle.lf_telescope.specs.Values.{statement};

use crate::accepting::accepted;
use crate::child::{Child, child_of};
use crate::stating::statement_by;
use lf_base::Stop;
use lf_check::{CheckCx, Cx};
use lf_core::{ConstInfo, Name, TaskKey};
use lf_steps::{Halt, Seen, need, see};
use lf_telescope::Statement;
use std::alloc::Global;

/// What comes of a realizable name.
#[derive(Debug, Drop)]
pub enum Realized {
    Makes(ConstInfo),
    /// No constant of this name is made.
    MakesNone,
    /// This has to be done first.
    Waits(TaskKey),
    Stopped,
    NoMemory,
}

// The statement that the suffix asks for of the constant, which the view finds.
fn stated<P: Stop>(
    alloc: Global,
    cx: &mut CheckCx<'_, P>,
    child: &Child,
    info: &ConstInfo,
) -> Result<Option<Statement>, Halt>
    requires { lookup_of cx.old.view.now child.now.parent ≡ found info.now }
    ensures value { RunsAs (option_map statement)
        (spec.statement_by cx.old.view.now (calls cx.old.view.now cx.old.budget.depth) child.now.parent (shape_of info.now) child.now.suffix
        cx.old.budget.units) result cx.new.budget.units }
    ensures view { cx.new.view.now ≡ cx.old.view.now }
    ensures kept { cx.new.locals.items ≡ cx.old.locals.items }
    ensures nesting { cx.new.budget.depth ≡ cx.old.budget.depth }
    ensures count { P.stops cx.old.stop.now ≤ P.stops cx.new.stop.now }
    ensures rose { Rose result (P.stops cx.old.stop.now) (P.stops cx.new.stop.now) }
{
    let inner = Cx {
        alloc,
        view: cx.view,
        depth: cx.budget.depth,
    };
    let mut left = cx.budget.units;
    let suffix = child.suffix;
    let given = statement_by(inner, &mut left, cx.stop, &child.parent, info, suffix);
    cx.budget.units = left;
    given
}

// The constant of this name, whose parent the view finds.
#[tactic(auto, using(lf_steps::proofs::Runs::halts))]
fn from_parent<P: Stop>(
    alloc: Global,
    cx: &mut CheckCx<'_, P>,
    name: &Name,
    child: &Child,
    info: &ConstInfo,
) -> Result<Option<ConstInfo>, Halt>
    requires { lookup_of cx.old.view.now child.now.parent ≡ found info.now }
    ensures value { Runs (spec.realize_from cx.old.view.now cx.old.budget.depth name.now child.now.parent child.now.suffix
        (checker.known (shape_of info.now)) cx.old.budget.units) result cx.new.budget.units }
    ensures view { cx.new.view.now ≡ cx.old.view.now }
    ensures kept { cx.new.locals.items ≡ cx.old.locals.items }
    ensures nesting { cx.new.budget.depth ≡ cx.old.budget.depth }
    ensures count { P.stops cx.old.stop.now ≤ P.stops cx.new.stop.now }
    ensures rose { Rose result (P.stops cx.old.stop.now) (P.stops cx.new.stop.now) }
{
    match stated(alloc, cx, child, info)? {
        None => Ok(None),
        Some(statement) => {
            let made = accepted(alloc, cx, name, info.levels.as_slice(), statement)?;
            Ok(Some(made))
        }
    }
}

// The constant of this name, which is a child so.
#[tactic(auto, using(lf_steps::proofs::Runs::halts))]
fn from_child<P: Stop>(
    alloc: Global,
    cx: &mut CheckCx<'_, P>,
    name: &Name,
    child: &Child,
) -> Result<Option<ConstInfo>, Halt>
    ensures value { Runs (spec.realize_from cx.old.view.now cx.old.budget.depth name.now child.now.parent child.now.suffix
        (checker.see cx.old.view.now child.now.parent) cx.old.budget.units) result cx.new.budget.units }
    ensures view { cx.new.view.now ≡ cx.old.view.now }
    ensures kept { cx.new.locals.items ≡ cx.old.locals.items }
    ensures nesting { cx.new.budget.depth ≡ cx.old.budget.depth }
    ensures count { P.stops cx.old.stop.now ≤ P.stops cx.new.stop.now }
    ensures rose { Rose result (P.stops cx.old.stop.now) (P.stops cx.new.stop.now) }
{
    match see(alloc, cx.view, &child.parent)? {
        Seen::Known(info) => from_parent(alloc, cx, name, child, info),
        Seen::Unknown => Ok(None),
        Seen::Missing(key) => Err(need(&mut cx.budget.units, key)),
    }
}

// The constant of this name.
#[tactic(auto, using(crate::proofs::Children::no_child))]
fn within<P: Stop>(
    alloc: Global,
    cx: &mut CheckCx<'_, P>,
    name: &Name,
) -> Result<Option<ConstInfo>, Halt>
    ensures value { HasParent cx.old.view.now name.now
        → Runs (spec.realize_by cx.old.view.now cx.old.budget.depth name.now (suffix_of (last_of name.now)) cx.old.budget.units) result
        cx.new.budget.units }
    ensures view { cx.new.view.now ≡ cx.old.view.now }
    ensures kept { cx.new.locals.items ≡ cx.old.locals.items }
    ensures nesting { cx.new.budget.depth ≡ cx.old.budget.depth }
    ensures count { P.stops cx.old.stop.now ≤ P.stops cx.new.stop.now }
    ensures rose { Rose result (P.stops cx.old.stop.now) (P.stops cx.new.stop.now) }
{
    match child_of(alloc, name)? {
        None => Ok(None),
        Some(child) => {
            let made = from_child(alloc, cx, name, &child);
            drop(child);
            made
        }
    }
}

// What is told of the end of a run.
fn told(given: Result<Option<ConstInfo>, Halt>) -> Realized
    ensures { Told given result }
{
    match given {
        Ok(Some(info)) => Realized::Makes(info),
        Ok(None) => Realized::MakesNone,
        Err(Halt::Refused(refused)) => {
            drop(refused);
            Realized::MakesNone
        }
        Err(Halt::Out) => Realized::MakesNone,
        Err(Halt::Need(key)) => Realized::Waits(key),
        Err(Halt::Stopped) => Realized::Stopped,
        Err(Halt::NoMemory) => Realized::NoMemory,
    }
}

/// The constant of a realizable name, made over this view within this budget: its statement by its parent and its suffix,
/// with a proof that the kernel accepts. The context's variables aren't read.
/// MakesNone where the parent has no such statement, where the kernel refuses it, or where the budget doesn't suffice;
/// Waits with the first task that has to be done first; Stopped only where the count of stops rose; or NoMemory.
/// docs/language.md, Realized constants.
#[tactic(auto, using(crate::proofs::Returns::told_realizes, crate::proofs::Returns::told_stops))]
pub fn realize<P: Stop>(alloc: Global, cx: &mut CheckCx<'_, P>, name: &Name) -> Realized
    ensures value { HasParent cx.old.view.now name.now
        → Realizes (spec.realize cx.old.view.now cx.old.budget.units cx.old.budget.depth name.now) result }
    ensures view { cx.new.view.now ≡ cx.old.view.now }
    ensures kept { cx.new.locals.items ≡ cx.old.locals.items }
    ensures nesting { cx.new.budget.depth ≡ cx.old.budget.depth }
    ensures count { P.stops cx.old.stop.now ≤ P.stops cx.new.stop.now }
    ensures stops { StopsOnly result (P.stops cx.old.stop.now) (P.stops cx.new.stop.now) }
{
    told(within(alloc, cx, name))
}
