//! Weak head forms.
ghost use Rattle.std.specs.Prelude.{◌≡◌, ◌≤◌, true, false, option_map};
ghost use Rattle.std.specs.Option.{option_copied};
ghost use Rattle.lf_core.specs.Spine as spine;
ghost use Rattle.lf_checker.specs.Calls.{checked, unchecked, see as spec_see};
ghost use Rattle.lf_checker.specs.Checker.{calls};
ghost use Rattle.lf_checker.specs.Whnf as whnf;
ghost use Rattle.lf_checker.specs.Equal as equal;
ghost use Rattle.lf_checker.specs.Infer as infer;
ghost use Rattle.lf_steps.specs.Runs.{Runs, RunsAs, Rose};
ghost use Rattle.lf_steps.specs.Values as values;
ghost use Rattle.lf_check.specs.Bodies as bodies;
ghost use Rattle.lf_check.specs.Tower as tower;
ghost use Rattle.lf_check.specs.Values as own;
ghost use Rattle.lf_checker.specs.Extends.{shape_of};

use crate::compare::equal;
use crate::cx::Cx;
use crate::judge::infer;
use crate::mode::Mode;
use crate::step::{Step, head_step};
use crate::turn::{constructor_at, on_numbers, projected};
use lf_base::Stop;
use lf_core::{ConstInfo, Expr, Level, Name};
use lf_steps::{
    Halt, Progress, Recursor, Seen, Split, attempt, constructor_of, enter, fieldless, fire, need,
    out, see, split_spine,
};

/// The weak head form. With `delta` definitions at the head are unfolded.
#[cycle(check)]
#[tactic(auto, using(crate::proofs::Towers::whnf_start))]
pub fn whnf<P: Stop>(
    cx: Cx<'_>,
    locals: &mut Vec<Expr>,
    units: &mut u64,
    stop: &mut P,
    delta: bool,
    term: &Expr,
) -> Result<Expr, Halt>
    ensures value { Runs ((calls cx.entry.view.now cx.entry.depth).whnf delta locals.old.items term.now units.old) result units.new }
    ensures kept { locals.new.items ≡ locals.old.items }
    ensures count { P.stops stop.old ≤ P.stops stop.new }
    ensures rose { Rose result (P.stops stop.old) (P.stops stop.new) }
{
    enter(cx.depth, units, stop)?;
    let inner = cx.below();
    whnf_loop(inner, locals, units, stop, delta, term)
}

// Turns until no rule applies.
#[cycle(check)]
#[tactic(auto, using(crate::proofs::Loops::whnf_stays, crate::proofs::Loops::whnf_ends, crate::proofs::Loops::whnf_next, crate::proofs::Loops::whnf_halts, crate::proofs::Loops::whnf_none), unfolding(crate::specs::Tower::whnf_body, lf_checker::specs::Whnf::turn_limit))]
pub fn whnf_loop<P: Stop>(
    cx: Cx<'_>,
    locals: &mut Vec<Expr>,
    units: &mut u64,
    stop: &mut P,
    delta: bool,
    term: &Expr,
) -> Result<Expr, Halt>
    ensures value { Runs (tower.whnf_body cx.entry.view.now (calls cx.entry.view.now cx.entry.depth) delta locals.old.items term.now units.old) result
        units.new }
    ensures kept { locals.new.items ≡ locals.old.items }
    ensures count { P.stops stop.old ≤ P.stops stop.new }
    ensures rose { Rose result (P.stops stop.old) (P.stops stop.new) }
{
    let mut current = term.copy(cx.alloc)?;
    let mut left = u64::MAX;
    'turns: while left > 0 {
        match whnf_turn(cx, locals, units, stop, delta, &current)? {
            Progress::Stays => return Ok(current),
            Progress::Ends(last) => {
                drop(current);
                return Ok(last);
            }
            Progress::Next(next) => {
                drop(current);
                current = next;
            }
        }
        left -= 1;
    }
    drop(current);
    Err(out(units))
}

// The first rule that applies at the head.
#[cycle(check)]
#[tactic(auto, using(lf_steps::proofs::Runs::halts), unfolding(crate::specs::Tower::whnf_turn))]
pub fn whnf_turn<P: Stop>(
    cx: Cx<'_>,
    locals: &mut Vec<Expr>,
    units: &mut u64,
    stop: &mut P,
    delta: bool,
    term: &Expr,
) -> Result<Progress, Halt>
    ensures value { RunsAs values.progress (tower.whnf_turn cx.entry.view.now (calls cx.entry.view.now cx.entry.depth) delta locals.old.items term.now
        units.old) result units.new }
    ensures kept { locals.new.items ≡ locals.old.items }
    ensures count { P.stops stop.old ≤ P.stops stop.new }
    ensures rose { Rose result (P.stops stop.old) (P.stops stop.new) }
{
    match head_step(cx.alloc, cx.view, units, delta, term)? {
        Step::Ready(turned) => Ok(turned),
        Step::Recurse(levels, recursor, at, arguments) => {
            match split_spine(at, arguments.as_slice()) {
                Some(split) => recursor_turn(cx, locals, units, stop, levels, recursor, split),
                None => Ok(Progress::Stays),
            }
        }
        Step::Operate(name, x, y) => operands(cx, locals, units, stop, delta, name, x, y),
        Step::Project(structure, place, inner, arguments) => {
            projection(
                cx,
                locals,
                units,
                stop,
                structure,
                place,
                inner,
                arguments.as_slice(),
            )
        }
    }
}

// A field of a structure's constructor, which the term comes to be.
#[cycle(check)]
#[tactic(auto, using(lf_steps::proofs::Runs::halts), unfolding(crate::specs::Tower::projection))]
pub fn projection<P: Stop>(
    cx: Cx<'_>,
    locals: &mut Vec<Expr>,
    units: &mut u64,
    stop: &mut P,
    structure: &Name,
    place: u32,
    inner: &Expr,
    arguments: &[Expr],
) -> Result<Progress, Halt>
    ensures value { RunsAs values.progress (tower.projection cx.entry.view.now (calls cx.entry.view.now cx.entry.depth) locals.old.items structure.now place
        inner.now arguments.now units.old) result units.new }
    ensures kept { locals.new.items ≡ locals.old.items }
    ensures count { P.stops stop.old ≤ P.stops stop.new }
    ensures rose { Rose result (P.stops stop.old) (P.stops stop.new) }
{
    let form = whnf(cx, locals, units, stop, true, inner)?;
    let turned = projected(cx.alloc, cx.view, units, structure, place, &form, arguments);
    drop(form);
    turned
}

// An operation on two numbers, which the arguments come to be.
#[cycle(check)]
#[tactic(auto, using(lf_steps::proofs::Runs::halts), unfolding(crate::specs::Tower::operands))]
pub fn operands<P: Stop>(
    cx: Cx<'_>,
    locals: &mut Vec<Expr>,
    units: &mut u64,
    stop: &mut P,
    delta: bool,
    name: &Name,
    x: Expr,
    y: Expr,
) -> Result<Progress, Halt>
    ensures value { RunsAs values.progress (tower.operands cx.entry.view.now (calls cx.entry.view.now cx.entry.depth) delta locals.old.items name.now x y
        units.old) result units.new }
    ensures kept { locals.new.items ≡ locals.old.items }
    ensures count { P.stops stop.old ≤ P.stops stop.new }
    ensures rose { Rose result (P.stops stop.old) (P.stops stop.new) }
{
    let a = whnf(cx, locals, units, stop, true, &x)?;
    let b = whnf(cx, locals, units, stop, true, &y)?;
    let turned = on_numbers(cx.alloc, cx.view, units, delta, name, &a, &b, x, y);
    drop(a);
    drop(b);
    turned
}

// A recursor before its major premise.
#[cycle(check)]
#[tactic(auto, using(lf_steps::proofs::Runs::halts))]
pub fn recursor_turn<P: Stop>(
    cx: Cx<'_>,
    locals: &mut Vec<Expr>,
    units: &mut u64,
    stop: &mut P,
    levels: &[Level],
    recursor: Recursor<'_>,
    split: Split<'_>,
) -> Result<Progress, Halt>
    ensures value { RunsAs values.progress (tower.at_seen cx.entry.view.now (calls cx.entry.view.now cx.entry.depth) locals.old.items levels.now
        (values.recursor recursor.entry) (values.split split.entry) (spec_see cx.entry.view.now recursor.entry.ind.now) units.old) result units.new }
    ensures kept { locals.new.items ≡ locals.old.items }
    ensures count { P.stops stop.old ≤ P.stops stop.new }
    ensures rose { Rose result (P.stops stop.old) (P.stops stop.new) }
{
    match see(cx.alloc, cx.view, recursor.ind)? {
        Seen::Known(info) => at_type(cx, locals, units, stop, levels, recursor, split, info),
        Seen::Unknown => Ok(Progress::Stays),
        Seen::Missing(key) => Err(need(units, key)),
    }
}

// The rule of the constructor that the major premise comes to be; else of one that may take its place.
#[cycle(check)]
#[tactic(auto, using(lf_steps::proofs::Runs::halts), unfolding(crate::specs::Tower::at_type))]
pub fn at_type<P: Stop>(
    cx: Cx<'_>,
    locals: &mut Vec<Expr>,
    units: &mut u64,
    stop: &mut P,
    levels: &[Level],
    recursor: Recursor<'_>,
    split: Split<'_>,
    info: &ConstInfo,
) -> Result<Progress, Halt>
    ensures value { RunsAs values.progress (tower.at_type cx.entry.view.now (calls cx.entry.view.now cx.entry.depth) locals.old.items levels.now
        (values.recursor recursor.entry) (values.split split.entry) (shape_of info.now) units.old) result units.new }
    ensures kept { locals.new.items ≡ locals.old.items }
    ensures count { P.stops stop.old ≤ P.stops stop.new }
    ensures rose { Rose result (P.stops stop.old) (P.stops stop.new) }
{
    let form = whnf(cx, locals, units, stop, true, split.major)?;
    let built = constructor_of(cx.alloc, &form)?;
    let turned = fire(cx.alloc, cx.view, units, recursor, levels, split, &built)?;
    drop(built);
    match turned {
        Progress::Stays => like_k(cx, locals, units, stop, levels, recursor, split, form, info),
        Progress::Next(term) => Ok(Progress::Next(term)),
        Progress::Ends(term) => Ok(Progress::Ends(term)),
    }
}

// The constructor without fields of a type declared in `Prop`, where there is just one.
#[cycle(check)]
#[tactic(auto, using(lf_steps::proofs::Runs::halts), unfolding(crate::specs::Tower::like_k))]
pub fn like_k<P: Stop>(
    cx: Cx<'_>,
    locals: &mut Vec<Expr>,
    units: &mut u64,
    stop: &mut P,
    levels: &[Level],
    recursor: Recursor<'_>,
    split: Split<'_>,
    form: Expr,
    info: &ConstInfo,
) -> Result<Progress, Halt>
    ensures value { RunsAs values.progress (tower.like_k cx.entry.view.now (calls cx.entry.view.now cx.entry.depth) locals.old.items levels.now
        (values.recursor recursor.entry) (values.split split.entry) form (shape_of info.now) units.old) result units.new }
    ensures kept { locals.new.items ≡ locals.old.items }
    ensures count { P.stops stop.old ≤ P.stops stop.new }
    ensures rose { Rose result (P.stops stop.old) (P.stops stop.new) }
{
    match fieldless(cx.alloc, cx.view, units, recursor, info)? {
        Some(name) => {
            let turned = put_in(
                cx, locals, units, stop, levels, recursor, split, &form, name,
            );
            drop(form);
            turned
        }
        None => {
            drop(form);
            Ok(Progress::Stays)
        }
    }
}

// The constructor without fields takes the place of a major premise that has its type.
#[cycle(check)]
#[tactic(auto, using(lf_steps::proofs::Runs::halts, lf_steps::proofs::Runs::caught_runs), unfolding(crate::specs::Tower::put_in))]
pub fn put_in<P: Stop>(
    cx: Cx<'_>,
    locals: &mut Vec<Expr>,
    units: &mut u64,
    stop: &mut P,
    levels: &[Level],
    recursor: Recursor<'_>,
    split: Split<'_>,
    form: &Expr,
    name: &Name,
) -> Result<Progress, Halt>
    ensures value { RunsAs values.progress (tower.put_in cx.entry.view.now (calls cx.entry.view.now cx.entry.depth) locals.old.items levels.now
        (values.recursor recursor.entry) (values.split split.entry) form.now name.now units.old) result units.new }
    ensures kept { locals.new.items ≡ locals.old.items }
    ensures count { P.stops stop.old ≤ P.stops stop.new }
    ensures rose { Rose result (P.stops stop.old) (P.stops stop.new) }
{
    let built = constructor_at(cx.alloc, units, name, levels, recursor, split)?;
    let same = same_type(cx, locals, units, stop, form, &built);
    let same = attempt(same)?;
    if same == Some(true) {
        let turned = fire(cx.alloc, cx.view, units, recursor, levels, split, &built);
        drop(built);
        turned
    } else {
        drop(built);
        Ok(Progress::Stays)
    }
}

// Whether the types of two terms are equal.
#[cycle(check)]
#[tactic(auto, using(lf_steps::proofs::Runs::halts))]
pub fn same_type<P: Stop>(
    cx: Cx<'_>,
    locals: &mut Vec<Expr>,
    units: &mut u64,
    stop: &mut P,
    a: &Expr,
    b: &Expr,
) -> Result<bool, Halt>
    ensures value { Runs (bodies.same_type (calls cx.entry.view.now cx.entry.depth) locals.old.items a.now b.now units.old) result units.new }
    ensures kept { locals.new.items ≡ locals.old.items }
    ensures count { P.stops stop.old ≤ P.stops stop.new }
    ensures rose { Rose result (P.stops stop.old) (P.stops stop.new) }
{
    let left = infer(cx, locals, units, stop, Mode::Checked, a)?;
    let right = infer(cx, locals, units, stop, Mode::Checked, b)?;
    let same = equal(cx, locals, units, stop, &left, &right);
    drop(left);
    drop(right);
    same
}
