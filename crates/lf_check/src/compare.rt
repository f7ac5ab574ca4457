//! Whether terms are equal.
ghost use Rattle.std.specs.Prelude.{◌≡◌, ◌≤◌, true, false, option_map};
ghost use Rattle.std.specs.Option.{option_copied};
ghost use Rattle.lf_core.specs.Spine as spine;
ghost use Rattle.lf_checker.specs.Calls.{checked, unchecked, see as spec_see};
ghost use Rattle.lf_checker.specs.Checker.{calls};
ghost use Rattle.lf_checker.specs.Whnf as whnf;
ghost use Rattle.lf_checker.specs.Equal as equal;
ghost use Rattle.lf_checker.specs.Infer as infer;
ghost use Rattle.lf_steps.specs.Runs.{Runs, RunsAs, Rose};
ghost use Rattle.lf_steps.specs.Values as values;
ghost use Rattle.lf_check.specs.Bodies as bodies;
ghost use Rattle.lf_check.specs.Tower as tower;
ghost use Rattle.lf_check.specs.Values as own;
ghost use Rattle.lf_checker.specs.Extends.{shape_of};

use crate::built::{Built, built_of, fields, is_headed, is_type_of, params};
use crate::cx::{Cx, close, open};
use crate::form::{Form, Side, expanded, field, form_of, heads, literals, side_of};
use crate::judge::infer;
use crate::mode::Mode;
use crate::reduce::whnf;
use crate::turn::unfold_heads;
use lf_base::Stop;
use lf_core::{Expr, Name};
use lf_steps::{Halt, Verdict, arguments, attempt, enter, head, is_prop, opening, out};

/// Whether two terms are equal, within a run.
#[cycle(check)]
#[tactic(auto, using(crate::proofs::Towers::equal_start))]
pub fn equal<P: Stop>(
    cx: Cx<'_>,
    locals: &mut Vec<Expr>,
    units: &mut u64,
    stop: &mut P,
    a: &Expr,
    b: &Expr,
) -> Result<bool, Halt>
    ensures value { Runs ((calls cx.entry.view.now cx.entry.depth).equal locals.old.items a.now b.now units.old) result units.new }
    ensures kept { locals.new.items ≡ locals.old.items }
    ensures count { P.stops stop.old ≤ P.stops stop.new }
    ensures rose { Rose result (P.stops stop.old) (P.stops stop.new) }
{
    enter(cx.depth, units, stop)?;
    let inner = cx.below();
    equal_loop(inner, locals, units, stop, a, b)
}

// Turns until a rule decides.
#[cycle(check)]
#[tactic(auto, using(crate::proofs::Loops::equal_decided, crate::proofs::Loops::equal_undecided, crate::proofs::Loops::equal_again, crate::proofs::Loops::equal_halts, crate::proofs::Loops::equal_none), unfolding(crate::specs::Tower::equal_body, lf_checker::specs::Whnf::turn_limit))]
pub fn equal_loop<P: Stop>(
    cx: Cx<'_>,
    locals: &mut Vec<Expr>,
    units: &mut u64,
    stop: &mut P,
    a: &Expr,
    b: &Expr,
) -> Result<bool, Halt>
    ensures value { Runs (tower.equal_body cx.entry.view.now (calls cx.entry.view.now cx.entry.depth) locals.old.items a.now b.now units.old) result units.new }
    ensures kept { locals.new.items ≡ locals.old.items }
    ensures count { P.stops stop.old ≤ P.stops stop.new }
    ensures rose { Rose result (P.stops stop.old) (P.stops stop.new) }
{
    let mut x = a.copy(cx.alloc)?;
    let mut y = b.copy(cx.alloc)?;
    let mut left = u64::MAX;
    'turns: while left > 0 {
        match equal_turn(cx, locals, units, stop, &x, &y)? {
            Verdict::Decided(same) => {
                drop(x);
                drop(y);
                return Ok(same);
            }
            Verdict::Undecided => {
                drop(x);
                drop(y);
                return Ok(false);
            }
            Verdict::Again(next, other) => {
                drop(x);
                drop(y);
                x = next;
                y = other;
            }
        }
        left -= 1;
    }
    drop(x);
    drop(y);
    Err(out(units))
}

// The first rule that decides, or the terms that are to be compared in their place.
#[cycle(check)]
#[tactic(auto, using(lf_steps::proofs::Runs::halts), unfolding(crate::specs::Tower::equal_turn))]
pub fn equal_turn<P: Stop>(
    cx: Cx<'_>,
    locals: &mut Vec<Expr>,
    units: &mut u64,
    stop: &mut P,
    a: &Expr,
    b: &Expr,
) -> Result<Verdict, Halt>
    ensures value { RunsAs values.verdict (tower.equal_turn cx.entry.view.now (calls cx.entry.view.now cx.entry.depth) locals.old.items a.now b.now units.old)
        result units.new }
    ensures kept { locals.new.items ≡ locals.old.items }
    ensures count { P.stops stop.old ≤ P.stops stop.new }
    ensures rose { Rose result (P.stops stop.old) (P.stops stop.new) }
{
    if a.is(b) {
        return Ok(Verdict::Decided(true));
    }
    match form_of(cx.alloc, a, b)? {
        Form::Settled(same) => Ok(Verdict::Decided(same)),
        Form::Binders(d, x, e, y) => {
            let same = equal_binders(cx, locals, units, stop, d, x, e, y)?;
            Ok(Verdict::Decided(same))
        }
        Form::Other => by_rest(cx, locals, units, stop, a, b),
    }
}

// Domains, and then bodies with the next variable.
#[cycle(check)]
#[tactic(auto, using(lf_steps::proofs::Runs::halts, crate::proofs::Fronts::front_push))]
pub fn equal_binders<P: Stop>(
    cx: Cx<'_>,
    locals: &mut Vec<Expr>,
    units: &mut u64,
    stop: &mut P,
    a: &Expr,
    b: &Expr,
    d: &Expr,
    e: &Expr,
) -> Result<bool, Halt>
    ensures value { Runs (equal.equal_binders (calls cx.entry.view.now cx.entry.depth) locals.old.items a.now b.now d.now e.now units.old) result units.new }
    ensures kept { locals.new.items ≡ locals.old.items }
    ensures count { P.stops stop.old ≤ P.stops stop.new }
    ensures rose { Rose result (P.stops stop.old) (P.stops stop.new) }
{
    if equal(cx, locals, units, stop, a, d)? {
        let x = opening(cx.alloc, units, locals.as_slice(), b)?;
        let y = opening(cx.alloc, units, locals.as_slice(), e)?;
        open(cx.alloc, locals, a)?;
        let same = equal(cx, locals, units, stop, &x, &y);
        close(locals);
        drop(x);
        drop(y);
        same
    } else {
        Ok(false)
    }
}

// The rules for terms of other forms.
#[cycle(check)]
#[tactic(auto, using(lf_steps::proofs::Runs::halts), unfolding(crate::specs::Tower::by_rest))]
pub fn by_rest<P: Stop>(
    cx: Cx<'_>,
    locals: &mut Vec<Expr>,
    units: &mut u64,
    stop: &mut P,
    a: &Expr,
    b: &Expr,
) -> Result<Verdict, Halt>
    ensures value { RunsAs values.verdict (tower.by_rest cx.entry.view.now (calls cx.entry.view.now cx.entry.depth) locals.old.items a.now b.now units.old)
        result units.new }
    ensures kept { locals.new.items ≡ locals.old.items }
    ensures count { P.stops stop.old ≤ P.stops stop.new }
    ensures rose { Rose result (P.stops stop.old) (P.stops stop.new) }
{
    match by_whnf(cx, locals, units, stop, a, b)? {
        Verdict::Undecided => match by_types(cx, locals, units, stop, a, b)? {
            Verdict::Undecided => by_heads(cx, locals, units, stop, a, b),
            Verdict::Decided(same) => Ok(Verdict::Decided(same)),
            Verdict::Again(x, y) => Ok(Verdict::Again(x, y)),
        },
        Verdict::Decided(same) => Ok(Verdict::Decided(same)),
        Verdict::Again(x, y) => Ok(Verdict::Again(x, y)),
    }
}

// Weak head forms without definitions, where one of them is another term.
#[cycle(check)]
#[tactic(auto, using(lf_steps::proofs::Runs::halts))]
pub fn by_whnf<P: Stop>(
    cx: Cx<'_>,
    locals: &mut Vec<Expr>,
    units: &mut u64,
    stop: &mut P,
    a: &Expr,
    b: &Expr,
) -> Result<Verdict, Halt>
    ensures value { RunsAs values.verdict (equal.by_whnf (calls cx.entry.view.now cx.entry.depth) locals.old.items a.now b.now units.old) result units.new }
    ensures kept { locals.new.items ≡ locals.old.items }
    ensures count { P.stops stop.old ≤ P.stops stop.new }
    ensures rose { Rose result (P.stops stop.old) (P.stops stop.new) }
{
    let x = whnf(cx, locals, units, stop, false, a)?;
    let y = whnf(cx, locals, units, stop, false, b)?;
    if a.is(&x) && b.is(&y) {
        drop(x);
        drop(y);
        Ok(Verdict::Undecided)
    } else {
        Ok(Verdict::Again(x, y))
    }
}

// The rules that look at types: proofs of one proposition, eta, eta for structures.
#[cycle(check)]
#[tactic(auto, using(lf_steps::proofs::Runs::halts), unfolding(crate::specs::Tower::by_types))]
pub fn by_types<P: Stop>(
    cx: Cx<'_>,
    locals: &mut Vec<Expr>,
    units: &mut u64,
    stop: &mut P,
    a: &Expr,
    b: &Expr,
) -> Result<Verdict, Halt>
    ensures value { RunsAs values.verdict (tower.by_types cx.entry.view.now (calls cx.entry.view.now cx.entry.depth) locals.old.items a.now b.now units.old)
        result units.new }
    ensures kept { locals.new.items ≡ locals.old.items }
    ensures count { P.stops stop.old ≤ P.stops stop.new }
    ensures rose { Rose result (P.stops stop.old) (P.stops stop.new) }
{
    if by_proofs(cx, locals, units, stop, a, b)? {
        return Ok(Verdict::Decided(true));
    }
    match by_eta(cx, locals, units, stop, a, b)? {
        Verdict::Undecided => by_structures(cx, locals, units, stop, a, b),
        Verdict::Decided(same) => Ok(Verdict::Decided(same)),
        Verdict::Again(x, y) => Ok(Verdict::Again(x, y)),
    }
}

// Whether the first is a proof, and the second is one of the same proposition.
#[cycle(check)]
#[tactic(auto, using(lf_steps::proofs::Runs::halts, lf_steps::proofs::Runs::caught_runs), unfolding(crate::specs::Tower::by_proofs))]
pub fn by_proofs<P: Stop>(
    cx: Cx<'_>,
    locals: &mut Vec<Expr>,
    units: &mut u64,
    stop: &mut P,
    a: &Expr,
    b: &Expr,
) -> Result<bool, Halt>
    ensures value { Runs (tower.by_proofs (calls cx.entry.view.now cx.entry.depth) locals.old.items a.now b.now units.old) result units.new }
    ensures kept { locals.new.items ≡ locals.old.items }
    ensures count { P.stops stop.old ≤ P.stops stop.new }
    ensures rose { Rose result (P.stops stop.old) (P.stops stop.new) }
{
    let stated = proposition(cx, locals, units, stop, a);
    match attempt(stated)? {
        Some(Some(wanted)) => {
            let proved = proves(cx, locals, units, stop, b, &wanted);
            drop(wanted);
            let proved = attempt(proved)?;
            Ok(proved == Some(true))
        }
        Some(None) => Ok(false),
        None => Ok(false),
    }
}

// The type of a proof.
#[cycle(check)]
#[tactic(auto, using(lf_steps::proofs::Runs::halts))]
pub fn proposition<P: Stop>(
    cx: Cx<'_>,
    locals: &mut Vec<Expr>,
    units: &mut u64,
    stop: &mut P,
    a: &Expr,
) -> Result<Option<Expr>, Halt>
    ensures value { Runs (bodies.proposition (calls cx.entry.view.now cx.entry.depth) locals.old.items a.now units.old) result units.new }
    ensures kept { locals.new.items ≡ locals.old.items }
    ensures count { P.stops stop.old ≤ P.stops stop.new }
    ensures rose { Rose result (P.stops stop.old) (P.stops stop.new) }
{
    let ty = infer(cx, locals, units, stop, Mode::Checked, a)?;
    let sort = infer(cx, locals, units, stop, Mode::Checked, &ty)?;
    let form = whnf(cx, locals, units, stop, true, &sort)?;
    drop(sort);
    let stated = is_prop(cx.alloc, &form)?;
    drop(form);
    if stated {
        Ok(Some(ty))
    } else {
        drop(ty);
        Ok(None)
    }
}

// Whether the term has this type.
#[cycle(check)]
#[tactic(auto, using(lf_steps::proofs::Runs::halts))]
pub fn proves<P: Stop>(
    cx: Cx<'_>,
    locals: &mut Vec<Expr>,
    units: &mut u64,
    stop: &mut P,
    b: &Expr,
    wanted: &Expr,
) -> Result<bool, Halt>
    ensures value { Runs (bodies.proves (calls cx.entry.view.now cx.entry.depth) locals.old.items b.now wanted.now units.old) result units.new }
    ensures kept { locals.new.items ≡ locals.old.items }
    ensures count { P.stops stop.old ≤ P.stops stop.new }
    ensures rose { Rose result (P.stops stop.old) (P.stops stop.new) }
{
    let ty = infer(cx, locals, units, stop, Mode::Checked, b)?;
    let same = equal(cx, locals, units, stop, wanted, &ty);
    drop(ty);
    same
}

// A lambda against the eta expansion of the other.
#[cycle(check)]
#[tactic(auto, using(lf_steps::proofs::Runs::halts))]
pub fn by_eta<P: Stop>(
    cx: Cx<'_>,
    locals: &mut Vec<Expr>,
    units: &mut u64,
    stop: &mut P,
    a: &Expr,
    b: &Expr,
) -> Result<Verdict, Halt>
    ensures value { RunsAs values.verdict (tower.by_eta (calls cx.entry.view.now cx.entry.depth) locals.old.items a.now b.now units.old) result units.new }
    ensures kept { locals.new.items ≡ locals.old.items }
    ensures count { P.stops stop.old ≤ P.stops stop.new }
    ensures rose { Rose result (P.stops stop.old) (P.stops stop.new) }
{
    match side_of(a, b) {
        Side::Left => match eta_expansion(cx, locals, units, stop, b)? {
            Some(expansion) => {
                let same = equal(cx, locals, units, stop, a, &expansion);
                drop(expansion);
                Ok(Verdict::Decided(same?))
            }
            None => Ok(Verdict::Undecided),
        },
        Side::Right => match eta_expansion(cx, locals, units, stop, a)? {
            Some(expansion) => {
                let same = equal(cx, locals, units, stop, &expansion, b);
                drop(expansion);
                Ok(Verdict::Decided(same?))
            }
            None => Ok(Verdict::Undecided),
        },
        Side::Neither => Ok(Verdict::Undecided),
    }
}

// The eta expansion of a function.
#[cycle(check)]
#[tactic(auto, using(lf_steps::proofs::Runs::halts, lf_steps::proofs::Runs::caught_runs))]
pub fn eta_expansion<P: Stop>(
    cx: Cx<'_>,
    locals: &mut Vec<Expr>,
    units: &mut u64,
    stop: &mut P,
    term: &Expr,
) -> Result<Option<Expr>, Halt>
    ensures value { Runs (equal.eta_expansion (calls cx.entry.view.now cx.entry.depth) locals.old.items term.now units.old) result units.new }
    ensures kept { locals.new.items ≡ locals.old.items }
    ensures count { P.stops stop.old ≤ P.stops stop.new }
    ensures rose { Rose result (P.stops stop.old) (P.stops stop.new) }
{
    let ty = infer(cx, locals, units, stop, Mode::Checked, term);
    match attempt(ty)? {
        Some(ty) => {
            let form = whnf(cx, locals, units, stop, true, &ty)?;
            drop(ty);
            let expansion = expanded(cx.alloc, units, term, &form);
            drop(form);
            expansion
        }
        None => Ok(None),
    }
}

// Eta for structures, both ways.
#[cycle(check)]
#[tactic(auto, using(lf_steps::proofs::Runs::halts), unfolding(crate::specs::Tower::by_structures))]
pub fn by_structures<P: Stop>(
    cx: Cx<'_>,
    locals: &mut Vec<Expr>,
    units: &mut u64,
    stop: &mut P,
    a: &Expr,
    b: &Expr,
) -> Result<Verdict, Halt>
    ensures value { RunsAs values.verdict (tower.by_structures cx.entry.view.now (calls cx.entry.view.now cx.entry.depth) locals.old.items a.now b.now
        units.old) result units.new }
    ensures kept { locals.new.items ≡ locals.old.items }
    ensures count { P.stops stop.old ≤ P.stops stop.new }
    ensures rose { Rose result (P.stops stop.old) (P.stops stop.new) }
{
    if against_built(cx, locals, units, stop, a, b)? {
        return Ok(Verdict::Decided(true));
    }
    if against_built(cx, locals, units, stop, b, a)? {
        return Ok(Verdict::Decided(true));
    }
    Ok(Verdict::Undecided)
}

// What a structure's constructor builds, against another term of the structure.
#[cycle(check)]
#[tactic(auto, using(lf_steps::proofs::Runs::halts, lf_steps::proofs::Runs::caught_runs), unfolding(crate::specs::Tower::against_built))]
pub fn against_built<P: Stop>(
    cx: Cx<'_>,
    locals: &mut Vec<Expr>,
    units: &mut u64,
    stop: &mut P,
    x: &Expr,
    y: &Expr,
) -> Result<bool, Halt>
    ensures value { Runs (tower.against_built cx.entry.view.now (calls cx.entry.view.now cx.entry.depth) locals.old.items x.now y.now units.old) result
        units.new }
    ensures kept { locals.new.items ≡ locals.old.items }
    ensures count { P.stops stop.old ≤ P.stops stop.new }
    ensures rose { Rose result (P.stops stop.old) (P.stops stop.new) }
{
    match built_of(cx.alloc, cx.view, units, x)? {
        Some(built) => {
            if is_headed(built.structure.constructor, y) {
                return Ok(false);
            }
            let form = type_form(cx, locals, units, stop, y);
            match attempt(form)? {
                Some(form) => {
                    let same = eta_at(cx, locals, units, stop, &built, y, &form);
                    drop(form);
                    same
                }
                None => Ok(false),
            }
        }
        None => Ok(false),
    }
}

// The weak head form of the type.
#[cycle(check)]
#[tactic(auto, using(lf_steps::proofs::Runs::halts))]
pub fn type_form<P: Stop>(
    cx: Cx<'_>,
    locals: &mut Vec<Expr>,
    units: &mut u64,
    stop: &mut P,
    y: &Expr,
) -> Result<Expr, Halt>
    ensures value { Runs (bodies.type_form (calls cx.entry.view.now cx.entry.depth) locals.old.items y.now units.old) result units.new }
    ensures kept { locals.new.items ≡ locals.old.items }
    ensures count { P.stops stop.old ≤ P.stops stop.new }
    ensures rose { Rose result (P.stops stop.old) (P.stops stop.new) }
{
    let ty = infer(cx, locals, units, stop, Mode::Checked, y)?;
    let form = whnf(cx, locals, units, stop, true, &ty);
    drop(ty);
    form
}

// The parameters and then the fields, where `form` is the structure.
#[cycle(check)]
#[tactic(auto, using(lf_steps::proofs::Runs::halts), unfolding(crate::specs::Tower::eta_at))]
pub fn eta_at<P: Stop>(
    cx: Cx<'_>,
    locals: &mut Vec<Expr>,
    units: &mut u64,
    stop: &mut P,
    built: &Built<'_>,
    y: &Expr,
    form: &Expr,
) -> Result<bool, Halt>
    ensures value { Runs (tower.eta_at (calls cx.entry.view.now cx.entry.depth) locals.old.items (own.built built.now) y.now form.now units.old) result
        units.new }
    ensures kept { locals.new.items ≡ locals.old.items }
    ensures count { P.stops stop.old ≤ P.stops stop.new }
    ensures rose { Rose result (P.stops stop.old) (P.stops stop.new) }
{
    let wanted = arguments(cx.alloc, form)?;
    if is_type_of(cx.alloc, built, head(form), wanted.as_slice())? {
        if equal_all(cx, locals, units, stop, params(built), wanted.as_slice())? {
            equal_fields(cx, locals, units, stop, built.name, 0, y, fields(built))
        } else {
            Ok(false)
        }
    } else {
        Ok(false)
    }
}

// The projections of `y` with the fields from the one of this place on.
#[cycle(check)]
#[tactic(auto, using(lf_steps::proofs::Runs::halts))]
pub fn equal_fields<P: Stop>(
    cx: Cx<'_>,
    locals: &mut Vec<Expr>,
    units: &mut u64,
    stop: &mut P,
    name: &Name,
    place: u32,
    y: &Expr,
    xs: &[Expr],
) -> Result<bool, Halt>
    ensures value { Runs (equal.equal_fields (calls cx.entry.view.now cx.entry.depth) locals.old.items name.now place y.now xs.now units.old) result units.new }
    ensures kept { locals.new.items ≡ locals.old.items }
    ensures count { P.stops stop.old ≤ P.stops stop.new }
    ensures rose { Rose result (P.stops stop.old) (P.stops stop.new) }
{
    match xs {
        [] => Ok(true),
        [x, xs @ ..] => {
            let one = field(cx.alloc, units, name, place, y)?;
            let same = equal(cx, locals, units, stop, &one, x);
            drop(one);
            if same? {
                let Some(next) = place.checked_add(1) else {
                    return Err(Halt::NoMemory);
                };
                equal_fields(cx, locals, units, stop, name, next, y, xs)
            } else {
                Ok(false)
            }
        }
    }
}

// Term by term, from the left.
#[cycle(check)]
#[tactic(auto, using(lf_steps::proofs::Runs::halts))]
pub fn equal_all<P: Stop>(
    cx: Cx<'_>,
    locals: &mut Vec<Expr>,
    units: &mut u64,
    stop: &mut P,
    xs: &[Expr],
    ys: &[Expr],
) -> Result<bool, Halt>
    ensures value { Runs (equal.equal_all (calls cx.entry.view.now cx.entry.depth) locals.old.items xs.now ys.now units.old) result units.new }
    ensures kept { locals.new.items ≡ locals.old.items }
    ensures count { P.stops stop.old ≤ P.stops stop.new }
    ensures rose { Rose result (P.stops stop.old) (P.stops stop.new) }
{
    match xs {
        [] => match ys {
            [] => Ok(true),
            [_y, _ys @ ..] => Ok(false),
        },
        [x, xs @ ..] => match ys {
            [] => Ok(false),
            [y, ys @ ..] => {
                if equal(cx, locals, units, stop, x, y)? {
                    equal_all(cx, locals, units, stop, xs, ys)
                } else {
                    Ok(false)
                }
            }
        },
    }
}

// The rules that look at heads: literals, arguments, definitions.
#[cycle(check)]
#[tactic(auto, using(lf_steps::proofs::Runs::halts), unfolding(crate::specs::Tower::by_heads))]
pub fn by_heads<P: Stop>(
    cx: Cx<'_>,
    locals: &mut Vec<Expr>,
    units: &mut u64,
    stop: &mut P,
    a: &Expr,
    b: &Expr,
) -> Result<Verdict, Halt>
    ensures value { RunsAs values.verdict (tower.by_heads cx.entry.view.now (calls cx.entry.view.now cx.entry.depth) locals.old.items a.now b.now units.old)
        result units.new }
    ensures kept { locals.new.items ≡ locals.old.items }
    ensures count { P.stops stop.old ≤ P.stops stop.new }
    ensures rose { Rose result (P.stops stop.old) (P.stops stop.new) }
{
    match by_literals(cx, locals, units, stop, a, b)? {
        Verdict::Decided(same) => Ok(Verdict::Decided(same)),
        Verdict::Again(x, y) => Ok(Verdict::Again(x, y)),
        Verdict::Undecided => {
            if by_arguments(cx, locals, units, stop, a, b)? {
                return Ok(Verdict::Decided(true));
            }
            unfold_heads(cx.alloc, cx.view, units, a, b)
        }
    }
}

// A literal against another, a constructor of `Nat`, or nothing that decides.
#[cycle(check)]
#[tactic(auto, using(lf_steps::proofs::Runs::halts))]
pub fn by_literals<P: Stop>(
    cx: Cx<'_>,
    locals: &mut Vec<Expr>,
    units: &mut u64,
    stop: &mut P,
    a: &Expr,
    b: &Expr,
) -> Result<Verdict, Halt>
    ensures value { RunsAs values.verdict (tower.by_literals (calls cx.entry.view.now cx.entry.depth) locals.old.items a.now b.now units.old) result units.new }
    ensures kept { locals.new.items ≡ locals.old.items }
    ensures count { P.stops stop.old ≤ P.stops stop.new }
    ensures rose { Rose result (P.stops stop.old) (P.stops stop.new) }
{
    match literals(cx.alloc, a, b)? {
        Verdict::Decided(same) => Ok(Verdict::Decided(same)),
        Verdict::Again(x, y) => {
            let same = equal(cx, locals, units, stop, &x, &y);
            drop(x);
            drop(y);
            Ok(Verdict::Decided(same?))
        }
        Verdict::Undecided => Ok(Verdict::Undecided),
    }
}

// Heads and arguments, where there are as many on both sides.
#[cycle(check)]
#[tactic(auto, using(lf_steps::proofs::Runs::halts), unfolding(crate::specs::Tower::by_arguments))]
pub fn by_arguments<P: Stop>(
    cx: Cx<'_>,
    locals: &mut Vec<Expr>,
    units: &mut u64,
    stop: &mut P,
    a: &Expr,
    b: &Expr,
) -> Result<bool, Halt>
    ensures value { Runs (tower.by_arguments (calls cx.entry.view.now cx.entry.depth) locals.old.items a.now b.now units.old) result units.new }
    ensures kept { locals.new.items ≡ locals.old.items }
    ensures count { P.stops stop.old ≤ P.stops stop.new }
    ensures rose { Rose result (P.stops stop.old) (P.stops stop.new) }
{
    let xs = arguments(cx.alloc, a)?;
    let ys = arguments(cx.alloc, b)?;
    if xs.len() != ys.len() {
        return Ok(false);
    }
    if equal_heads(cx, locals, units, stop, head(a), head(b))? {
        equal_all(cx, locals, units, stop, xs.as_slice(), ys.as_slice())
    } else {
        Ok(false)
    }
}

// Two heads.
#[cycle(check)]
#[tactic(auto, using(lf_steps::proofs::Runs::halts))]
pub fn equal_heads<P: Stop>(
    cx: Cx<'_>,
    locals: &mut Vec<Expr>,
    units: &mut u64,
    stop: &mut P,
    a: &Expr,
    b: &Expr,
) -> Result<bool, Halt>
    ensures value { Runs (tower.equal_heads (calls cx.entry.view.now cx.entry.depth) locals.old.items a.now b.now units.old) result units.new }
    ensures kept { locals.new.items ≡ locals.old.items }
    ensures count { P.stops stop.old ≤ P.stops stop.new }
    ensures rose { Rose result (P.stops stop.old) (P.stops stop.new) }
{
    match heads(cx.alloc, a, b)? {
        Verdict::Decided(same) => Ok(same),
        Verdict::Again(x, y) => {
            let same = equal(cx, locals, units, stop, &x, &y);
            drop(x);
            drop(y);
            same
        }
        Verdict::Undecided => Ok(false),
    }
}
