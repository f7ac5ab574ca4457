//! The unifier.
ghost use Rattle.std.specs.Prelude.{◌≡◌, ◌≤◌, length, take};
ghost use Rattle.lf_rules.specs.Environment.{with};
ghost use Rattle.lf_checker.specs.Checker.{calls};
ghost use Rattle.lf_elaboration.specs.Unifier as spec;
ghost use Rattle.lf_steps.specs.Runs.{Rose};
ghost use Rattle.lf_steps.specs.Values as values;
ghost use Rattle.lf_unify.specs.Answers.{Undoes};
ghost use Rattle.lf_unify.specs.Runs.{Runs, RunsAs};
ghost use Rattle.lf_unify.specs.Tower as tower;
ghost use Rattle.lf_unify.specs.Values.{pattern};

use crate::cx::UnifyCx;
use crate::form::{Heads, as_lambda, expanded, heads_of, pis, predecessors, sorts};
use crate::levels::{unify_level, unify_levels};
use crate::pattern::{Pattern, assigned, pattern_of};
use crate::reading::{by_whnf, instantiated, pattern_type, type_unchecked, without_metavariables};
use lf_base::Stop;
use lf_check::{close, open};
use lf_core::Expr;
use lf_meta::Metas;
use lf_steps::{Halt, Verdict, arguments, by_unfolding, enter, head, opening, out};

/// Whether two terms can be made equal, within a run. The metavariables are as before after each answer but true.
#[cycle(unifier)]
#[tactic(auto, using(crate::proofs::Towers::unify_start, crate::proofs::Runs::taken_back, crate::proofs::Floor::take_whole, crate::proofs::Floor::take_floor))]
pub fn unify<P: Stop>(
    cx: UnifyCx<'_>,
    locals: &mut Vec<Expr>,
    units: &mut u64,
    metas: &mut Metas,
    stop: &mut P,
    a: &Expr,
    b: &Expr,
) -> Result<bool, Halt>
    requires { cx.floor ≤ length metas.old }
    ensures value { Runs ((spec.unify cx.entry.check.view.now cx.entry.check.depth) locals.old.items a.now b.now units.old metas.old) result
        units.new metas.new }
    ensures kept { locals.new.items ≡ locals.old.items }
    ensures floor { cx.entry.floor ≤ length metas.new }
    ensures below { take cx.entry.floor metas.new ≡ take cx.entry.floor metas.old }
    ensures count { P.stops stop.old ≤ P.stops stop.new }
    ensures rose { Rose result (P.stops stop.old) (P.stops stop.new) }
    ensures undone { Undoes result metas.old metas.new }
{
    let mark = metas.mark();
    let same = entered(cx.raised(mark), locals, units, metas, stop, a, b);
    match same {
        Ok(true) => Ok(true),
        Ok(false) => {
            metas.undo(mark);
            Ok(false)
        }
        Err(halt) => {
            metas.undo(mark);
            Err(halt)
        }
    }
}

// The start of a call: both terms with their assigned metavariables put in.
#[cycle(unifier)]
#[tactic(auto, using(crate::proofs::Runs::halts, crate::proofs::Runs::check_halts), unfolding(crate::specs::Tower::entered))]
pub fn entered<P: Stop>(
    cx: UnifyCx<'_>,
    locals: &mut Vec<Expr>,
    units: &mut u64,
    metas: &mut Metas,
    stop: &mut P,
    a: &Expr,
    b: &Expr,
) -> Result<bool, Halt>
    requires { cx.floor ≤ length metas.old }
    ensures value { Runs (tower.entered cx.entry.check.view.now cx.entry.check.depth locals.old.items a.now b.now units.old metas.old) result
        units.new metas.new }
    ensures kept { locals.new.items ≡ locals.old.items }
    ensures floor { cx.entry.floor ≤ length metas.new }
    ensures below { take cx.entry.floor metas.new ≡ take cx.entry.floor metas.old }
    ensures count { P.stops stop.old ≤ P.stops stop.new }
    ensures rose { Rose result (P.stops stop.old) (P.stops stop.new) }
{
    enter(cx.check.depth, units, stop)?;
    let x = instantiated(units, metas, a)?;
    let y = instantiated(units, metas, b)?;
    let same = unify_loop(cx.below(), locals, units, metas, stop, &x, &y);
    drop(x);
    drop(y);
    same
}

// Turns until a rule decides.
#[cycle(unifier)]
#[tactic(auto, using(crate::proofs::Loops::unify_decided, crate::proofs::Loops::unify_undecided, crate::proofs::Loops::unify_again, crate::proofs::Loops::unify_halts, crate::proofs::Loops::unify_none), unfolding(crate::specs::Tower::unify_body, lf_checker::specs::Whnf::turn_limit))]
pub fn unify_loop<P: Stop>(
    cx: UnifyCx<'_>,
    locals: &mut Vec<Expr>,
    units: &mut u64,
    metas: &mut Metas,
    stop: &mut P,
    a: &Expr,
    b: &Expr,
) -> Result<bool, Halt>
    requires { cx.floor ≤ length metas.old }
    ensures value { Runs (tower.unify_body cx.entry.check.view.now (calls cx.entry.check.view.now cx.entry.check.depth) (spec.unify
        cx.entry.check.view.now cx.entry.check.depth) locals.old.items a.now b.now units.old metas.old) result units.new metas.new }
    ensures kept { locals.new.items ≡ locals.old.items }
    ensures floor { cx.entry.floor ≤ length metas.new }
    ensures below { take cx.entry.floor metas.new ≡ take cx.entry.floor metas.old }
    ensures count { P.stops stop.old ≤ P.stops stop.new }
    ensures rose { Rose result (P.stops stop.old) (P.stops stop.new) }
{
    let mut x = a.copy(cx.check.alloc)?;
    let mut y = b.copy(cx.check.alloc)?;
    let mut left = u64::MAX;
    'turns: while left > 0 {
        match unify_turn(cx, locals, units, metas, stop, &x, &y)? {
            Verdict::Decided(same) => {
                drop(x);
                drop(y);
                return Ok(same);
            }
            Verdict::Undecided => {
                drop(x);
                drop(y);
                return Ok(false);
            }
            Verdict::Again(next, other) => {
                drop(x);
                drop(y);
                x = next;
                y = other;
            }
        }
        left -= 1;
    }
    drop(x);
    drop(y);
    Err(out(units))
}

// The first rule that decides, or the terms that are to be unified in their place.
#[cycle(unifier)]
#[tactic(auto, using(crate::proofs::Runs::halts), unfolding(crate::specs::Tower::unify_turn))]
pub fn unify_turn<P: Stop>(
    cx: UnifyCx<'_>,
    locals: &mut Vec<Expr>,
    units: &mut u64,
    metas: &mut Metas,
    stop: &mut P,
    a: &Expr,
    b: &Expr,
) -> Result<Verdict, Halt>
    requires { cx.floor ≤ length metas.old }
    ensures value { RunsAs values.verdict (tower.unify_turn cx.entry.check.view.now (calls cx.entry.check.view.now cx.entry.check.depth) (spec.unify
        cx.entry.check.view.now cx.entry.check.depth) locals.old.items a.now b.now units.old metas.old) result units.new metas.new }
    ensures kept { locals.new.items ≡ locals.old.items }
    ensures floor { cx.entry.floor ≤ length metas.new }
    ensures below { take cx.entry.floor metas.new ≡ take cx.entry.floor metas.old }
    ensures count { P.stops stop.old ≤ P.stops stop.new }
    ensures rose { Rose result (P.stops stop.old) (P.stops stop.new) }
{
    match without_metavariables(cx.check, locals, units, metas, stop, a, b)? {
        Verdict::Undecided => {
            if a.is(b) {
                return Ok(Verdict::Decided(true));
            }
            by_patterns(cx, locals, units, metas, stop, a, b)
        }
        Verdict::Decided(same) => Ok(Verdict::Decided(same)),
        Verdict::Again(x, y) => Ok(Verdict::Again(x, y)),
    }
}

// A pattern on the left, or else on the right, decides.
#[cycle(unifier)]
#[tactic(auto, using(crate::proofs::Runs::halts), unfolding(crate::specs::Tower::by_patterns))]
pub fn by_patterns<P: Stop>(
    cx: UnifyCx<'_>,
    locals: &mut Vec<Expr>,
    units: &mut u64,
    metas: &mut Metas,
    stop: &mut P,
    a: &Expr,
    b: &Expr,
) -> Result<Verdict, Halt>
    requires { cx.floor ≤ length metas.old }
    ensures value { RunsAs values.verdict (tower.by_patterns cx.entry.check.view.now (calls cx.entry.check.view.now cx.entry.check.depth) (spec.unify
        cx.entry.check.view.now cx.entry.check.depth) locals.old.items a.now b.now units.old metas.old) result units.new metas.new }
    ensures kept { locals.new.items ≡ locals.old.items }
    ensures floor { cx.entry.floor ≤ length metas.new }
    ensures below { take cx.entry.floor metas.new ≡ take cx.entry.floor metas.old }
    ensures count { P.stops stop.old ≤ P.stops stop.new }
    ensures rose { Rose result (P.stops stop.old) (P.stops stop.new) }
{
    match pattern_of(cx.check.alloc, a)? {
        Some(found) => by_pattern(cx, locals, units, metas, stop, found, a, b),
        None => match pattern_of(cx.check.alloc, b)? {
            Some(found) => by_pattern(cx, locals, units, metas, stop, found, b, a),
            None => by_rest(cx, locals, units, metas, stop, a, b),
        },
    }
}

// The pattern, which is the first term, decides.
#[cycle(unifier)]
#[tactic(auto, using(crate::proofs::Runs::halts), unfolding(crate::specs::Tower::by_solving))]
pub fn by_pattern<P: Stop>(
    cx: UnifyCx<'_>,
    locals: &mut Vec<Expr>,
    units: &mut u64,
    metas: &mut Metas,
    stop: &mut P,
    found: Pattern,
    q: &Expr,
    t: &Expr,
) -> Result<Verdict, Halt>
    requires { cx.floor ≤ length metas.old }
    ensures value { RunsAs values.verdict (tower.by_solving (calls cx.entry.check.view.now cx.entry.check.depth) (spec.unify cx.entry.check.view.now
        cx.entry.check.depth) locals.old.items (pattern found) q.now t.now units.old metas.old) result units.new metas.new }
    ensures kept { locals.new.items ≡ locals.old.items }
    ensures floor { cx.entry.floor ≤ length metas.new }
    ensures below { take cx.entry.floor metas.new ≡ take cx.entry.floor metas.old }
    ensures count { P.stops stop.old ≤ P.stops stop.new }
    ensures rose { Rose result (P.stops stop.old) (P.stops stop.new) }
{
    let same = solve(cx, locals, units, metas, stop, &found, q, t);
    drop(found);
    Ok(Verdict::Decided(same?))
}

// The types of both sides are unified, and then the pattern's metavariable is assigned.
#[cycle(unifier)]
#[tactic(auto, using(crate::proofs::Runs::halts), unfolding(crate::specs::Tower::solve))]
pub fn solve<P: Stop>(
    cx: UnifyCx<'_>,
    locals: &mut Vec<Expr>,
    units: &mut u64,
    metas: &mut Metas,
    stop: &mut P,
    found: &Pattern,
    q: &Expr,
    t: &Expr,
) -> Result<bool, Halt>
    requires { cx.floor ≤ length metas.old }
    ensures value { Runs (tower.solve (calls cx.entry.check.view.now cx.entry.check.depth) (spec.unify cx.entry.check.view.now cx.entry.check.depth)
        locals.old.items (pattern found.now) q.now t.now units.old metas.old) result units.new metas.new }
    ensures kept { locals.new.items ≡ locals.old.items }
    ensures floor { cx.entry.floor ≤ length metas.new }
    ensures below { take cx.entry.floor metas.new ≡ take cx.entry.floor metas.old }
    ensures count { P.stops stop.old ≤ P.stops stop.new }
    ensures rose { Rose result (P.stops stop.old) (P.stops stop.new) }
{
    let other = type_unchecked(cx.check, locals, units, metas, stop, t)?;
    let own = pattern_type(cx.check, locals, units, metas, stop, found, q)?;
    if unify_types(cx, locals, units, metas, stop, own, other)? {
        assigned(
            cx.check.alloc,
            cx.floor,
            locals.as_slice(),
            units,
            metas,
            found,
            t,
        )
    } else {
        Ok(false)
    }
}

// Two types, where there are both.
#[cycle(unifier)]
#[tactic(auto, using(crate::proofs::Runs::halts))]
pub fn unify_types<P: Stop>(
    cx: UnifyCx<'_>,
    locals: &mut Vec<Expr>,
    units: &mut u64,
    metas: &mut Metas,
    stop: &mut P,
    own: Option<Expr>,
    other: Option<Expr>,
) -> Result<bool, Halt>
    requires { cx.floor ≤ length metas.old }
    ensures value { Runs (spec.types_unify (spec.unify cx.entry.check.view.now cx.entry.check.depth) locals.old.items own other units.old metas.old)
        result units.new metas.new }
    ensures kept { locals.new.items ≡ locals.old.items }
    ensures floor { cx.entry.floor ≤ length metas.new }
    ensures below { take cx.entry.floor metas.new ≡ take cx.entry.floor metas.old }
    ensures count { P.stops stop.old ≤ P.stops stop.new }
    ensures rose { Rose result (P.stops stop.old) (P.stops stop.new) }
{
    match own {
        Some(own) => match other {
            Some(other) => {
                let same = unify(cx, locals, units, metas, stop, &own, &other);
                drop(own);
                drop(other);
                same
            }
            None => {
                drop(own);
                Ok(false)
            }
        },
        None => {
            drop(other);
            Ok(false)
        }
    }
}

// The rules for terms of which none is a pattern.
#[cycle(unifier)]
#[tactic(auto, using(crate::proofs::Runs::halts), unfolding(crate::specs::Tower::by_rest))]
pub fn by_rest<P: Stop>(
    cx: UnifyCx<'_>,
    locals: &mut Vec<Expr>,
    units: &mut u64,
    metas: &mut Metas,
    stop: &mut P,
    a: &Expr,
    b: &Expr,
) -> Result<Verdict, Halt>
    requires { cx.floor ≤ length metas.old }
    ensures value { RunsAs values.verdict (tower.by_rest cx.entry.check.view.now (calls cx.entry.check.view.now cx.entry.check.depth) (spec.unify
        cx.entry.check.view.now cx.entry.check.depth) locals.old.items a.now b.now units.old metas.old) result units.new metas.new }
    ensures kept { locals.new.items ≡ locals.old.items }
    ensures floor { cx.entry.floor ≤ length metas.new }
    ensures below { take cx.entry.floor metas.new ≡ take cx.entry.floor metas.old }
    ensures count { P.stops stop.old ≤ P.stops stop.new }
    ensures rose { Rose result (P.stops stop.old) (P.stops stop.new) }
{
    match by_whnf(cx.check, locals, units, metas, stop, a, b)? {
        Verdict::Undecided => by_forms(cx, locals, units, metas, stop, a, b),
        Verdict::Decided(same) => Ok(Verdict::Decided(same)),
        Verdict::Again(x, y) => Ok(Verdict::Again(x, y)),
    }
}

// The rules for weak head forms.
#[cycle(unifier)]
#[tactic(auto, using(crate::proofs::Runs::halts), unfolding(crate::specs::Tower::by_forms))]
pub fn by_forms<P: Stop>(
    cx: UnifyCx<'_>,
    locals: &mut Vec<Expr>,
    units: &mut u64,
    metas: &mut Metas,
    stop: &mut P,
    a: &Expr,
    b: &Expr,
) -> Result<Verdict, Halt>
    requires { cx.floor ≤ length metas.old }
    ensures value { RunsAs values.verdict (tower.by_forms cx.entry.check.view.now (spec.unify cx.entry.check.view.now cx.entry.check.depth)
        locals.old.items a.now b.now units.old metas.old) result units.new metas.new }
    ensures kept { locals.new.items ≡ locals.old.items }
    ensures floor { cx.entry.floor ≤ length metas.new }
    ensures below { take cx.entry.floor metas.new ≡ take cx.entry.floor metas.old }
    ensures count { P.stops stop.old ≤ P.stops stop.new }
    ensures rose { Rose result (P.stops stop.old) (P.stops stop.new) }
{
    match by_form(cx, locals, units, metas, stop, a, b)? {
        Verdict::Undecided => by_last(cx, locals, units, metas, stop, a, b),
        Verdict::Decided(same) => Ok(Verdict::Decided(same)),
        Verdict::Again(x, y) => Ok(Verdict::Again(x, y)),
    }
}

// Heads with their arguments, and then definitions.
#[cycle(unifier)]
#[tactic(auto, using(crate::proofs::Runs::halts, crate::proofs::Runs::check_ends), unfolding(crate::specs::Tower::by_last, crate::specs::Tower::by_unfolding))]
pub fn by_last<P: Stop>(
    cx: UnifyCx<'_>,
    locals: &mut Vec<Expr>,
    units: &mut u64,
    metas: &mut Metas,
    stop: &mut P,
    a: &Expr,
    b: &Expr,
) -> Result<Verdict, Halt>
    requires { cx.floor ≤ length metas.old }
    ensures value { RunsAs values.verdict (tower.by_last cx.entry.check.view.now (spec.unify cx.entry.check.view.now cx.entry.check.depth)
        locals.old.items a.now b.now units.old metas.old) result units.new metas.new }
    ensures kept { locals.new.items ≡ locals.old.items }
    ensures floor { cx.entry.floor ≤ length metas.new }
    ensures below { take cx.entry.floor metas.new ≡ take cx.entry.floor metas.old }
    ensures count { P.stops stop.old ≤ P.stops stop.new }
    ensures rose { Rose result (P.stops stop.old) (P.stops stop.new) }
{
    match by_heads(cx, locals, units, metas, stop, a, b)? {
        Verdict::Undecided => Ok(by_unfolding(cx.check.alloc, cx.check.view, units, a, b)?),
        Verdict::Decided(same) => Ok(Verdict::Decided(same)),
        Verdict::Again(x, y) => Ok(Verdict::Again(x, y)),
    }
}

// Two sorts, and else other forms.
#[cycle(unifier)]
#[tactic(auto, using(crate::proofs::Runs::halts), unfolding(crate::specs::Tower::by_form))]
pub fn by_form<P: Stop>(
    cx: UnifyCx<'_>,
    locals: &mut Vec<Expr>,
    units: &mut u64,
    metas: &mut Metas,
    stop: &mut P,
    a: &Expr,
    b: &Expr,
) -> Result<Verdict, Halt>
    requires { cx.floor ≤ length metas.old }
    ensures value { RunsAs values.verdict (tower.by_form (spec.unify cx.entry.check.view.now cx.entry.check.depth) locals.old.items a.now b.now
        units.old metas.old) result units.new metas.new }
    ensures kept { locals.new.items ≡ locals.old.items }
    ensures floor { cx.entry.floor ≤ length metas.new }
    ensures below { take cx.entry.floor metas.new ≡ take cx.entry.floor metas.old }
    ensures count { P.stops stop.old ≤ P.stops stop.new }
    ensures rose { Rose result (P.stops stop.old) (P.stops stop.new) }
{
    match sorts(a, b) {
        Some((l, m)) => {
            let same = unify_level(cx.check.alloc, cx.floor, units, metas, l, m)?;
            Ok(Verdict::Decided(same))
        }
        None => by_pis(cx, locals, units, metas, stop, a, b),
    }
}

// Two pis, and else other forms.
#[cycle(unifier)]
#[tactic(auto, using(crate::proofs::Runs::halts), unfolding(crate::specs::Tower::by_pis))]
pub fn by_pis<P: Stop>(
    cx: UnifyCx<'_>,
    locals: &mut Vec<Expr>,
    units: &mut u64,
    metas: &mut Metas,
    stop: &mut P,
    a: &Expr,
    b: &Expr,
) -> Result<Verdict, Halt>
    requires { cx.floor ≤ length metas.old }
    ensures value { RunsAs values.verdict (tower.by_pis (spec.unify cx.entry.check.view.now cx.entry.check.depth) locals.old.items a.now b.now
        units.old metas.old) result units.new metas.new }
    ensures kept { locals.new.items ≡ locals.old.items }
    ensures floor { cx.entry.floor ≤ length metas.new }
    ensures below { take cx.entry.floor metas.new ≡ take cx.entry.floor metas.old }
    ensures count { P.stops stop.old ≤ P.stops stop.new }
    ensures rose { Rose result (P.stops stop.old) (P.stops stop.new) }
{
    match pis(a, b) {
        Some((p, q)) => {
            let same = unify_binders(
                cx, locals, units, metas, stop, p.domain, p.body, q.domain, q.body,
            )?;
            Ok(Verdict::Decided(same))
        }
        None => by_lambdas(cx, locals, units, metas, stop, a, b),
    }
}

// Lambdas, and else successors.
#[cycle(unifier)]
#[tactic(auto, using(crate::proofs::Runs::halts), unfolding(crate::specs::Tower::by_lambdas))]
pub fn by_lambdas<P: Stop>(
    cx: UnifyCx<'_>,
    locals: &mut Vec<Expr>,
    units: &mut u64,
    metas: &mut Metas,
    stop: &mut P,
    a: &Expr,
    b: &Expr,
) -> Result<Verdict, Halt>
    requires { cx.floor ≤ length metas.old }
    ensures value { RunsAs values.verdict (tower.by_lambdas (spec.unify cx.entry.check.view.now cx.entry.check.depth) locals.old.items a.now b.now
        units.old metas.old) result units.new metas.new }
    ensures kept { locals.new.items ≡ locals.old.items }
    ensures floor { cx.entry.floor ≤ length metas.new }
    ensures below { take cx.entry.floor metas.new ≡ take cx.entry.floor metas.old }
    ensures count { P.stops stop.old ≤ P.stops stop.new }
    ensures rose { Rose result (P.stops stop.old) (P.stops stop.new) }
{
    match (as_lambda(a), as_lambda(b)) {
        (Some(p), Some(q)) => {
            let same = unify_binders(
                cx, locals, units, metas, stop, p.domain, p.body, q.domain, q.body,
            )?;
            Ok(Verdict::Decided(same))
        }
        (Some(p), None) => {
            let same = lambda_left(cx, locals, units, metas, stop, p.domain, p.body, b)?;
            Ok(Verdict::Decided(same))
        }
        (None, Some(q)) => {
            let same = lambda_right(cx, locals, units, metas, stop, a, q.domain, q.body)?;
            Ok(Verdict::Decided(same))
        }
        (None, None) => by_successors(cx, locals, units, metas, stop, a, b),
    }
}

// The successor of a term against a literal.
#[cycle(unifier)]
#[tactic(auto, using(crate::proofs::Runs::halts), unfolding(crate::specs::Tower::by_successors))]
pub fn by_successors<P: Stop>(
    cx: UnifyCx<'_>,
    locals: &mut Vec<Expr>,
    units: &mut u64,
    metas: &mut Metas,
    stop: &mut P,
    a: &Expr,
    b: &Expr,
) -> Result<Verdict, Halt>
    requires { cx.floor ≤ length metas.old }
    ensures value { RunsAs values.verdict (tower.by_successors (spec.unify cx.entry.check.view.now cx.entry.check.depth) locals.old.items a.now b.now
        units.old metas.old) result units.new metas.new }
    ensures kept { locals.new.items ≡ locals.old.items }
    ensures floor { cx.entry.floor ≤ length metas.new }
    ensures below { take cx.entry.floor metas.new ≡ take cx.entry.floor metas.old }
    ensures count { P.stops stop.old ≤ P.stops stop.new }
    ensures rose { Rose result (P.stops stop.old) (P.stops stop.new) }
{
    match predecessors(a, b) {
        Some((t, before)) => {
            let number = Expr::lit(cx.check.alloc, before)?;
            let same = unify(cx, locals, units, metas, stop, t, &number);
            drop(number);
            Ok(Verdict::Decided(same?))
        }
        None => match predecessors(b, a) {
            Some((t, before)) => {
                let number = Expr::lit(cx.check.alloc, before)?;
                let same = unify(cx, locals, units, metas, stop, &number, t);
                drop(number);
                Ok(Verdict::Decided(same?))
            }
            None => Ok(Verdict::Undecided),
        },
    }
}

// Domains, and then bodies with the next variable.
#[cycle(unifier)]
#[tactic(auto, using(crate::proofs::Runs::halts), unfolding(crate::specs::Tower::unify_binders))]
pub fn unify_binders<P: Stop>(
    cx: UnifyCx<'_>,
    locals: &mut Vec<Expr>,
    units: &mut u64,
    metas: &mut Metas,
    stop: &mut P,
    a: &Expr,
    b: &Expr,
    d: &Expr,
    e: &Expr,
) -> Result<bool, Halt>
    requires { cx.floor ≤ length metas.old }
    ensures value { Runs (tower.unify_binders (spec.unify cx.entry.check.view.now cx.entry.check.depth) locals.old.items a.now b.now d.now e.now
        units.old metas.old) result units.new metas.new }
    ensures kept { locals.new.items ≡ locals.old.items }
    ensures floor { cx.entry.floor ≤ length metas.new }
    ensures below { take cx.entry.floor metas.new ≡ take cx.entry.floor metas.old }
    ensures count { P.stops stop.old ≤ P.stops stop.new }
    ensures rose { Rose result (P.stops stop.old) (P.stops stop.new) }
{
    if unify(cx, locals, units, metas, stop, a, d)? {
        unify_bodies(cx, locals, units, metas, stop, a, b, e)
    } else {
        Ok(false)
    }
}

// Bodies with the next variable, of this type.
#[cycle(unifier)]
#[tactic(auto, using(crate::proofs::Runs::check_halts), unfolding(crate::specs::Tower::unify_bodies))]
pub fn unify_bodies<P: Stop>(
    cx: UnifyCx<'_>,
    locals: &mut Vec<Expr>,
    units: &mut u64,
    metas: &mut Metas,
    stop: &mut P,
    a: &Expr,
    b: &Expr,
    e: &Expr,
) -> Result<bool, Halt>
    requires { cx.floor ≤ length metas.old }
    ensures value { Runs (tower.unify_bodies (spec.unify cx.entry.check.view.now cx.entry.check.depth) locals.old.items a.now b.now e.now units.old
        metas.old) result units.new metas.new }
    ensures kept { locals.new.items ≡ locals.old.items }
    ensures floor { cx.entry.floor ≤ length metas.new }
    ensures below { take cx.entry.floor metas.new ≡ take cx.entry.floor metas.old }
    ensures count { P.stops stop.old ≤ P.stops stop.new }
    ensures rose { Rose result (P.stops stop.old) (P.stops stop.new) }
{
    let x = opening(cx.check.alloc, units, locals.as_slice(), b)?;
    let y = opening(cx.check.alloc, units, locals.as_slice(), e)?;
    under(cx, locals, units, metas, stop, a, x, y)
}

// A lambda, of this domain and body, against another term, which is applied to the variable.
#[cycle(unifier)]
#[tactic(auto, using(crate::proofs::Runs::check_halts), unfolding(crate::specs::Tower::lambda_left))]
pub fn lambda_left<P: Stop>(
    cx: UnifyCx<'_>,
    locals: &mut Vec<Expr>,
    units: &mut u64,
    metas: &mut Metas,
    stop: &mut P,
    d: &Expr,
    body: &Expr,
    t: &Expr,
) -> Result<bool, Halt>
    requires { cx.floor ≤ length metas.old }
    ensures value { Runs (tower.lambda_left (spec.unify cx.entry.check.view.now cx.entry.check.depth) locals.old.items d.now body.now t.now units.old
        metas.old) result units.new metas.new }
    ensures kept { locals.new.items ≡ locals.old.items }
    ensures floor { cx.entry.floor ≤ length metas.new }
    ensures below { take cx.entry.floor metas.new ≡ take cx.entry.floor metas.old }
    ensures count { P.stops stop.old ≤ P.stops stop.new }
    ensures rose { Rose result (P.stops stop.old) (P.stops stop.new) }
{
    let x = opening(cx.check.alloc, units, locals.as_slice(), body)?;
    let y = expanded(cx.check.alloc, units, locals.as_slice(), t)?;
    under(cx, locals, units, metas, stop, d, x, y)
}

// The same with the lambda on the right.
#[cycle(unifier)]
#[tactic(auto, using(crate::proofs::Runs::check_halts), unfolding(crate::specs::Tower::lambda_right))]
pub fn lambda_right<P: Stop>(
    cx: UnifyCx<'_>,
    locals: &mut Vec<Expr>,
    units: &mut u64,
    metas: &mut Metas,
    stop: &mut P,
    t: &Expr,
    d: &Expr,
    body: &Expr,
) -> Result<bool, Halt>
    requires { cx.floor ≤ length metas.old }
    ensures value { Runs (tower.lambda_right (spec.unify cx.entry.check.view.now cx.entry.check.depth) locals.old.items t.now d.now body.now
        units.old metas.old) result units.new metas.new }
    ensures kept { locals.new.items ≡ locals.old.items }
    ensures floor { cx.entry.floor ≤ length metas.new }
    ensures below { take cx.entry.floor metas.new ≡ take cx.entry.floor metas.old }
    ensures count { P.stops stop.old ≤ P.stops stop.new }
    ensures rose { Rose result (P.stops stop.old) (P.stops stop.new) }
{
    let y = opening(cx.check.alloc, units, locals.as_slice(), body)?;
    let x = expanded(cx.check.alloc, units, locals.as_slice(), t)?;
    under(cx, locals, units, metas, stop, d, x, y)
}

// Two terms in the context with one more variable, of this type.
#[cycle(unifier)]
#[tactic(auto, using(lf_check::proofs::Fronts::front_push))]
pub fn under<P: Stop>(
    cx: UnifyCx<'_>,
    locals: &mut Vec<Expr>,
    units: &mut u64,
    metas: &mut Metas,
    stop: &mut P,
    domain: &Expr,
    x: Expr,
    y: Expr,
) -> Result<bool, Halt>
    requires { cx.floor ≤ length metas.old }
    ensures value { Runs ((spec.unify cx.entry.check.view.now cx.entry.check.depth) (with locals.old.items domain.now) x y units.old metas.old)
        result units.new metas.new }
    ensures kept { locals.new.items ≡ locals.old.items }
    ensures floor { cx.entry.floor ≤ length metas.new }
    ensures below { take cx.entry.floor metas.new ≡ take cx.entry.floor metas.old }
    ensures count { P.stops stop.old ≤ P.stops stop.new }
    ensures rose { Rose result (P.stops stop.old) (P.stops stop.new) }
{
    open(cx.check.alloc, locals, domain)?;
    let same = unify(cx, locals, units, metas, stop, &x, &y);
    close(locals);
    drop(x);
    drop(y);
    same
}

// Whether one head stands at as many arguments, and all parts unify; else what they changed is taken back.
#[cycle(unifier)]
#[tactic(auto, using(crate::proofs::Runs::halts), unfolding(crate::specs::Tower::by_heads))]
pub fn by_heads<P: Stop>(
    cx: UnifyCx<'_>,
    locals: &mut Vec<Expr>,
    units: &mut u64,
    metas: &mut Metas,
    stop: &mut P,
    a: &Expr,
    b: &Expr,
) -> Result<Verdict, Halt>
    requires { cx.floor ≤ length metas.old }
    ensures value { RunsAs values.verdict (tower.by_heads (spec.unify cx.entry.check.view.now cx.entry.check.depth) locals.old.items a.now b.now
        units.old metas.old) result units.new metas.new }
    ensures kept { locals.new.items ≡ locals.old.items }
    ensures floor { cx.entry.floor ≤ length metas.new }
    ensures below { take cx.entry.floor metas.new ≡ take cx.entry.floor metas.old }
    ensures count { P.stops stop.old ≤ P.stops stop.new }
    ensures rose { Rose result (P.stops stop.old) (P.stops stop.new) }
{
    let xs = arguments(cx.check.alloc, a)?;
    let ys = arguments(cx.check.alloc, b)?;
    if xs.len() != ys.len() {
        return Ok(Verdict::Undecided);
    }
    if unify_spines(
        cx,
        locals,
        units,
        metas,
        stop,
        head(a),
        head(b),
        xs.as_slice(),
        ys.as_slice(),
    )? {
        Ok(Verdict::Decided(true))
    } else {
        Ok(Verdict::Undecided)
    }
}

// Heads, and then arguments in order, or as before.
#[cycle(unifier)]
#[tactic(auto, using(crate::proofs::Runs::taken_back, crate::proofs::Floor::take_floor), unfolding(crate::specs::Tower::spines_or_as_before))]
pub fn unify_spines<P: Stop>(
    cx: UnifyCx<'_>,
    locals: &mut Vec<Expr>,
    units: &mut u64,
    metas: &mut Metas,
    stop: &mut P,
    h: &Expr,
    k: &Expr,
    xs: &[Expr],
    ys: &[Expr],
) -> Result<bool, Halt>
    requires { cx.floor ≤ length metas.old }
    ensures value { Runs (tower.spines_or_as_before (spec.unify cx.entry.check.view.now cx.entry.check.depth) locals.old.items h.now k.now xs.now
        ys.now units.old metas.old) result units.new metas.new }
    ensures kept { locals.new.items ≡ locals.old.items }
    ensures floor { cx.entry.floor ≤ length metas.new }
    ensures below { take cx.entry.floor metas.new ≡ take cx.entry.floor metas.old }
    ensures count { P.stops stop.old ≤ P.stops stop.new }
    ensures rose { Rose result (P.stops stop.old) (P.stops stop.new) }
{
    let mark = metas.mark();
    let same = spines(cx.raised(mark), locals, units, metas, stop, h, k, xs, ys);
    match same {
        Ok(true) => Ok(true),
        Ok(false) => {
            metas.undo(mark);
            Ok(false)
        }
        Err(halt) => {
            metas.undo(mark);
            Err(halt)
        }
    }
}

// Heads, and then arguments in order.
#[cycle(unifier)]
#[tactic(auto, using(crate::proofs::Runs::halts), unfolding(crate::specs::Tower::unify_spines))]
pub fn spines<P: Stop>(
    cx: UnifyCx<'_>,
    locals: &mut Vec<Expr>,
    units: &mut u64,
    metas: &mut Metas,
    stop: &mut P,
    h: &Expr,
    k: &Expr,
    xs: &[Expr],
    ys: &[Expr],
) -> Result<bool, Halt>
    requires { cx.floor ≤ length metas.old }
    ensures value { Runs (tower.unify_spines (spec.unify cx.entry.check.view.now cx.entry.check.depth) locals.old.items h.now k.now xs.now ys.now
        units.old metas.old) result units.new metas.new }
    ensures kept { locals.new.items ≡ locals.old.items }
    ensures floor { cx.entry.floor ≤ length metas.new }
    ensures below { take cx.entry.floor metas.new ≡ take cx.entry.floor metas.old }
    ensures count { P.stops stop.old ≤ P.stops stop.new }
    ensures rose { Rose result (P.stops stop.old) (P.stops stop.new) }
{
    if unify_heads(cx, locals, units, metas, stop, h, k)? {
        unify_all(cx, locals, units, metas, stop, xs, ys)
    } else {
        Ok(false)
    }
}

// Two heads.
#[cycle(unifier)]
#[tactic(auto)]
pub fn unify_heads<P: Stop>(
    cx: UnifyCx<'_>,
    locals: &mut Vec<Expr>,
    units: &mut u64,
    metas: &mut Metas,
    stop: &mut P,
    h: &Expr,
    k: &Expr,
) -> Result<bool, Halt>
    requires { cx.floor ≤ length metas.old }
    ensures value { Runs (tower.unify_heads (spec.unify cx.entry.check.view.now cx.entry.check.depth) locals.old.items h.now k.now units.old
        metas.old) result units.new metas.new }
    ensures kept { locals.new.items ≡ locals.old.items }
    ensures floor { cx.entry.floor ≤ length metas.new }
    ensures below { take cx.entry.floor metas.new ≡ take cx.entry.floor metas.old }
    ensures count { P.stops stop.old ≤ P.stops stop.new }
    ensures rose { Rose result (P.stops stop.old) (P.stops stop.new) }
{
    match heads_of(h, k) {
        Heads::Settled(same) => Ok(same),
        Heads::Levels(ls, ms) => unify_levels(cx.check.alloc, cx.floor, units, metas, ls, ms),
        Heads::Terms(x, y) => unify(cx, locals, units, metas, stop, x, y),
    }
}

// Term by term, from the left.
#[cycle(unifier)]
#[tactic(auto, using(crate::proofs::Runs::halts))]
pub fn unify_all<P: Stop>(
    cx: UnifyCx<'_>,
    locals: &mut Vec<Expr>,
    units: &mut u64,
    metas: &mut Metas,
    stop: &mut P,
    xs: &[Expr],
    ys: &[Expr],
) -> Result<bool, Halt>
    requires { cx.floor ≤ length metas.old }
    ensures value { Runs (spec.unify_all (spec.unify cx.entry.check.view.now cx.entry.check.depth) locals.old.items xs.now ys.now units.old
        metas.old) result units.new metas.new }
    ensures kept { locals.new.items ≡ locals.old.items }
    ensures floor { cx.entry.floor ≤ length metas.new }
    ensures below { take cx.entry.floor metas.new ≡ take cx.entry.floor metas.old }
    ensures count { P.stops stop.old ≤ P.stops stop.new }
    ensures rose { Rose result (P.stops stop.old) (P.stops stop.new) }
{
    match xs {
        [] => match ys {
            [] => Ok(true),
            [_y, _ys @ ..] => Ok(false),
        },
        [x, xs @ ..] => match ys {
            [] => Ok(false),
            [y, ys @ ..] => {
                if unify(cx, locals, units, metas, stop, x, y)? {
                    unify_all(cx, locals, units, metas, stop, xs, ys)
                } else {
                    Ok(false)
                }
            }
        },
    }
}
