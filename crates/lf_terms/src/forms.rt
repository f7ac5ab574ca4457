//! Parts of the forms of terms.
ghost use Rattle.std.specs.Prelude.{◌≡◌, ◌≤◌, ◌∷◌, [], ℕ, IfOk, length, option_copied, take};
ghost use Rattle.lf_core.specs.Term.{lit};
ghost use Rattle.lf_elaboration.specs.Application as application;
ghost use Rattle.lf_elaboration.specs.Part as parts;
ghost use Rattle.lf_elaboration.specs.Run as run;
ghost use Rattle.lf_elaboration.specs.Terms as spec;
ghost use Rattle.lf_rules.specs.Environment.{nat_type};
ghost use Rattle.lf_part.specs.Runs.{Runs, RunsAs, Calm, Rose};
ghost use Rattle.lf_syntax.specs.Tree.{items_of};
ghost use Rattle.lf_part.specs.Values as own;
ghost use Rattle.lf_terms.specs.Forms as forms;
ghost use Rattle.lf_terms.specs.Holes as holes;

use crate::trees::shared_items;
use lf_base::Stop;
use lf_core::{Expr, Level, Name, NoMemory};
use lf_elaboration::Hole;
use lf_forms::{
    Binding, against, agreed, by_block, lambda_over, opened_body, pi_over, room, taken_from,
};
use lf_name::{Binder, BinderKind};
use lf_part::{Ended, Locals, Part, Sorted, State, Synth, Typed, closed_over, level_of};
use lf_steps::{instance, put};
use lf_syntax::{Item, LevelTerm, Num};
use lf_text::Op;
use sqlite_items::Items;
use std::alloc::Global;

/// A type, as a term in its sort, which is unified with the expected type.
#[tactic(auto, using(lf_part::proofs::Runs::check_halts, lf_part::proofs::Runs::told))]
pub fn in_sort<S: Synth, P: Stop>(
    part: Part<'_, S>,
    locals: &mut Locals,
    units: &mut u64,
    state: &mut State,
    stop: &mut P,
    at: usize,
    expected: Option<&Expr>,
    sorted: Sorted,
) -> Result<Typed, Ended>
    requires { part.floor ≤ length state.old.metas }
    ensures value { Runs (spec.in_sort (own.part S.meaning part.entry)
        (own.calls (own.part S.meaning part.entry) part.entry.depth) locals.old at (option_copied expected.entry) (run.gives sorted)
        units.old (own.state state.old)) result units.new (own.state state.new) }
    ensures kept { locals.new ≡ locals.old }
    ensures floor { part.entry.floor ≤ length state.new.metas }
    ensures below { take part.entry.floor state.new.metas ≡ take part.entry.floor state.old.metas }
    ensures count { P.stops stop.old ≤ P.stops stop.new }
    ensures rose { Rose result (P.stops stop.old) (P.stops stop.new) }
{
    let Sorted { term, level } = sorted;
    let sort = put(units, Expr::sort(part.alloc, level)?)?;
    against(part, locals, units, state, stop, at, expected, term, sort)
}

// The level that is written, or 0.
#[tactic(auto, using(lf_part::proofs::Runs::halts))]
fn level_or_zero<S: Synth>(part: Part<'_, S>, level: Option<&LevelTerm>) -> Result<Level, Ended>
    ensures value { (u : ℕ) (s : parts.State) → Runs (spec.level_or_zero (own.part S.meaning part.entry).levels (option_copied level.entry) u s) result u s }
    ensures calm { Calm result }
{
    match level {
        None => Ok(Level::zero(part.alloc)?),
        Some(level) => level_of(part.alloc, part.levels, level),
    }
}

/// The sort of this level.
pub fn sort_term<S: Synth, P: Stop>(
    part: Part<'_, S>,
    locals: &mut Locals,
    units: &mut u64,
    state: &mut State,
    stop: &mut P,
    at: usize,
    expected: Option<&Expr>,
    level: Level,
) -> Result<Typed, Ended>
    requires { part.floor ≤ length state.old.metas }
    ensures value { Runs (spec.sort_term (own.part S.meaning part.entry)
        (own.calls (own.part S.meaning part.entry) part.entry.depth) locals.old at (option_copied expected.entry) level
        units.old (own.state state.old)) result units.new (own.state state.new) }
    ensures kept { locals.new ≡ locals.old }
    ensures floor { part.entry.floor ≤ length state.new.metas }
    ensures below { take part.entry.floor state.new.metas ≡ take part.entry.floor state.old.metas }
    ensures count { P.stops stop.old ≤ P.stops stop.new }
    ensures rose { Rose result (P.stops stop.old) (P.stops stop.new) }
{
    let kept = level.copy(part.alloc)?;
    let above = Level::succ(part.alloc, kept)?;
    let term = Expr::sort(part.alloc, level)?;
    let sorted = Sorted { term, level: above };
    in_sort(part, locals, units, state, stop, at, expected, sorted)
}

/// `Type`, at the written level.
#[tactic(auto, using(lf_part::proofs::Runs::halts))]
pub fn type_term<S: Synth, P: Stop>(
    part: Part<'_, S>,
    locals: &mut Locals,
    units: &mut u64,
    state: &mut State,
    stop: &mut P,
    at: usize,
    expected: Option<&Expr>,
    level: Option<&LevelTerm>,
) -> Result<Typed, Ended>
    requires { part.floor ≤ length state.old.metas }
    ensures value { Runs (spec.type_term (own.part S.meaning part.entry)
        (own.calls (own.part S.meaning part.entry) part.entry.depth) locals.old at (option_copied expected.entry) (option_copied level.entry)
        units.old (own.state state.old)) result units.new (own.state state.new) }
    ensures kept { locals.new ≡ locals.old }
    ensures floor { part.entry.floor ≤ length state.new.metas }
    ensures below { take part.entry.floor state.new.metas ≡ take part.entry.floor state.old.metas }
    ensures count { P.stops stop.old ≤ P.stops stop.new }
    ensures rose { Rose result (P.stops stop.old) (P.stops stop.new) }
{
    let level = level_or_zero(part, level)?;
    let above = Level::succ(part.alloc, level)?;
    sort_term(part, locals, units, state, stop, at, expected, above)
}

/// `Sort`, of the written level.
#[tactic(auto, using(lf_part::proofs::Runs::halts))]
pub fn sort_term_at<S: Synth, P: Stop>(
    part: Part<'_, S>,
    locals: &mut Locals,
    units: &mut u64,
    state: &mut State,
    stop: &mut P,
    at: usize,
    expected: Option<&Expr>,
    level: Option<&LevelTerm>,
) -> Result<Typed, Ended>
    requires { part.floor ≤ length state.old.metas }
    ensures value { Runs (spec.sort_term_at (own.part S.meaning part.entry)
        (own.calls (own.part S.meaning part.entry) part.entry.depth) locals.old at (option_copied expected.entry) (option_copied level.entry)
        units.old (own.state state.old)) result units.new (own.state state.new) }
    ensures kept { locals.new ≡ locals.old }
    ensures floor { part.entry.floor ≤ length state.new.metas }
    ensures below { take part.entry.floor state.new.metas ≡ take part.entry.floor state.old.metas }
    ensures count { P.stops stop.old ≤ P.stops stop.new }
    ensures rose { Rose result (P.stops stop.old) (P.stops stop.new) }
{
    let level = level_or_zero(part, level)?;
    sort_term(part, locals, units, state, stop, at, expected, level)
}

/// A numeral, of type `Nat`.
pub fn numeral<S: Synth, P: Stop>(
    part: Part<'_, S>,
    locals: &mut Locals,
    units: &mut u64,
    state: &mut State,
    stop: &mut P,
    number: Num,
    expected: Option<&Expr>,
) -> Result<Typed, Ended>
    requires { part.floor ≤ length state.old.metas }
    ensures value { Runs (spec.against (own.part S.meaning part.entry)
        (own.calls (own.part S.meaning part.entry) part.entry.depth) locals.old number.at (option_copied expected.entry) (lit number.value) nat_type
        units.old (own.state state.old)) result units.new (own.state state.new) }
    ensures kept { locals.new ≡ locals.old }
    ensures floor { part.entry.floor ≤ length state.new.metas }
    ensures below { take part.entry.floor state.new.metas ≡ take part.entry.floor state.old.metas }
    ensures count { P.stops stop.old ≤ P.stops stop.new }
    ensures rose { Rose result (P.stops stop.old) (P.stops stop.new) }
{
    let term = Expr::lit(part.alloc, number.value)?;
    let name = Name::one(part.alloc, "Nat")?;
    let ty = Expr::constant(part.alloc, name, Items::new(part.alloc))?;
    against(
        part, locals, units, state, stop, number.at, expected, term, ty,
    )
}

/// The codomain of an expected pi, opened by the next local; without one, a test that there is a number for that local.
pub fn opened_codomain(
    alloc: Global,
    units: &mut u64,
    locals: &Locals,
    pi: Option<&Binding>,
) -> Result<Option<Expr>, Ended>
    ensures value { (s : parts.State) → Runs (spec.opened_codomain locals.now.types (option_copied pi.entry) units.old s) result units.new s }
    ensures calm { Calm result }
{
    match pi {
        None => {
            room(locals)?;
            Ok(None)
        }
        Some(pi) => opened_body(alloc, units, locals, &pi.body),
    }
}

/// The type of a lambda is unified with the expected one, unless that is a pi, which is used up already.
pub fn agreed_unless<S: Synth, P: Stop>(
    part: Part<'_, S>,
    locals: &mut Locals,
    units: &mut u64,
    state: &mut State,
    stop: &mut P,
    at: usize,
    pi: Option<&Binding>,
    ty: &Expr,
    expected: Option<&Expr>,
) -> Result<(), Ended>
    requires { part.floor ≤ length state.old.metas }
    ensures value { Runs (spec.agreed_unless (option_copied pi.entry) (application.agreed (own.part S.meaning part.entry)
        (own.calls (own.part S.meaning part.entry) part.entry.depth) locals.old at ty.now (option_copied expected.entry))
        units.old (own.state state.old)) result units.new (own.state state.new) }
    ensures kept { locals.new ≡ locals.old }
    ensures floor { part.entry.floor ≤ length state.new.metas }
    ensures below { take part.entry.floor state.new.metas ≡ take part.entry.floor state.old.metas }
    ensures count { P.stops stop.old ≤ P.stops stop.new }
    ensures rose { Rose result (P.stops stop.old) (P.stops stop.new) }
{
    match pi {
        None => {
            agreed(part, locals, units, state, stop, at, ty, expected)?;
            Ok(())
        }
        Some(_) => Ok(()),
    }
}

fn explicit(alloc: Global, name: &Name) -> Result<Binder, NoMemory>
    ensures { IfOk result (λ b. b ≡ spec.explicit name.now) }
{
    Ok(Binder {
        name: name.copy(alloc)?,
        kind: BinderKind::Explicit,
    })
}

/// An arrow between two types, whose binder is called `a`.
#[tactic(auto, using(lf_part::proofs::Runs::check_halts, lf_part::proofs::Runs::told))]
pub fn arrow_over(
    alloc: Global,
    units: &mut u64,
    domain: Sorted,
    codomain: Sorted,
) -> Result<Sorted, Ended>
    ensures value { (s : parts.State) → Runs (forms.arrow_over domain codomain units.old s) result units.new s }
    ensures calm { Calm result }
{
    let binder = explicit(alloc, &Name::one(alloc, "a")?)?;
    let Sorted { term, level } = domain;
    let pi = Expr::pi(alloc, binder, term, codomain.term)?;
    let pi = put(units, pi)?;
    let level = Level::imax(alloc, level, codomain.level)?;
    Ok(Sorted { term: pi, level })
}

// The `let` of this value and this closed body, whose type is at the value.
#[tactic(auto, using(lf_part::proofs::Runs::halts, lf_part::proofs::Runs::check_halts, lf_part::proofs::Runs::told))]
fn let_closed(
    alloc: Global,
    units: &mut u64,
    state: &State,
    k: usize,
    name: &Name,
    value: Typed,
    body: Expr,
    ty: &Expr,
) -> Result<Typed, Ended>
    ensures value { Runs (forms.let_closed k name.now value ty.now body units.old (own.state state.now)) result units.new (own.state state.now) }
    ensures calm { Calm result }
{
    let closed = closed_over(alloc, units, state, k, ty)?;
    let whole = instance(alloc, units, &closed, &value.term)?;
    drop(closed);
    let binder = explicit(alloc, name)?;
    let Typed { term, ty } = value;
    let term = put(units, Expr::let_in(alloc, binder, ty, term, body)?)?;
    Ok(Typed { term, ty: whole })
}

/// The `let` of a value over the local of number `k`, of a body and its type.
#[tactic(auto, using(lf_part::proofs::Runs::halts), unfolding(crate::specs::Forms::let_of))]
pub fn let_of(
    alloc: Global,
    units: &mut u64,
    state: &State,
    k: usize,
    name: &Name,
    value: Typed,
    body: &Expr,
    ty: &Expr,
) -> Result<Typed, Ended>
    ensures value { Runs (forms.let_of k name.now value body.now ty.now units.old (own.state state.now)) result units.new
        (own.state state.now) }
    ensures calm { Calm result }
{
    let closed = closed_over(alloc, units, state, k, body)?;
    let_closed(alloc, units, state, k, name, value, closed, ty)
}

/// The lambda over the local of number `k`, of a body and its type, and its pi.
#[tactic(auto, unfolding(crate::specs::Forms::lambda_of))]
pub fn lambda_of(
    alloc: Global,
    units: &mut u64,
    state: &State,
    k: usize,
    binder: &Binder,
    domain: &Expr,
    term: &Expr,
    ty: &Expr,
) -> Result<Typed, Ended>
    ensures value { Runs (forms.lambda_of k binder.now domain.now term.now ty.now units.old (own.state state.now)) result units.new (own.state state.now) }
    ensures calm { Calm result }
{
    lambda_over(alloc, units, state, k, binder, domain, term, ty)
}

/// The pi over the local of number `k`, of a domain and a codomain with the levels of their sorts.
#[tactic(auto, unfolding(crate::specs::Forms::pi_of))]
pub fn pi_of(
    alloc: Global,
    units: &mut u64,
    state: &State,
    k: usize,
    binder: &Binder,
    domain: &Expr,
    domain_level: Level,
    codomain: &Expr,
    codomain_level: Level,
) -> Result<Sorted, Ended>
    ensures value { Runs (forms.pi_of k binder.now domain.now domain_level codomain.now codomain_level units.old (own.state state.now)) result units.new
        (own.state state.now) }
    ensures calm { Calm result }
{
    pi_over(
        alloc,
        units,
        state,
        k,
        binder,
        domain,
        domain_level,
        codomain,
        codomain_level,
    )
}

/// The holes whose metavariables are numbered from `start` on no longer wait, and are given in order.
#[tactic(auto, unfolding(crate::specs::Holes::holes_from))]
pub fn holes_from(alloc: Global, state: &mut State, start: u32) -> Result<Vec<Hole>, Ended>
    ensures value { (u : ℕ) → RunsAs (λ v. v.items) (holes.holes_from start u (own.state state.old)) result u (own.state state.new) }
    ensures calm { Calm result }
    ensures metas { state.new.metas ≡ state.old.metas }
{
    taken_from(alloc, state, start)
}

/// `by`, with its items.
#[tactic(auto, using(crate::proofs::Lists::items_back))]
pub fn block_term<S: Synth>(
    part: Part<'_, S>,
    locals: &Locals,
    state: &mut State,
    at: usize,
    items: &[Item],
    expected: Option<&Expr>,
) -> Result<Typed, Ended>
    requires { part.floor ≤ length state.old.metas }
    ensures value { (u : ℕ) → Runs (spec.by_block locals.now at (spec.items_in (items_of items.now)) (option_copied expected.entry) u
        (own.state state.old)) result u (own.state state.new) }
    ensures floor { part.entry.floor ≤ length state.new.metas }
    ensures below { take part.entry.floor state.new.metas ≡ take part.entry.floor state.old.metas }
    ensures calm { Calm result }
{
    let shared = shared_items(part.alloc, items)?;
    by_block(part, locals, state, at, shared, expected)
}

fn of_nat(alloc: Global, last: &str) -> Result<Name, NoMemory>
    ensures { IfOk result (λ n. n ≡ spec.of_nat last.now) }
{
    Name::one(alloc, "Nat")?.child(alloc, last)
}

/// The constant that an operator stands for; an arrow is none.
pub fn operator_name(alloc: Global, op: Op) -> Result<Option<Name>, NoMemory>
    ensures { IfOk result (λ n. n ≡ forms.operator_name op) }
{
    let name = match op {
        Op::Arrow => return Ok(None),
        Op::Iff => Name::one(alloc, "Iff")?,
        Op::Or => Name::one(alloc, "Or")?,
        Op::And => Name::one(alloc, "And")?,
        Op::Eq => Name::one(alloc, "Eq")?,
        Op::Ne => Name::one(alloc, "Ne")?,
        Op::Add => of_nat(alloc, "add")?,
        Op::Sub => of_nat(alloc, "sub")?,
        Op::Mul => of_nat(alloc, "mul")?,
        Op::Div => of_nat(alloc, "div")?,
        Op::Mod => of_nat(alloc, "mod")?,
    };
    Ok(Some(name))
}
