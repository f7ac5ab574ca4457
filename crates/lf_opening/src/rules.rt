//! The terms of rules.
ghost use Rattle.std.specs.Prelude.{◌≡◌, ◌≤◌, IfOk, length, option_map, take};
ghost use Rattle.lf_core.specs.Term.{level_zero};
ghost use Rattle.lf_checker.specs.LevelTest as levels;
ghost use Rattle.lf_elaboration.specs.Rewrite as spec;
ghost use Rattle.lf_part.specs.Runs.{Runs, Rose};
ghost use Rattle.lf_part.specs.Says.{proof_item};
ghost use Rattle.lf_part.specs.Values as own;
ghost use Rattle.lf_opening.specs.Rules as rules;

use crate::opened::Opened;
use crate::opening::open_all;
use crate::rewriting::{fails_as, rewrite_by};
use lf_base::Stop;
use lf_core::{Expr, Level, NoMemory};
use lf_items::{Equation, Step, as_equation, symmetric};
use lf_msg::ProofItem;
use lf_part::{Ended, Locals, Mark, Part, State, Synth, Typed, instantiated, sort_of};
use lf_steps::{is_same, put};
use std::alloc::Global;

fn is_zero(alloc: Global, level: Level) -> Result<bool, NoMemory>
    ensures { IfOk result (λ b. b ≡ levels.is_same level level_zero) }
{
    let zero = Level::zero(alloc)?;
    is_same(alloc, &level, &zero)
}

/// The goal of the item at this place, in bytes, is a type in `Prop`; else the item fails. A refusal of the checker is the error of the item.
#[tactic(auto, using(lf_part::proofs::Runs::halts), unfolding(crate::specs::Rules::in_prop))]
pub fn in_prop<S: Synth, P: Stop>(
    part: Part<'_, S>,
    locals: &mut Locals,
    units: &mut u64,
    state: &State,
    stop: &mut P,
    at: usize,
    item: ProofItem,
    goal: &Expr,
) -> Result<(), Ended>
    ensures value { Runs (rules.in_prop (own.part S.meaning part.entry) (own.calls (own.part S.meaning part.entry) part.entry.depth) locals.old at
        (proof_item item) goal.now units.old (own.state state.now)) result units.new (own.state state.now) }
    ensures kept { locals.new ≡ locals.old }
    ensures count { P.stops stop.old ≤ P.stops stop.new }
    ensures rose { Rose result (P.stops stop.old) (P.stops stop.new) }
{
    let level = sort_of(part, locals, units, state, stop, at, goal)?;
    if is_zero(part.alloc, level)? {
        return Ok(());
    }
    Err(fails_as(at, item))
}

/// The equation; with `←` its sides change places.
pub fn sided(back: bool, equation: Equation) -> Equation
    ensures { result ≡ spec.sided back equation }
{
    if !back {
        return equation;
    }
    let Equation {
        levels,
        ty,
        left,
        right,
    } = equation;
    Equation {
        levels,
        ty,
        left: right,
        right: left,
    }
}

/// The proof of the equation; with `←` one of the equation whose sides have changed places.
pub fn proof_sided(
    alloc: Global,
    back: bool,
    equation: &Equation,
    proof: &Expr,
) -> Result<Expr, NoMemory>
    ensures { IfOk result (λ h. h ≡ spec.proof_sided back equation.now proof.now) }
{
    if back {
        return symmetric(alloc, equation, proof);
    }
    proof.copy(alloc)
}

// The step by a proof, where its type is an equation.
#[tactic(auto, using(lf_part::proofs::Runs::halts, lf_part::proofs::Runs::check_halts, lf_part::proofs::Runs::check_ends, lf_part::proofs::Runs::told))]
fn rewrite_with<S: Synth, P: Stop>(
    part: Part<'_, S>,
    locals: &mut Locals,
    units: &mut u64,
    state: &mut State,
    stop: &mut P,
    at: usize,
    item: ProofItem,
    back: bool,
    mark: Mark,
    goal: &Expr,
    proof: &Expr,
    equation: Option<Equation>,
) -> Result<Step, Ended>
    requires { part.floor ≤ length state.old.metas }
    ensures value { Runs (rules.rewrite_with (own.part S.meaning part.entry) (own.calls (own.part S.meaning part.entry) part.entry.depth) locals.old
        at (proof_item item) back mark.terms mark.levels goal.now proof.now equation units.old (own.state state.old)) result units.new (own.state
        state.new) }
    ensures kept { locals.new ≡ locals.old }
    ensures floor { part.entry.floor ≤ length state.new.metas }
    ensures below { take part.entry.floor state.new.metas ≡ take part.entry.floor state.old.metas }
    ensures count { P.stops stop.old ≤ P.stops stop.new }
    ensures rose { Rose result (P.stops stop.old) (P.stops stop.new) }
{
    match equation {
        None => Err(fails_as(at, item)),
        Some(equation) => {
            let proof = put(units, proof_sided(part.alloc, back, &equation, proof)?)?;
            let sided = sided(back, equation);
            rewrite_by(
                part, locals, units, state, stop, at, item, mark, goal, &sided, &proof,
            )
        }
    }
}

#[tactic(auto, unfolding(crate::specs::Rules::rewrite_opened))]
fn rewrite_opened<S: Synth, P: Stop>(
    part: Part<'_, S>,
    locals: &mut Locals,
    units: &mut u64,
    state: &mut State,
    stop: &mut P,
    at: usize,
    item: ProofItem,
    back: bool,
    mark: Mark,
    goal: &Expr,
    proof: &Expr,
    ty: &Expr,
) -> Result<Step, Ended>
    requires { part.floor ≤ length state.old.metas }
    ensures value { Runs (rules.rewrite_opened (own.part S.meaning part.entry) (own.calls (own.part S.meaning part.entry) part.entry.depth) locals.old
        at (proof_item item) back mark.terms mark.levels goal.now proof.now ty.now units.old (own.state state.old)) result units.new (own.state
        state.new) }
    ensures kept { locals.new ≡ locals.old }
    ensures floor { part.entry.floor ≤ length state.new.metas }
    ensures below { take part.entry.floor state.new.metas ≡ take part.entry.floor state.old.metas }
    ensures count { P.stops stop.old ≤ P.stops stop.new }
    ensures rose { Rose result (P.stops stop.old) (P.stops stop.new) }
{
    let equation = as_equation(part.alloc, ty)?;
    rewrite_with(
        part, locals, units, state, stop, at, item, back, mark, goal, proof, equation,
    )
}

// The term for all pis of its type.
#[tactic(auto, using(lf_part::proofs::Runs::halts), unfolding(crate::specs::Rules::rule_opened, crate::specs::Openings::opened_whole))]
fn rule_opened<S: Synth, P: Stop>(
    part: Part<'_, S>,
    locals: &mut Locals,
    units: &mut u64,
    state: &mut State,
    stop: &mut P,
    at: usize,
    term: Expr,
    ty: &Expr,
) -> Result<Opened, Ended>
    requires { part.floor ≤ length state.old.metas }
    ensures value { Runs (rules.rule_opened (own.calls (own.part S.meaning part.entry) part.entry.depth) locals.old at term ty.now units.old
        (own.state state.old)) result units.new (own.state state.new) }
    ensures kept { locals.new ≡ locals.old }
    ensures floor { part.entry.floor ≤ length state.new.metas }
    ensures below { take part.entry.floor state.new.metas ≡ take part.entry.floor state.old.metas }
    ensures count { P.stops stop.old ≤ P.stops stop.new }
    ensures rose { Rose result (P.stops stop.old) (P.stops stop.new) }
{
    let ty = instantiated(units, state, ty)?;
    let given = Vec::new(part.alloc);
    open_all(
        part,
        locals,
        units,
        state,
        stop,
        at,
        Opened { term, ty, given },
    )
}

/// The step of a rule whose elaborated term stands at `term_at`, for the item at `at`, both in bytes: the term's pis are opened, and its type
/// has to be an equation, by which the goal is rewritten; with `←`, from right to left. The item fails where it is none, and where no subterm
/// of the goal unifies with the equation's left side.
#[tactic(auto, using(lf_part::proofs::Runs::halts), unfolding(crate::specs::Rules::by_rule))]
pub fn by_rule<S: Synth, P: Stop>(
    part: Part<'_, S>,
    locals: &mut Locals,
    units: &mut u64,
    state: &mut State,
    stop: &mut P,
    at: usize,
    item: ProofItem,
    term_at: usize,
    back: bool,
    mark: Mark,
    goal: &Expr,
    rule: Typed,
) -> Result<Step, Ended>
    requires { part.floor ≤ length state.old.metas }
    ensures value { Runs (rules.by_rule (own.part S.meaning part.entry) (own.calls (own.part S.meaning part.entry) part.entry.depth) locals.old at
        (proof_item item) term_at back mark.terms mark.levels goal.now rule.term rule.ty units.old (own.state state.old)) result units.new (own.state
        state.new) }
    ensures kept { locals.new ≡ locals.old }
    ensures floor { part.entry.floor ≤ length state.new.metas }
    ensures below { take part.entry.floor state.new.metas ≡ take part.entry.floor state.old.metas }
    ensures count { P.stops stop.old ≤ P.stops stop.new }
    ensures rose { Rose result (P.stops stop.old) (P.stops stop.new) }
{
    let Typed { term, ty } = rule;
    let opened = rule_opened(part, locals, units, state, stop, term_at, term, &ty)?;
    rewrite_opened(
        part,
        locals,
        units,
        state,
        stop,
        at,
        item,
        back,
        mark,
        goal,
        &opened.term,
        &opened.ty,
    )
}
