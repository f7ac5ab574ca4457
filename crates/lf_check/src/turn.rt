//! What a turn of reduction does after its nested calls.
ghost use Rattle.std.specs.Prelude.{◌≡◌, ◌∷◌, [], IfOk, take, drop};
ghost use Rattle.lf_core.specs.Spine as spine;
ghost use Rattle.lf_core.specs.Term.{const};
ghost use Rattle.lf_checker.specs.Run as run;
ghost use Rattle.lf_checker.specs.Normalize.{as_literal as as_lit};
ghost use Rattle.lf_checker.specs.Whnf as whnf;
ghost use Rattle.lf_check.specs.Bodies as bodies;
ghost use Rattle.lf_steps.specs.Runs.{Runs, RunsAs, Calm};
ghost use Rattle.lf_steps.specs.Values as values;
ghost use Rattle.lf_check.specs.Steps as steps;
ghost use Rattle.lf_check.specs.Tower as tower;
ghost use Rattle.std.specs.Option.{option_copied};

use lf_core::{Expr, ExprNode, Level, LitOut, Name, NoMemory, copy_all};
use lf_env::View;
use lf_lit::{apply as compute, operation};
use lf_steps::{
    Halt, Progress, Recursor, Seen, Split, Structure, Verdict, apply, arguments as all_arguments,
    as_number, by_unfolding, head, is_built, is_nat_succ, is_nat_zero, literal_term, need, put,
    see, structure_of, unfold_head,
};
use sqlite_items::at as item_at;
use std::alloc::Global;

// A constant without levels unfolded before these arguments, where that is wanted.
fn delta_turn(
    alloc: Global,
    view: &View,
    units: &mut u64,
    delta: bool,
    name: &Name,
    arguments: &[Expr],
) -> Result<Progress, Halt>
    ensures value { RunsAs values.progress (whnf.delta_turn view.now delta name.now [] arguments.now units.old) result units.new }
    ensures calm { Calm result }
{
    if !delta {
        return Ok(Progress::Stays);
    }
    match see(alloc, view, name)? {
        Seen::Known(info) => unfold_head(alloc, view, units, name, info, &[], arguments),
        Seen::Unknown => Ok(Progress::Stays),
        Seen::Missing(key) => Err(need(units, key)),
    }
}

// What the operation of this name gives, where it is one and both terms are numbers.
fn computed(name: &Name, a: &Expr, b: &Expr) -> Option<LitOut>
    ensures { result ≡ steps.computed name.now (whnf.as_number a.now) (whnf.as_number b.now) }
{
    let a = as_number(a)?;
    let b = as_number(b)?;
    compute(operation(name)?, a, b)
}

/// The operation of this name on the numbers `a` and `b`; else the constant unfolded before `x` and `y`.
#[tactic(auto, using(crate::proofs::HeadSteps::on_numbers_is))]
pub fn on_numbers(
    alloc: Global,
    view: &View,
    units: &mut u64,
    delta: bool,
    name: &Name,
    a: &Expr,
    b: &Expr,
    x: Expr,
    y: Expr,
) -> Result<Progress, Halt>
    ensures value { RunsAs values.progress (whnf.on_numbers name.now (whnf.as_number a.now) (whnf.as_number b.now)
        (whnf.delta_turn view.now delta name.now [] (x ∷ y ∷ [])) units.old) result units.new }
    ensures calm { Calm result }
{
    match computed(name, a, b) {
        Some(out) => Ok(Progress::Next(literal_term(alloc, out)?)),
        None => {
            let mut all = Vec::new(alloc);
            all.push(x)?;
            all.push(y)?;
            delta_turn(alloc, view, units, delta, name, all.as_slice())
        }
    }
}

fn field_at<'a>(
    structure: Structure<'_>,
    place: u32,
    head: &Expr,
    fields: &'a [Expr],
) -> Option<&'a Expr>
    ensures { option_copied result ≡ whnf.field_at (values.structure structure.entry) place head.now fields.now }
{
    match head.node() {
        ExprNode::Const(name, _) => {
            if is_built(structure, name, fields) {
                let own = (structure.params as usize).min(fields.len());
                item_at(&fields[own..], place as usize)
            } else {
                None
            }
        }
        _ => None,
    }
}

fn field_before(
    alloc: Global,
    units: &mut u64,
    field: Option<&Expr>,
    arguments: &[Expr],
) -> Result<Progress, Halt>
    ensures value { RunsAs values.progress (whnf.projected arguments.now (option_copied field.entry) units.old) result units.new }
    ensures calm { Calm result }
{
    match field {
        Some(field) => {
            let field = field.copy(alloc)?;
            let term = put(units, apply(alloc, field, arguments)?)?;
            Ok(Progress::Next(term))
        }
        None => Ok(Progress::Stays),
    }
}

/// The field of this place before the arguments, where `form` is the constructor of the structure `name` with all its
/// arguments.
pub fn projected(
    alloc: Global,
    view: &View,
    units: &mut u64,
    name: &Name,
    place: u32,
    form: &Expr,
    arguments: &[Expr],
) -> Result<Progress, Halt>
    ensures value { RunsAs values.progress (steps.projected view.now name.now place form.now arguments.now units.old) result units.new }
    ensures calm { Calm result }
{
    match structure_of(alloc, view, units, name)? {
        Some(structure) => {
            let fields = all_arguments(alloc, form)?;
            let field = field_at(structure, place, head(form), fields.as_slice());
            field_before(alloc, units, field, arguments)
        }
        None => Ok(Progress::Stays),
    }
}

// The levels of a recursor are its motive's and then the type's.
fn own_levels(alloc: Global, levels: &[Level]) -> Result<sqlite_items::Items<Level>, NoMemory>
    ensures { IfOk result (λ all. all ≡ drop 1 levels.now) }
{
    copy_all(alloc, &levels[levels.len().min(1)..])
}

/// The constructor `name` at the recursor's parameters, as it takes the place of a major premise.
pub fn constructor_at(
    alloc: Global,
    units: &mut u64,
    name: &Name,
    levels: &[Level],
    recursor: Recursor<'_>,
    split: Split<'_>,
) -> Result<Expr, Halt>
    ensures value { Runs (run.put (spine.apply (const name.now (drop 1 levels.now)) (take recursor.entry.params split.entry.before.now)) units.old) result
        units.new }
    ensures calm { Calm result }
{
    let levels = own_levels(alloc, levels)?;
    let constructor = Expr::constant(alloc, name.copy(alloc)?, levels)?;
    let count = (recursor.params as usize).min(split.before.len());
    put(units, apply(alloc, constructor, &split.before[..count])?)
}

/// The two terms with the definition of greater height at a head unfolded, at equal heights both.
#[tactic(auto, unfolding(crate::specs::Tower::by_unfolding))]
pub fn unfold_heads(
    alloc: Global,
    view: &View,
    units: &mut u64,
    a: &Expr,
    b: &Expr,
) -> Result<Verdict, Halt>
    ensures value { RunsAs values.verdict (tower.by_unfolding view.now a.now b.now units.old) result units.new }
    ensures calm { Calm result }
{
    by_unfolding(alloc, view, units, a, b)
}

// The number that a literal, `Nat.zero` or the successor of a literal is, where it isn't written as a literal.
fn literal_of(term: &Expr) -> Option<u128>
    ensures { as_lit term.now ≡ bodies.literal_or term.now result }
{
    match term.node() {
        ExprNode::Const(_, _) if is_nat_zero(term) => Some(0),
        ExprNode::App(f, a) => match a.node() {
            ExprNode::Lit(number) if is_nat_succ(f) => number.checked_add(1),
            _ => None,
        },
        _ => None,
    }
}

/// `Nat.zero` and the successor of a literal as literals.
pub fn as_literal(alloc: Global, term: Expr) -> Result<Expr, NoMemory>
    ensures { IfOk result (λ t. t ≡ as_lit term) }
{
    match literal_of(&term) {
        Some(number) => {
            drop(term);
            Expr::lit(alloc, number)
        }
        None => Ok(term),
    }
}
