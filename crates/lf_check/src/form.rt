//! Which rule of equality the forms of two terms ask for, before any nested call.
ghost use Rattle.std.specs.Prelude.{◌≡◌, IfOk, option_map};
ghost use Rattle.lf_core.specs.Term.{Term, lit, proj};
ghost use Rattle.lf_rules.specs.Environment.{Context};
ghost use Rattle.lf_checker.specs.Calls.{Calls};
ghost use Rattle.lf_checker.specs.Equal as spec;
ghost use Rattle.lf_checker.specs.Infer as infer;
ghost use Rattle.lf_checker.specs.Run as run;
ghost use Rattle.lf_steps.specs.Values as values;
ghost use Rattle.lf_steps.specs.Runs.{Runs, Calm};
ghost use Rattle.lf_check.specs.Forms as forms;
ghost use Rattle.lf_check.specs.Tower as tower;

use lf_core::{Expr, ExprNode, Name, NoMemory};
use lf_steps::{Halt, Verdict, are_same, is_nat_succ, is_nat_zero, is_same, paid};
use std::alloc::Global;

/// Two sorts settle it; two pis and two lambdas ask for domains and bodies: a domain and its body, and the other two.
#[derive(Drop)]
pub enum Form<'a> {
    Settled(bool),
    Binders(&'a Expr, &'a Expr, &'a Expr, &'a Expr),
    Other,
}

/// Which of two terms is a lambda, where just one is.
#[derive(Clone, Copy, Debug, PartialEq, Eq)]
pub enum Side {
    Left,
    Right,
    Neither,
}

/// What the forms of two terms ask for.
#[tactic(auto, unfolding(crate::specs::Tower::by_form))]
pub fn form_of<'a>(alloc: Global, a: &'a Expr, b: &'a Expr) -> Result<Form<'a>, NoMemory>
    ensures { IfOk result (λ f. (c : Calls) (C : Context) → tower.by_form c C a.now b.now ≡ forms.by_form c C f) }
{
    match (a.node(), b.node()) {
        (ExprNode::Sort(l), ExprNode::Sort(m)) => Ok(Form::Settled(is_same(alloc, l, m)?)),
        (ExprNode::Pi(_, d, x), ExprNode::Pi(_, e, y)) => Ok(Form::Binders(d, x, e, y)),
        (ExprNode::Lam(_, d, x), ExprNode::Lam(_, e, y)) => Ok(Form::Binders(d, x, e, y)),
        _ => Ok(Form::Other),
    }
}

/// Which of the two is a lambda.
#[tactic(auto, unfolding(crate::specs::Tower::by_eta))]
pub fn side_of(a: &Expr, b: &Expr) -> Side
    ensures { (c : Calls) (C : Context) → tower.by_eta c C a.now b.now ≡ forms.by_eta c C a.now b.now result }
{
    match (a.node(), b.node()) {
        (ExprNode::Lam(_, _, _), ExprNode::Lam(_, _, _)) => Side::Neither,
        (ExprNode::Lam(_, _, _), _) => Side::Left,
        (_, ExprNode::Lam(_, _, _)) => Side::Right,
        _ => Side::Neither,
    }
}

// A number on the left.
fn number_against(alloc: Global, number: u128, other: &Expr) -> Result<Verdict, NoMemory>
    ensures { IfOk result (λ v. (c : Calls) (C : Context) → spec.by_literals c C (lit number) other.now ≡ forms.compared c C (values.verdict v)) }
{
    match other.node() {
        ExprNode::Lit(_) => Ok(Verdict::Decided(false)),
        ExprNode::Const(_, _) => {
            if number == 0 && is_nat_zero(other) {
                Ok(Verdict::Decided(true))
            } else {
                Ok(Verdict::Undecided)
            }
        }
        ExprNode::App(f, t) => {
            if number > 0 && is_nat_succ(f) {
                Ok(Verdict::Again(Expr::lit(alloc, number - 1)?, t.copy(alloc)?))
            } else {
                Ok(Verdict::Undecided)
            }
        }
        _ => Ok(Verdict::Undecided),
    }
}

// A number on the right of what is none.
fn against_number(alloc: Global, other: &Expr, number: u128) -> Result<Verdict, NoMemory>
    ensures { IfOk result (λ v. (c : Calls) (C : Context) → spec.by_literals c C other.now (lit number) ≡ forms.compared c C (values.verdict v)) }
{
    match other.node() {
        ExprNode::Lit(_) => Ok(Verdict::Decided(false)),
        ExprNode::Const(_, _) => {
            if number == 0 && is_nat_zero(other) {
                Ok(Verdict::Decided(true))
            } else {
                Ok(Verdict::Undecided)
            }
        }
        ExprNode::App(f, t) => {
            if number > 0 && is_nat_succ(f) {
                Ok(Verdict::Again(t.copy(alloc)?, Expr::lit(alloc, number - 1)?))
            } else {
                Ok(Verdict::Undecided)
            }
        }
        _ => Ok(Verdict::Undecided),
    }
}

/// What two terms ask for of which one is a literal.
#[tactic(auto, unfolding(crate::specs::Tower::by_literals))]
pub fn literals(alloc: Global, a: &Expr, b: &Expr) -> Result<Verdict, NoMemory>
    ensures { IfOk result (λ v. (c : Calls) (C : Context) → tower.by_literals c C a.now b.now ≡ forms.compared c C (values.verdict v)) }
{
    match (a.node(), b.node()) {
        (ExprNode::Lit(number), _) => number_against(alloc, *number, b),
        (_, ExprNode::Lit(number)) => against_number(alloc, a, *number),
        _ => Ok(Verdict::Undecided),
    }
}

/// What the heads of two applications ask for.
#[tactic(auto, unfolding(crate::specs::Tower::equal_heads))]
pub fn heads(alloc: Global, a: &Expr, b: &Expr) -> Result<Verdict, NoMemory>
    ensures { IfOk result (λ v. (c : Calls) (C : Context) → tower.equal_heads c C a.now b.now ≡ forms.answered c C (values.verdict v)) }
{
    match (a.node(), b.node()) {
        (ExprNode::Const(m, ls), ExprNode::Const(n, ms)) => {
            if m.is(n) {
                Ok(Verdict::Decided(are_same(alloc, ls.as_slice(), ms.as_slice())?))
            } else {
                Ok(Verdict::Decided(false))
            }
        }
        (ExprNode::Proj(r, i, t), ExprNode::Proj(s, j, u)) => {
            if r.is(s) && *i == *j {
                Ok(Verdict::Again(t.copy(alloc)?, u.copy(alloc)?))
            } else {
                Ok(Verdict::Decided(false))
            }
        }
        _ => Ok(Verdict::Decided(a.is(b))),
    }
}

fn eta(alloc: Global, term: &Expr, pi: &Expr) -> Result<Option<Expr>, NoMemory>
    ensures { IfOk result (λ e. spec.expanded term.now pi.now ≡ forms.expanded e) }
{
    match pi.node() {
        ExprNode::Pi(x, domain, _) => {
            let applied = Expr::app(alloc, term.copy(alloc)?, Expr::bound(alloc, 0)?)?;
            let x = x.copy(alloc)?;
            Ok(Some(Expr::lam(alloc, x, domain.copy(alloc)?, applied)?))
        }
        _ => Ok(None),
    }
}

/// The eta expansion of a term of this type, where it is a pi. It costs its nodes.
pub fn expanded(
    alloc: Global,
    units: &mut u64,
    term: &Expr,
    ty: &Expr,
) -> Result<Option<Expr>, Halt>
    ensures value { Runs (spec.expanded term.now ty.now units.old) result units.new }
    ensures calm { Calm result }
{
    match eta(alloc, term, ty)? {
        Some(term) => Ok(Some(paid(units, term)?)),
        None => Ok(None),
    }
}

/// The field of this place of `term` as a structure of this name. It costs its nodes.
pub fn field(
    alloc: Global,
    units: &mut u64,
    structure: &Name,
    place: u32,
    term: &Expr,
) -> Result<Expr, Halt>
    ensures value { Runs (run.made (proj structure.now place term.now) units.old) result units.new }
    ensures calm { Calm result }
{
    let structure = structure.copy(alloc)?;
    let term = term.copy(alloc)?;
    paid(units, Expr::proj(alloc, structure, place, term)?)
}

/// The domain and the codomain of a pi.
pub fn parts_of_pi(term: &Expr) -> Option<(&Expr, &Expr)>
    ensures { (has : Term) (f : Term → Term → run.Run Term) → infer.on_pi has term.now f ≡ forms.on_parts has (option_map (λ p. (p.0.now, p.1.now)) result) f }
{
    match term.node() {
        ExprNode::Pi(_, domain, codomain) => Some((domain, codomain)),
        _ => None,
    }
}
