//! The equation of a definition by recursion on its last argument, for one constructor.
ghost use Rattle.std.specs.Prelude.{◌≡◌, ◌≤◌, option_map};
ghost use Rattle.lf_checker.specs.Calls as checker;
ghost use Rattle.lf_checker.specs.Checker.{calls};
ghost use Rattle.lf_checker.specs.Extends.{shape_of};
ghost use Rattle.lf_elaboration.specs.CaseEquation as spec;
ghost use Rattle.lf_items.specs.Values.{instance};
ghost use Rattle.lf_steps.specs.Runs.{RunsAs, Rose};
ghost use Rattle.lf_steps.specs.Values as steps;
ghost use Rattle.lf_telescope.specs.Values.{statement};
ghost use Rattle.lf_case_equation.specs.Values.{recursion};

use crate::case::{Defined, case_known};
use crate::recursion::{Recursion, recursion_by};
use lf_base::Stop;
use lf_check::Cx;
use lf_core::{ConstInfo, Detail, Expr, Name, NoMemory};
use lf_items::{Instance, as_constant};
use lf_recursor::Local;
use lf_steps::{Halt, Seen, arguments, head, need, see};
use lf_telescope::{Statement, leading_lambdas, open_lambdas};

/// A value opened: its binders, and a constant applied to these arguments.
#[derive(Clone, Copy)]
pub struct Body<'a> {
    pub locals: &'a [Local],
    pub head: Instance<'a>,
    pub arguments: &'a [Expr],
}

// The constructors of an inductive type.
fn ctors_of(detail: &Detail) -> &[Name]
    ensures { result.now ≡ spec.ctors_of detail.now }
{
    match detail {
        Detail::Ind { ctors, .. } => ctors.as_slice(),
        Detail::Plain | Detail::Ctor { .. } | Detail::Rec { .. } => &[],
    }
}

// The equation of the constructor of this name.
#[tactic(auto, using(lf_steps::proofs::Runs::halts))]
fn case_named<P: Stop>(
    cx: Cx<'_>,
    units: &mut u64,
    stop: &mut P,
    f: Defined<'_>,
    i: usize,
    r: Recursion<'_>,
    name: &Name,
) -> Result<Option<Statement>, Halt>
    ensures value { RunsAs (option_map statement)
        (spec.case_seen (calls cx.entry.view.now cx.entry.depth) f.entry.name.now f.entry.levels.now (recursion r.entry) i name.now
        (checker.see cx.entry.view.now name.now) units.old)
        result units.new }
    ensures count { P.stops stop.old ≤ P.stops stop.new }
    ensures rose { Rose result (P.stops stop.old) (P.stops stop.new) }
{
    match see(cx.alloc, cx.view, name)? {
        Seen::Known(info) => case_known(cx, units, stop, f, r, i, name, info),
        Seen::Unknown => Ok(None),
        Seen::Missing(key) => Err(need(units, key)),
    }
}

// The equation where the inductive type is this constant.
#[tactic(auto, using(lf_steps::proofs::Runs::halts))]
fn case_of_type<P: Stop>(
    cx: Cx<'_>,
    units: &mut u64,
    stop: &mut P,
    f: Defined<'_>,
    i: usize,
    body: Body<'_>,
    detail: &Detail,
    info: &ConstInfo,
) -> Result<Option<Statement>, Halt>
    ensures value { RunsAs (option_map statement)
        (spec.case_of_type cx.entry.view.now (calls cx.entry.view.now cx.entry.depth) f.entry.name.now f.entry.levels.now i body.entry.locals.now
        (instance body.entry.head) body.entry.arguments.now detail.now (checker.known (shape_of info.now)) units.old)
        result units.new }
    ensures count { P.stops stop.old ≤ P.stops stop.new }
    ensures rose { Rose result (P.stops stop.old) (P.stops stop.new) }
{
    let extra = body.head.levels.len().saturating_sub(info.levels.len());
    match recursion_by(body.locals, body.head, body.arguments, extra, detail)? {
        None => Ok(None),
        Some(r) => match ctors_of(&info.detail).get(i) {
            None => Ok(None),
            Some(name) => case_named(cx, units, stop, f, i, r, name),
        },
    }
}

// The equation where the head has this detail: that of a recursor names the inductive type.
#[tactic(auto, using(lf_steps::proofs::Runs::halts, crate::proofs::Heads::at_plain, crate::proofs::Heads::at_type, crate::proofs::Heads::at_constructor))]
fn case_of_detail<P: Stop>(
    cx: Cx<'_>,
    units: &mut u64,
    stop: &mut P,
    f: Defined<'_>,
    i: usize,
    body: Body<'_>,
    detail: &Detail,
) -> Result<Option<Statement>, Halt>
    ensures value { RunsAs (option_map statement)
        (spec.case_of_type cx.entry.view.now (calls cx.entry.view.now cx.entry.depth) f.entry.name.now f.entry.levels.now i body.entry.locals.now
        (instance body.entry.head) body.entry.arguments.now detail.now (checker.see cx.entry.view.now (spec.ind_of detail.now)) units.old)
        result units.new }
    ensures count { P.stops stop.old ≤ P.stops stop.new }
    ensures rose { Rose result (P.stops stop.old) (P.stops stop.new) }
{
    match detail {
        Detail::Rec { ind, .. } => match see(cx.alloc, cx.view, ind)? {
            Seen::Known(info) => case_of_type(cx, units, stop, f, i, body, detail, info),
            Seen::Unknown => Ok(None),
            Seen::Missing(key) => Err(need(units, key)),
        },
        Detail::Plain | Detail::Ind { .. } | Detail::Ctor { .. } => Ok(None),
    }
}

// The equation where the value is opened so.
#[tactic(auto, using(lf_steps::proofs::Runs::halts))]
fn case_of_recursor<P: Stop>(
    cx: Cx<'_>,
    units: &mut u64,
    stop: &mut P,
    f: Defined<'_>,
    i: usize,
    body: Body<'_>,
) -> Result<Option<Statement>, Halt>
    ensures value { RunsAs (option_map statement)
        (spec.case_of_recursor cx.entry.view.now (calls cx.entry.view.now cx.entry.depth) f.entry.name.now f.entry.levels.now i body.entry.locals.now
        (instance body.entry.head) body.entry.arguments.now (checker.see cx.entry.view.now body.entry.head.name.now) units.old)
        result units.new }
    ensures count { P.stops stop.old ≤ P.stops stop.new }
    ensures rose { Rose result (P.stops stop.old) (P.stops stop.new) }
{
    match see(cx.alloc, cx.view, body.head.name)? {
        Seen::Known(info) => case_of_detail(cx, units, stop, f, i, body, &info.detail),
        Seen::Unknown => Ok(None),
        Seen::Missing(key) => Err(need(units, key)),
    }
}

/// The equation for constructor `i` of a definition whose value is a recursor at the last of its binders, with its proof,
/// within a run; `None` where the value isn't of this form, or has no such constructor. That the kernel accepts it isn't
/// said here. Refused, Out and Need where the definition is. docs/language.md, Realized constants.
#[tactic(auto, using(lf_steps::proofs::Runs::halts))]
pub fn case_equation<P: Stop>(
    cx: Cx<'_>,
    units: &mut u64,
    stop: &mut P,
    f: Defined<'_>,
    i: usize,
    value: &Expr,
) -> Result<Option<Statement>, Halt>
    ensures value { RunsAs (option_map statement)
        (spec.case_equation cx.entry.view.now (calls cx.entry.view.now cx.entry.depth) f.entry.name.now f.entry.levels.now i value.now units.old)
        result units.new }
    ensures count { P.stops stop.old ≤ P.stops stop.new }
    ensures rose { Rose result (P.stops stop.old) (P.stops stop.new) }
{
    let n = leading_lambdas(value).ok_or(NoMemory)? as usize;
    let opened = open_lambdas(cx.alloc, units, n, &[], value)?;
    let arguments = arguments(cx.alloc, &opened.rest)?;
    match as_constant(head(&opened.rest)) {
        None => Ok(None),
        Some(head) => {
            let body = Body {
                locals: opened.locals.as_slice(),
                head,
                arguments: arguments.as_slice(),
            };
            case_of_recursor(cx, units, stop, f, i, body)
        }
    }
}
