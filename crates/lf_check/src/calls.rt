//! The calls of the checker, over a view, a context, a budget and a stop.
ghost use Rattle.std.specs.Prelude.{◌≡◌, ◌≤◌, [], true};
ghost use Rattle.lf_checker.specs.Checker.{calls};
ghost use Rattle.lf_check.specs.Answers.{Answers, Ended, StopsOnly};
ghost use Rattle.lf_checker.specs.Calls.{checked, unchecked};

use crate::compare::equal as equal_within;
use crate::cx::Cx;
use crate::judge::infer as infer_within;
use crate::mode::Mode;
use crate::normal::normalize;
use crate::reduce::whnf as whnf_within;
use lf_base::{Budget, Stop};
use lf_checker::TypeFault;
use lf_core::{Ans, Expr, Name};
use lf_env::View;
use lf_steps::{Halt, Refused};
use std::alloc::Global;

/// What a term is checked over: the constants that a view tells, the types of the free variables, and what the call may
/// spend. After a refusal `opened` has the names of the binders that were opened round its place, from the outside in;
/// after every other answer it is empty.
#[derive(Drop)]
pub struct CheckCx<'a, P: Stop> {
    pub view: &'a View,
    pub locals: Vec<Expr>,
    pub opened: Vec<Name>,
    pub budget: Budget,
    pub stop: &'a mut P,
}

/// What is told of the end of a call that has no value: the refusal with the units that are left and the opened names, or
/// else what it came to, with no units.
pub fn ended<T>(opened: &mut Vec<Name>, units: &mut u64, halt: Halt, left: u64) -> Ans<T, TypeFault>
    requires opened { opened.old.items ≡ [] }
    requires units { units.old ≡ 0 }
    ensures { Ended halt left result units.new opened.new.items }
{
    match halt {
        Halt::Refused(refused) => {
            let Refused {
                fault,
                opened: names,
            } = refused;
            *opened = names;
            *units = left;
            Ans::Refused(fault)
        }
        Halt::Out => Ans::Out,
        Halt::Need(key) => Ans::Need(key),
        Halt::Stopped => Ans::Stopped,
        Halt::NoMemory => Ans::NoMemory,
    }
}

/// The weak head form of a term, with definitions unfolded. It is never refused.
/// Done with the value, or Refused, with the units that the definition leaves; Out exactly where units, nesting or depth
/// don't suffice; Need exactly where the definition's first read that can't be answered yet stands; Stopped only where
/// the count of stops rose; or NoMemory. After all but Done and Refused no units are left.
#[tactic(auto, using(crate::proofs::Ends::ends_answers))]
pub fn whnf<P: Stop>(alloc: Global, cx: &mut CheckCx<'_, P>, term: &Expr) -> Ans<Expr, TypeFault>
    ensures value { Answers ((calls cx.old.view.now cx.old.budget.depth).whnf true cx.old.locals.items term.now cx.old.budget.units) result
        cx.new.budget.units cx.new.opened.items }
    ensures kept { cx.new.locals.items ≡ cx.old.locals.items }
    ensures nesting { cx.new.budget.depth ≡ cx.old.budget.depth }
    ensures count { P.stops cx.old.stop.now ≤ P.stops cx.new.stop.now }
    ensures stops { StopsOnly result (P.stops cx.old.stop.now) (P.stops cx.new.stop.now) }
{
    let inner = Cx {
        alloc,
        view: cx.view,
        depth: cx.budget.depth,
    };
    let mut left = cx.budget.units;
    let given = whnf_within(inner, &mut cx.locals, &mut left, cx.stop, true, term);
    cx.budget.units = 0;
    cx.opened = Vec::new(alloc);
    match given {
        Ok(term) => {
            cx.budget.units = left;
            Ans::Done(term)
        }
        Err(halt) => ended(&mut cx.opened, &mut cx.budget.units, halt, left),
    }
}

/// Whether two terms are equal. It is never refused.
/// Done with the value, or Refused, with the units that the definition leaves; Out exactly where units, nesting or depth
/// don't suffice; Need exactly where the definition's first read that can't be answered yet stands; Stopped only where
/// the count of stops rose; or NoMemory. After all but Done and Refused no units are left.
#[tactic(auto, using(crate::proofs::Ends::ends_answers))]
pub fn equal<P: Stop>(
    alloc: Global,
    cx: &mut CheckCx<'_, P>,
    a: &Expr,
    b: &Expr,
) -> Ans<bool, TypeFault>
    ensures value { Answers ((calls cx.old.view.now cx.old.budget.depth).equal cx.old.locals.items a.now b.now cx.old.budget.units) result cx.new.budget.units
        cx.new.opened.items }
    ensures kept { cx.new.locals.items ≡ cx.old.locals.items }
    ensures nesting { cx.new.budget.depth ≡ cx.old.budget.depth }
    ensures count { P.stops cx.old.stop.now ≤ P.stops cx.new.stop.now }
    ensures stops { StopsOnly result (P.stops cx.old.stop.now) (P.stops cx.new.stop.now) }
{
    let inner = Cx {
        alloc,
        view: cx.view,
        depth: cx.budget.depth,
    };
    let mut left = cx.budget.units;
    let given = equal_within(inner, &mut cx.locals, &mut left, cx.stop, a, b);
    cx.budget.units = 0;
    cx.opened = Vec::new(alloc);
    match given {
        Ok(same) => {
            cx.budget.units = left;
            Ans::Done(same)
        }
        Err(halt) => ended(&mut cx.opened, &mut cx.budget.units, halt, left),
    }
}

/// The type of a term, with all tests.
/// Done with the value, or Refused, with the units that the definition leaves; Out exactly where units, nesting or depth
/// don't suffice; Need exactly where the definition's first read that can't be answered yet stands; Stopped only where
/// the count of stops rose; or NoMemory. After all but Done and Refused no units are left.
#[tactic(auto, using(crate::proofs::Ends::ends_answers))]
pub fn infer<P: Stop>(alloc: Global, cx: &mut CheckCx<'_, P>, term: &Expr) -> Ans<Expr, TypeFault>
    ensures value { Answers ((calls cx.old.view.now cx.old.budget.depth).infer checked cx.old.locals.items term.now cx.old.budget.units) result
        cx.new.budget.units cx.new.opened.items }
    ensures kept { cx.new.locals.items ≡ cx.old.locals.items }
    ensures nesting { cx.new.budget.depth ≡ cx.old.budget.depth }
    ensures count { P.stops cx.old.stop.now ≤ P.stops cx.new.stop.now }
    ensures stops { StopsOnly result (P.stops cx.old.stop.now) (P.stops cx.new.stop.now) }
{
    let inner = Cx {
        alloc,
        view: cx.view,
        depth: cx.budget.depth,
    };
    let mut left = cx.budget.units;
    let given = infer_within(
        inner,
        &mut cx.locals,
        &mut left,
        cx.stop,
        Mode::Checked,
        term,
    );
    cx.budget.units = 0;
    cx.opened = Vec::new(alloc);
    match given {
        Ok(ty) => {
            cx.budget.units = left;
            Ans::Done(ty)
        }
        Err(halt) => ended(&mut cx.opened, &mut cx.budget.units, halt, left),
    }
}

/// The type of a term without tests, where each metavariable has the type of its number in `types`.
/// Done with the value, or Refused, with the units that the definition leaves; Out exactly where units, nesting or depth
/// don't suffice; Need exactly where the definition's first read that can't be answered yet stands; Stopped only where
/// the count of stops rose; or NoMemory. After all but Done and Refused no units are left.
#[tactic(auto, using(crate::proofs::Ends::ends_answers))]
pub fn infer_unchecked<P: Stop>(
    alloc: Global,
    cx: &mut CheckCx<'_, P>,
    types: &[Expr],
    term: &Expr,
) -> Ans<Expr, TypeFault>
    ensures value { Answers ((calls cx.old.view.now cx.old.budget.depth).infer (unchecked types.now) cx.old.locals.items term.now cx.old.budget.units) result
        cx.new.budget.units cx.new.opened.items }
    ensures kept { cx.new.locals.items ≡ cx.old.locals.items }
    ensures nesting { cx.new.budget.depth ≡ cx.old.budget.depth }
    ensures count { P.stops cx.old.stop.now ≤ P.stops cx.new.stop.now }
    ensures stops { StopsOnly result (P.stops cx.old.stop.now) (P.stops cx.new.stop.now) }
{
    let inner = Cx {
        alloc,
        view: cx.view,
        depth: cx.budget.depth,
    };
    let mut left = cx.budget.units;
    let given = infer_within(
        inner,
        &mut cx.locals,
        &mut left,
        cx.stop,
        Mode::Unchecked(types),
        term,
    );
    cx.budget.units = 0;
    cx.opened = Vec::new(alloc);
    match given {
        Ok(ty) => {
            cx.budget.units = left;
            Ans::Done(ty)
        }
        Err(halt) => ended(&mut cx.opened, &mut cx.budget.units, halt, left),
    }
}

/// The normal form of a term. It is never refused.
/// Done with the value, or Refused, with the units that the definition leaves; Out exactly where units, nesting or depth
/// don't suffice; Need exactly where the definition's first read that can't be answered yet stands; Stopped only where
/// the count of stops rose; or NoMemory. After all but Done and Refused no units are left.
#[tactic(auto, using(crate::proofs::Ends::ends_answers))]
pub fn nf<P: Stop>(alloc: Global, cx: &mut CheckCx<'_, P>, term: &Expr) -> Ans<Expr, TypeFault>
    ensures value { Answers ((calls cx.old.view.now cx.old.budget.depth).normalize cx.old.locals.items term.now cx.old.budget.units) result
        cx.new.budget.units cx.new.opened.items }
    ensures kept { cx.new.locals.items ≡ cx.old.locals.items }
    ensures nesting { cx.new.budget.depth ≡ cx.old.budget.depth }
    ensures count { P.stops cx.old.stop.now ≤ P.stops cx.new.stop.now }
    ensures stops { StopsOnly result (P.stops cx.old.stop.now) (P.stops cx.new.stop.now) }
{
    let inner = Cx {
        alloc,
        view: cx.view,
        depth: cx.budget.depth,
    };
    let mut left = cx.budget.units;
    let given = normalize(inner, &mut cx.locals, &mut left, cx.stop, term);
    cx.budget.units = 0;
    cx.opened = Vec::new(alloc);
    match given {
        Ok(term) => {
            cx.budget.units = left;
            Ans::Done(term)
        }
        Err(halt) => ended(&mut cx.opened, &mut cx.budget.units, halt, left),
    }
}
