//! The calls of the kernel, over a view, a budget and a stop.
ghost use Rattle.std.specs.Prelude.{◌≡◌, ◌≤◌};
ghost use Rattle.lf_checker.specs.Admission as admission;
ghost use Rattle.lf_checker.specs.Checker as spec;
ghost use Rattle.lf_check.specs.Answers.{Answers, StopsOnly};
ghost use Rattle.lf_induct.specs.Parts.{answer_map};

use crate::decl::decl;
use crate::header::header;
use crate::inductive::unless_declared;
use lf_base::Stop;
use lf_check::{CheckCx, Cx, ended};
use lf_checker::TypeFault;
use lf_core::{Ans, ConstInfo, Expr, IndDecl, Level, Name};
use lf_induct::admit;
use std::alloc::Global;

/// The level of the sort of a stated type. The context's variables aren't read: a header stands on its own.
/// Refused as not closed, as a duplicate with the entry's position, or as `infer` refuses, with the units that the
/// definition leaves; Out, Need, Stopped and NoMemory as `infer` answers them. After all but Done and Refused no units are
/// left. docs/language.md, 'What is added to an environment'.
#[tactic(auto, using(lf_check::proofs::Ends::ends_answers))]
pub fn add_header<P: Stop>(
    alloc: Global,
    cx: &mut CheckCx<'_, P>,
    name: &Name,
    ty: &Expr,
) -> Ans<Level, TypeFault>
    ensures value { Answers (spec.add_header cx.old.view.now cx.old.budget.depth name.now ty.now cx.old.budget.units) result cx.new.budget.units
        cx.new.opened.items }
    ensures kept { cx.new.locals.items ≡ cx.old.locals.items }
    ensures nesting { cx.new.budget.depth ≡ cx.old.budget.depth }
    ensures count { P.stops cx.old.stop.now ≤ P.stops cx.new.stop.now }
    ensures stops { StopsOnly result (P.stops cx.old.stop.now) (P.stops cx.new.stop.now) }
{
    let inner = Cx {
        alloc,
        view: cx.view,
        depth: cx.budget.depth,
    };
    let mut left = cx.budget.units;
    let given = header(inner, &mut left, cx.stop, name, ty);
    cx.budget.units = 0;
    cx.opened = Vec::new(alloc);
    match given {
        Ok(level) => {
            cx.budget.units = left;
            Ans::Done(level)
        }
        Err(halt) => ended(&mut cx.opened, &mut cx.budget.units, halt, left),
    }
}

/// The height of a constant whose value is checked against its type: one more than the greatest of the definitions in the
/// value, and 0 where there is no value. That the type is one is `add_header`'s to say.
/// Refused as not closed, as a duplicate with the entry's position, as `infer` refuses the value, or where the value's type
/// isn't the stated one (`Value`); Out, Need, Stopped and NoMemory as `infer` answers them, and Need where the height waits
/// for a body. After all but Done and Refused no units are left. docs/language.md, 'What is added to an environment'.
#[tactic(auto, using(lf_check::proofs::Ends::ends_answers))]
pub fn add_decl<P: Stop>(
    alloc: Global,
    cx: &mut CheckCx<'_, P>,
    info: &ConstInfo,
) -> Ans<u32, TypeFault>
    ensures value { Answers (spec.add_decl cx.old.view.now cx.old.budget.depth info.now cx.old.budget.units) result cx.new.budget.units cx.new.opened.items }
    ensures kept { cx.new.locals.items ≡ cx.old.locals.items }
    ensures nesting { cx.new.budget.depth ≡ cx.old.budget.depth }
    ensures count { P.stops cx.old.stop.now ≤ P.stops cx.new.stop.now }
    ensures stops { StopsOnly result (P.stops cx.old.stop.now) (P.stops cx.new.stop.now) }
{
    let inner = Cx {
        alloc,
        view: cx.view,
        depth: cx.budget.depth,
    };
    let mut left = cx.budget.units;
    let given = decl(inner, &mut left, cx.stop, info);
    cx.budget.units = 0;
    cx.opened = Vec::new(alloc);
    match given {
        Ok(height) => {
            cx.budget.units = left;
            Ans::Done(height)
        }
        Err(halt) => ended(&mut cx.opened, &mut cx.budget.units, halt, left),
    }
}

/// The constants that an inductive declaration adds: its type, its constructors and its recursor. The context's variables
/// aren't read.
/// Refused as not closed; as a duplicate for the first of the type's name, the constructors' and the recursor's that isn't
/// new, with the entry's position, or the view's for a constructor's name that the declaration itself gives twice; or as
/// `lf_induct::admit` refuses. Out, Need, Stopped and NoMemory as `admit` answers them, and Need where an open branch may
/// give a name. After all but Done and Refused no units are left. docs/language.md, 'What is added to an environment'.
pub fn add_inductive<P: Stop>(
    alloc: Global,
    cx: &mut CheckCx<'_, P>,
    decl: &IndDecl,
) -> Ans<Vec<ConstInfo>, TypeFault>
    ensures value { Answers (admission.add_inductive cx.old.view.now cx.old.budget.depth decl.now cx.old.budget.units) (answer_map (λ v. v.items) result)
        cx.new.budget.units cx.new.opened.items }
    ensures kept { cx.new.locals.items ≡ cx.old.locals.items }
    ensures nesting { cx.new.budget.depth ≡ cx.old.budget.depth }
    ensures count { P.stops cx.old.stop.now ≤ P.stops cx.new.stop.now }
    ensures stops { StopsOnly result (P.stops cx.old.stop.now) (P.stops cx.new.stop.now) }
{
    let mut left = cx.budget.units;
    let tested = unless_declared(alloc, cx.view, &mut left, decl);
    match tested {
        Ok(()) => {
            cx.budget.units = left;
            admit(alloc, cx, decl)
        }
        Err(halt) => {
            cx.budget.units = 0;
            cx.opened = Vec::new(alloc);
            ended(&mut cx.opened, &mut cx.budget.units, halt, left)
        }
    }
}
