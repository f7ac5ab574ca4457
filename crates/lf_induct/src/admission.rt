//! Whether an inductive declaration is admitted, and the constants that it adds.
ghost use Rattle.std.specs.Prelude.{◌≡◌, ◌≤◌, List, None, IfOk, nat_le};
ghost use Rattle.lf_core.specs.Term.{Universe};
ghost use Rattle.lf_core.specs.declared.constant.ConstInfo.{ConstInfo};
ghost use Rattle.std.specs.Option.{option_copied};
ghost use Rattle.lf_rules.specs.Telescope as telescope;
ghost use Rattle.lf_rules.specs.Structure as structure;
ghost use Rattle.lf_checker.specs.Admission as spec;
ghost use Rattle.lf_checker.specs.Run as run;
ghost use Rattle.lf_checker.specs.View.{placed_of};
ghost use Rattle.lf_checker.specs.Checker.{calls};
ghost use Rattle.lf_checker.specs.declared.fault.TypeFault.TheVariants as fault;
ghost use Rattle.lf_steps.specs.Runs.{RunsAs, Rose};
ghost use Rattle.lf_check.specs.Answers.{Answers, StopsOnly};
ghost use Rattle.lf_induct.specs.Parts as parts;

use crate::constants::{given, type_alone};
use crate::constructor::admit_constructors;
use crate::elimination::eliminates_everywhere;
use crate::family::own_family;
use lf_base::Stop;
use lf_check::{CheckCx, Cx, Mode, ended, sort_of};
use lf_checker::TypeFault;
use lf_core::{Ans, ConstInfo, Expr, ExprNode, IndDecl, Level, NoMemory};
use lf_env::View;
use lf_recursor::pi_count;
use lf_steps::{Halt, refusal};
use std::alloc::Global;

// The level of the sort in which pis end.
fn result_level(term: &Expr) -> Option<&Level>
    ensures { option_copied result ≡ structure.result_level term.now }
{
    match term.node() {
        ExprNode::Sort(level) => Some(level),
        ExprNode::Pi(_, _, body) => result_level(body),
        _ => None,
    }
}

// The level of the type's sort, where the type is pis over the parameters and indices that end in one.
fn shape_of(decl: &IndDecl) -> Result<Option<&Level>, NoMemory>
    ensures { IfOk result (λ l. (f : Universe → run.Run (List ConstInfo))
        → run.choose (nat_le decl.now.params (telescope.pi_count decl.now.ty)) (spec.on_result (structure.result_level decl.now.ty) f) (run.refuse fault.BadType)
        ≡ parts.on_shape (option_copied l) f) }
{
    if decl.params > pi_count(&decl.ty).ok_or(NoMemory)? {
        return Ok(None);
    }
    Ok(result_level(&decl.ty))
}

// The constructors, and then the declaration's constants, in the view that has the type alone.
#[tactic(auto, using(lf_steps::proofs::Runs::halts), unfolding(crate::specs::Parts::admit_all))]
fn admit_all<P: Stop>(
    cx: Cx<'_>,
    units: &mut u64,
    stop: &mut P,
    decl: &IndDecl,
    wanted: &Level,
) -> Result<Vec<ConstInfo>, Halt>
    ensures value { RunsAs (λ v. v.items) (parts.admit_all (calls cx.entry.view.now cx.entry.depth) decl.now wanted.now units.old) result units.new }
    ensures count { P.stops stop.old ≤ P.stops stop.new }
    ensures rose { Rose result (P.stops stop.old) (P.stops stop.new) }
{
    let family = own_family(cx.alloc, decl)?;
    let reads = admit_constructors(cx, units, stop, &family, wanted, decl.ctors.as_slice())?;
    let large = eliminates_everywhere(cx.alloc, &family, wanted, reads.as_slice())?;
    drop(reads);
    drop(family);
    given(cx.alloc, units, decl, large)
}

// The view with the type alone at its own position.
fn with_type(alloc: Global, view: &View, decl: &IndDecl) -> Result<View, NoMemory>
    requires { placed_of view.now decl.now.name ≡ None }
    ensures { IfOk result (λ v. v ≡ spec.view_with_type view.now decl.now) }
{
    let mut typed = view.share()?;
    let ty = type_alone(alloc, decl)?;
    typed.push(ty, view.position())?;
    Ok(typed)
}

// The constructors, judged in the view with the type alone.
fn admit_beside<P: Stop>(
    cx: Cx<'_>,
    units: &mut u64,
    stop: &mut P,
    decl: &IndDecl,
    wanted: &Level,
) -> Result<Vec<ConstInfo>, Halt>
    requires { placed_of cx.view.now decl.now.name ≡ None }
    ensures value { RunsAs (λ v. v.items) (parts.admit_all (calls (spec.view_with_type cx.entry.view.now decl.now) cx.entry.depth) decl.now wanted.now
        units.old) result units.new }
    ensures count { P.stops stop.old ≤ P.stops stop.new }
    ensures rose { Rose result (P.stops stop.old) (P.stops stop.new) }
{
    let typed = with_type(cx.alloc, cx.view, decl)?;
    let inner = Cx {
        alloc: cx.alloc,
        view: &typed,
        depth: cx.depth,
    };
    let admitted = admit_all(inner, units, stop, decl, wanted);
    drop(typed);
    admitted
}

// The constructors in the view that has the type alone. Where the name is an entry already, that entry hides the type, and
// the view tells what it told.
#[tactic(auto, using(crate::proofs::Shadowed::judged_there))]
fn admit_typed<P: Stop>(
    cx: Cx<'_>,
    units: &mut u64,
    stop: &mut P,
    decl: &IndDecl,
    wanted: &Level,
) -> Result<Vec<ConstInfo>, Halt>
    ensures value { RunsAs (λ v. v.items) (parts.admit_all (calls (spec.view_with_type cx.entry.view.now decl.now) cx.entry.depth) decl.now wanted.now
        units.old) result units.new }
    ensures count { P.stops stop.old ≤ P.stops stop.new }
    ensures rose { Rose result (P.stops stop.old) (P.stops stop.new) }
{
    match cx.view.placed(&decl.name) {
        Some(_) => admit_all(cx, units, stop, decl, wanted),
        None => admit_beside(cx, units, stop, decl, wanted),
    }
}

// The test of the type, and then of its constructors.
#[tactic(auto, using(lf_steps::proofs::Runs::halts), unfolding(crate::specs::Parts::admit_all, crate::specs::Parts::given))]
fn admit_within<P: Stop>(
    cx: Cx<'_>,
    units: &mut u64,
    stop: &mut P,
    decl: &IndDecl,
) -> Result<Vec<ConstInfo>, Halt>
    ensures value { RunsAs (λ v. v.items) (spec.admit cx.entry.view.now cx.entry.depth decl.now units.old) result units.new }
    ensures count { P.stops stop.old ≤ P.stops stop.new }
    ensures rose { Rose result (P.stops stop.old) (P.stops stop.new) }
{
    let mut locals = Vec::new(cx.alloc);
    sort_of(cx, &mut locals, units, stop, Mode::Checked, &decl.ty)?;
    match shape_of(decl)? {
        None => Err(Halt::Refused(refusal(cx.alloc, TypeFault::BadType))),
        Some(wanted) => admit_typed(cx, units, stop, decl, wanted),
    }
}

/// The constants that the declaration adds: its type, its constructors and its recursor (docs/language.md, Inductive types;
/// that its types are closed and its names new isn't tested here). The view and the context's variables are as before.
/// Done with the value, or Refused, with the units that the definition leaves; Out exactly where units, nesting or depth
/// don't suffice; Need exactly where the definition's first read that can't be answered yet stands; Stopped only where
/// the count of stops rose; or NoMemory. After all but Done and Refused no units are left.
#[tactic(auto, using(lf_check::proofs::Ends::ends_answers))]
pub fn admit<P: Stop>(
    alloc: Global,
    cx: &mut CheckCx<'_, P>,
    decl: &IndDecl,
) -> Ans<Vec<ConstInfo>, TypeFault>
    ensures value { Answers (spec.admit cx.old.view.now cx.old.budget.depth decl.now cx.old.budget.units) (parts.answer_map (λ v. v.items) result)
        cx.new.budget.units
        cx.new.opened.items }
    ensures kept { cx.new.locals.items ≡ cx.old.locals.items }
    ensures nesting { cx.new.budget.depth ≡ cx.old.budget.depth }
    ensures count { P.stops cx.old.stop.now ≤ P.stops cx.new.stop.now }
    ensures stops { StopsOnly result (P.stops cx.old.stop.now) (P.stops cx.new.stop.now) }
{
    let inner = Cx {
        alloc,
        view: cx.view,
        depth: cx.budget.depth,
    };
    let mut left = cx.budget.units;
    let given = admit_within(inner, &mut left, cx.stop, decl);
    cx.budget.units = 0;
    cx.opened = Vec::new(alloc);
    match given {
        Ok(constants) => {
            cx.budget.units = left;
            Ans::Done(constants)
        }
        Err(halt) => ended(&mut cx.opened, &mut cx.budget.units, halt, left),
    }
}
