//! The resolution of instances, as elaboration takes it.
ghost use Rattle.std.specs.Prelude.{◌≡◌, ◌≤◌};
ghost use Rattle.lf_elaboration.specs.Scope as scopes;
ghost use Rattle.lf_resolution.specs.Walk as spec;
ghost use Rattle.lf_steps.specs.Runs.{Runs, Rose};

use crate::search::Search;
use crate::walk::walk;
use lf_base::Stop;
use lf_check::Cx;
use lf_core::{Expr, Name};
use lf_part::Synth;
use lf_scope::Scope;
use lf_steps::Halt;

/// The greatest depth of a tree.
const GREATEST_TREE: u32 = 32;

/// The instance of the type among the locals and these instances: the term of the least tree of candidates, where these are
/// the classes; None where there is no tree. It is what a scope with these classes and instances gives, so that a caller may
/// read them once for many types. Refused and Stopped are those of a weak head form and of the unifier; Need where the view
/// doesn't tell yet what the walk asks; Out where units, nesting, depth or numbers don't suffice; and NoMemory.
pub fn resolve_among<P: Stop>(
    cx: Cx<'_>,
    classes: &[Name],
    instances: &[Name],
    locals: &mut Vec<Expr>,
    units: &mut u64,
    stop: &mut P,
    ty: &Expr,
) -> Result<Option<Expr>, Halt>
    ensures value { (S : scopes.Scope) → S.classes ≡ classes.now → S.instances ≡ instances.now
        → Runs (spec.resolve cx.entry.view.now S cx.entry.depth locals.old.items ty.now units.old) result units.new }
    ensures kept { locals.new.items ≡ locals.old.items }
    ensures count { P.stops stop.old ≤ P.stops stop.new }
    ensures rose { Rose result (P.stops stop.old) (P.stops stop.new) }
{
    let search = Search {
        check: cx,
        classes,
        instances,
        trees: GREATEST_TREE,
    };
    walk(search, locals, units, stop, ty)
}

/// Finds the instance of a type as `resolve_among` says, with the classes and the instances of the scope, which it reads at
/// each call.
#[derive(Clone, Copy, Debug)]
pub struct Resolution;

impl Synth for Resolution {
    ghost meaning = { spec.resolve };

    fn synthesize<P: Stop>(
        &self,
        cx: Cx<'_>,
        scope: &Scope,
        locals: &mut Vec<Expr>,
        units: &mut u64,
        stop: &mut P,
        ty: &Expr,
    ) -> Result<Option<Expr>, Halt> {
        let classes = scope.classes(cx.alloc)?;
        let instances = scope.instances(cx.alloc)?;
        resolve_among(
            cx,
            classes.as_slice(),
            instances.as_slice(),
            locals,
            units,
            stop,
            ty,
        )
    }
}
