//! The resolution of instances, as elaboration calls it.
ghost use Rattle.std.specs.Prelude.{◌≡◌, ◌≤◌, ℕ, Option};
ghost use Rattle.lf_checker.specs.Run as checker;
ghost use Rattle.lf_checker.specs.View as spec;
ghost use Rattle.lf_core.specs.Term as core;
ghost use Rattle.lf_elaboration.specs.Scope as scopes;
ghost use Rattle.lf_rules.specs.Environment as environment;
ghost use Rattle.lf_steps.specs.Runs.{Runs, Rose};

use lf_base::Stop;
use lf_check::Cx;
use lf_core::Expr;
use lf_scope::Scope;
use lf_steps::Halt;

/// What finds an instance of a type.
pub trait Synth: Copy {
    /// The run that finds it, over a view and a scope, where so many nested calls are still allowed, in a context.
    ghost meaning: { spec.View → scopes.Scope → ℕ → environment.Context → core.Term → checker.Run (Option core.Term) };

    /// An instance of the type in the context of these locals, or None where there is none.
    fn synthesize<P: Stop>(
        &self,
        cx: Cx<'_>,
        scope: &Scope,
        locals: &mut Vec<Expr>,
        units: &mut u64,
        stop: &mut P,
        ty: &Expr,
    ) -> Result<Option<Expr>, Halt>
        ensures value { Runs (meaning cx.entry.view.now scope.now cx.entry.depth locals.old.items ty.now units.old) result units.new }
        ensures kept { locals.new.items ≡ locals.old.items }
        ensures count { P.stops stop.old ≤ P.stops stop.new }
        ensures rose { Rose result (P.stops stop.old) (P.stops stop.new) };
}
