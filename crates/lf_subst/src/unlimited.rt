//! Substitution with no limit of depth and no count, for terms whose depth is tested once they are whole.
ghost use Rattle.std.specs.Prelude.{◌≡◌, IfOk};
ghost use Rattle.lf_core.specs.Substitution as spec;
ghost use Rattle.lf_core.specs.Term.{free};

use crate::closing::close;
use crate::instance::put;
use crate::levels::put as put_levels;
use lf_core::{Expr, Level, NoMemory};
use std::alloc::Global;

/// The body of a binder with `Free(k)` for its variable.
pub fn open_body(alloc: Global, body: &Expr, k: u32) -> Result<Expr, NoMemory>
    ensures { IfOk result (λ t. t ≡ spec.instantiate body.now (free k)) }
{
    let _depth = body.depth();
    let variable = Expr::free(alloc, k)?;
    let _own = variable.depth();
    put(alloc, 0, &variable, body)
}

/// The body of a binder whose variable stands where `term` has `Free(k)`.
pub fn close_body(alloc: Global, term: &Expr, k: u32) -> Result<Expr, NoMemory>
    ensures { IfOk result (λ t. t ≡ spec.abstract term.now k) }
{
    let _depth = term.depth();
    close(alloc, 0, k, term)
}

/// `term` with these levels for its level parameters. A parameter past the arguments stays.
pub fn at_levels(alloc: Global, term: &Expr, args: &[Level]) -> Result<Expr, NoMemory>
    ensures { IfOk result (λ t. t ≡ spec.level_instantiate args.now term.now) }
{
    put_levels(alloc, args, term)
}
