//! What identifiers stand for.
ghost use Rattle.std.specs.Prelude.{◌≡◌, ◌++◌, ◌∷◌, [], IfOk};
ghost use Rattle.lf_front.specs.Grammar.{innermost, is_declared, named_by};
ghost use Rattle.lf_front.specs.Parser.{GivesTerm};

use lf_core::{ConstInfo, Expr, Name, NoMemory};
use sqlite_items::Items;
use std::alloc::Global;

/// Why no term was read.
#[derive(Clone, Copy, Debug, PartialEq, Eq)]
pub enum Refusal {
    NotBuilt,
    NoMemory,
}

impl From<NoMemory> for Refusal {
    ghost use Rattle.std.specs.Prelude.{◌≡◌};
    ghost use Rattle.lf_front.specs.declared.names.Refusal.TheVariants as refusal;

    ghost from_gives = { λ _ e. e ≡ refusal.NoMemory };

    fn from(_: NoMemory) -> Refusal {
        Refusal::NoMemory
    }
}

/// A local variable: that of a `∀`, or that of an arrow, which has no name.
#[derive(Debug, Drop)]
pub enum Local {
    Named(Name),
    Unnamed,
}

impl Local {
    fn copy(&self, alloc: Global) -> Result<Local, NoMemory>
        ensures { IfOk result (λ l. l ≡ self.now) }
    {
        match self {
            Local::Named(name) => Ok(Local::Named(name.copy(alloc)?)),
            Local::Unnamed => Ok(Local::Unnamed),
        }
    }
}

fn copied(alloc: Global, locals: &[Local]) -> Result<Items<Local>, NoMemory>
    ensures { IfOk result (λ all. all ≡ locals.now) }
{
    let mut all = Items::new(alloc);
    for local in locals {
        all.push(local.copy(alloc)?)?;
    }
    Ok(all)
}

/// These locals and one more inside them.
pub(crate) fn extended(
    alloc: Global,
    locals: &[Local],
    last: Local,
) -> Result<Items<Local>, NoMemory>
    ensures { IfOk result (λ all. all ≡ locals.now ++ last ∷ []) }
{
    let mut all = copied(alloc, locals)?;
    all.push(last)?;
    Ok(all)
}

/// The de Bruijn index of the innermost local of this name.
fn innermost(x: &Name, locals: &[Local]) -> Option<usize>
    ensures { result ≡ innermost x.now locals.now }
{
    match locals {
        [] => None,
        [y, ys @ ..] => match innermost(x, ys) {
            Some(i) => Some(i),
            None => match y {
                Local::Named(name) => { if x.is(name) { Some(ys.len()) } else { None } }
                Local::Unnamed => None,
            },
        },
    }
}

/// Whether a constant has this name.
pub(crate) fn is_declared(constants: &[ConstInfo], x: &Name) -> bool
    ensures { result ≡ is_declared constants.now x.now }
{
    constants.iter().any(|c| x.is(&c.name))
}

/// What an identifier stands for.
pub(crate) fn named_by(
    alloc: Global,
    constants: &[ConstInfo],
    locals: &[Local],
    x: &Name,
) -> Result<Expr, Refusal>
    ensures { GivesTerm result (named_by constants.now locals.now x.now) }
{
    match innermost(x, locals) {
        Some(i) => match u32::try_from(i) {
            Ok(i) => Ok(Expr::bound(alloc, i)?),
            Err(_) => Err(Refusal::NoMemory),
        },
        None => {
            if !is_declared(constants, x) {
                return Err(Refusal::NotBuilt);
            }
            Ok(Expr::constant(alloc, x.copy(alloc)?, Items::new(alloc))?)
        }
    }
}
