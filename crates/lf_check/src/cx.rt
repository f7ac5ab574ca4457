//! What the checker's functions read, and the context that they change and give back.
ghost use Rattle.std.specs.Prelude.{◌≡◌, ◌<◌, ◌-◌, ◌++◌, ◌∷◌, [], OnOk, OnErr};
ghost use Rattle.lf_rules.specs.Environment.{with};
ghost use Rattle.lf_check.specs.Front.{front};

use lf_core::{Expr, NoMemory};
use lf_env::View;
use std::alloc::Global;

/// What stays the same in a call: the view, and how many nested calls are still allowed.
#[derive(Clone, Copy)]
pub struct Cx<'a> {
    pub alloc: Global,
    pub view: &'a View,
    pub depth: u32,
}

impl<'a> Cx<'a> {
    /// With one nested call fewer.
    pub fn below(self) -> Cx<'a>
        requires { 0 < self.depth }
        ensures view { result.view.now ≡ self.entry.view.now }
        ensures depth { result.depth ≡ self.entry.depth - 1 }
    {
        Cx {
            alloc: self.alloc,
            view: self.view,
            depth: self.depth - 1,
        }
    }
}

/// Puts one more variable, of this type, at the end of the context.
pub fn open(alloc: Global, locals: &mut Vec<Expr>, ty: &Expr) -> Result<(), NoMemory>
    ensures ok { OnOk result (locals.new.items ≡ with locals.old.items ty.now) }
    ensures err { OnErr result (locals.new.items ≡ locals.old.items) }
{
    let ty = ty.copy(alloc)?;
    locals.push(ty)?;
    Ok(())
}

/// Takes the last variable away.
#[tactic(auto, using(crate::proofs::Fronts::front_push, crate::proofs::Fronts::front_none))]
pub fn close(locals: &mut Vec<Expr>)
    ensures { locals.new.items ≡ front locals.old.items }
{
    match locals.pop() {
        None => {}
        Some(ty) => drop(ty),
    }
}
