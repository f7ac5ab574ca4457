//! What is fixed for a part of a command.
ghost use Rattle.std.specs.Prelude.{◌≡◌, ◌<◌, ◌-◌};
ghost use Rattle.lf_part.specs.Values as own;

use crate::synth::Synth;
use lf_check::Cx;
use lf_core::Name;
use lf_env::View;
use lf_scope::Scope;
use lf_unify::UnifyCx;
use std::alloc::Global;

/// What is fixed for a part, and how many nested calls are still allowed in it.
#[derive(Clone, Copy)]
pub struct Part<'a, S> {
    pub alloc: Global,
    pub view: &'a View,
    pub scope: &'a Scope,
    /// Its level names; a parameter is the place of its name.
    pub levels: &'a [Name],
    /// In a value the declared name, which is then the first prefix of candidates.
    pub inside: Option<&'a Name>,
    /// In an inductive command the type's own name, which is found there.
    pub own: Option<&'a Name>,
    /// The place of the declared name, or of the command's first token where there is none, in bytes.
    pub place: usize,
    pub depth: u32,
    /// So many changes of the metavariables are never taken back: those before the innermost block.
    pub floor: usize,
    /// What finds instances.
    pub synth: &'a S,
}

impl<'a, S: Synth> Part<'a, S> {
    /// What the checker reads.
    pub fn check(self) -> Cx<'a>
        ensures view { result.view.now ≡ self.entry.view.now }
        ensures depth { result.depth ≡ self.entry.depth }
    {
        Cx {
            alloc: self.alloc,
            view: self.view,
            depth: self.depth,
        }
    }

    /// With one nested call fewer.
    pub fn below(self) -> Part<'a, S>
        requires { 0 < self.depth }
        ensures part { own.part S.meaning result ≡ own.part S.meaning self.entry }
        ensures depth { result.depth ≡ self.entry.depth - 1 }
        ensures floor { result.floor ≡ self.entry.floor }
    {
        Part {
            depth: self.depth - 1,
            ..self
        }
    }

    /// Where so many changes are never taken back.
    pub fn raised(self, floor: usize) -> Part<'a, S>
        ensures part { own.part S.meaning result ≡ own.part S.meaning self.entry }
        ensures depth { result.depth ≡ self.entry.depth }
        ensures floor { result.floor ≡ floor }
    {
        Part { floor, ..self }
    }

    /// What the unifier reads.
    pub fn unifier(self) -> UnifyCx<'a>
        ensures view { result.check.view.now ≡ self.entry.view.now }
        ensures depth { result.check.depth ≡ self.entry.depth }
        ensures floor { result.floor ≡ self.entry.floor }
    {
        UnifyCx {
            check: self.check(),
            floor: self.floor,
        }
    }
}
