//! What a command is elaborated in.
ghost use Rattle.std.specs.Prelude.{◌≡◌, option_copied};
ghost use Rattle.lf_heads.specs.Settings as values;
ghost use Rattle.lf_part.specs.Values as own;

use lf_core::Name;
use lf_env::View;
use lf_part::{Part, Synth};
use lf_scope::Scope;
use std::alloc::Global;

/// So many calls may be open at once in a part.
pub const NESTING: u32 = 512;

/// The greatest number of level names of a declaration.
pub const MOST_LEVELS: u32 = 8;

/// The greatest number of level names of an inductive type, whose recursor may have one more.
pub const MOST_LEVELS_OF_TYPE: u32 = 7;

/// The view and the scope at a command's position, the units of each of its parts, and what finds instances.
#[derive(Clone, Copy)]
pub struct Setting<'a, S> {
    pub alloc: Global,
    pub view: &'a View,
    pub scope: &'a Scope,
    pub position: u32,
    pub budget: u64,
    pub synth: &'a S,
}

impl<'a, S: Synth> Setting<'a, S> {
    /// A part of the command: over a view, with these level names, within a name where it is a value, with its errors of the whole at
    /// a place, in bytes. No change is kept from taking back, and all nested calls are still allowed.
    pub fn part(
        self,
        view: &'a View,
        levels: &'a [Name],
        inside: Option<&'a Name>,
        at: usize,
    ) -> Part<'a, S>
        ensures part { own.part S.meaning result
            ≡ values.part_by S.meaning (values.setting self.entry) view.now levels.now (option_copied inside.entry) at }
        ensures depth { result.depth ≡ NESTING }
        ensures floor { result.floor ≡ 0 }
    {
        Part {
            alloc: self.alloc,
            view,
            scope: self.scope,
            levels,
            inside,
            own: None,
            place: at,
            depth: NESTING,
            floor: 0,
            synth: self.synth,
        }
    }
}
