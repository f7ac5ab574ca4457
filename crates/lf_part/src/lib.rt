//! What a part of a command is for elaboration, and what elaboration does between its nested calls.
#![tactic(auto)]

mod checking;
mod ended;
mod identifiers;
mod levels;
mod locals;
mod message;
mod metavariables;
mod part;
mod reading;
mod state;
mod synth;
mod telling;
mod typed;
mod typing;

pub use checking::{synthesize, whnf};
pub use ended::Ended;
pub use identifiers::{
    Meaning, ask_if_realized, constant_at, constant_named, identifier, local_named, meaning_of,
    type_at,
};
pub use levels::{fresh_levels, level_of, levels_at, levels_of, own_levels_at, parameters};
pub use locals::Locals;
pub use message::{Diagnostic, Message, Node};
pub use metavariables::{assign, fresh_level, fresh_type, placeholder, unify};
pub use part::Part;
pub use reading::{instantiated, instantiated_all};
pub use state::{Mark, State};
pub use synth::Synth;
pub use telling::{
    OfOne, OfTwo, error, error_on, error_on_both, fault_at, mismatch, refusal_at, shown_under,
};
pub use typed::{Sorted, Typed};
pub use typing::{as_sort, closed_over, sort_of, type_of};
