//! What the checker does between its nested calls: costs, the view, levels, structures, rules of recursors, unfolding.
#![tactic(auto)]

mod caught;
mod halt;
mod levels;
mod literal;
mod meter;
mod recursor;
mod seen;
mod spine;
mod structure;
mod unfold;

pub use caught::{attempt, under};
pub use halt::{Halt, Refused, need, out, refusal};
pub use levels::{are_same, is_prop, is_prop_level, is_same};
pub use literal::{
    as_number, constructor_of, is_nat_succ, is_nat_zero, is_succ_name, literal_term,
};
pub use meter::{
    abstracted, at_levels, before, enter, instance, instance_before, levels_before, opening, paid,
    put,
};
pub use recursor::{Progress, Recursor, Split, fieldless, fire, shared, split_spine};
pub use seen::{Body, Seen, known_body, see};
pub use spine::{apply, arguments, head};
pub use structure::{Structure, is_built, structure_of};
pub use unfold::{Definition, Verdict, by_unfolding, unfold_head};
