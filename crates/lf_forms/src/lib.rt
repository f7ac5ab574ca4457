//! What elaboration does where binders close, in applications and for the forms of terms, between its nested calls.
#![tactic(auto)]

mod application;
mod binders;
mod binding;
mod block;
mod closing;
mod holes;
mod instance;
mod left;
mod terms;

pub use application::{Giving, Placed, Walked, agreed, giving_for, passing, tried};
pub use binders::{OneBinder, all_binders, group};
pub use binding::{Binding, as_pi};
pub use block::{Aside, begin_block, end_block, taken_from};
pub use closing::{
    becomes, fits_term, is_assigned, locals_put_in, proved_by, settled, sorry_for, sorry_of,
};
pub use holes::{by_block, hole, hole_term};
pub use instance::find_instance;
pub use left::{all_assigned, all_levels_assigned, levels_from, none_escapes};
pub use terms::{
    against, expected_pi, fits_domain, lambda_over, opened_body, pi_over, room, sorry_term, sort_at,
};
