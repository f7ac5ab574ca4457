//! Telescopes of opened binders, and statements over them, at their costs.
#![tactic(auto)]

mod binding;
mod closed;
mod locals;
mod opened;
mod reflexivity;

pub use binding::{Binding, Former, as_lambda, as_pi, formed_by};
pub use closed::{lambdas_closed, pis_closed};
pub use lf_recursor::{Local, Opened};
pub use locals::{extended, implicit, push_types, push_variables, types, variables};
pub use opened::{open_lambdas, open_pis, opening_at};
pub use reflexivity::{Statement, at_itself, by_reflexivity, leading_lambdas, unfolding_of};
