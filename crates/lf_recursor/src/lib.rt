//! Recursors of inductive declarations.
#![tactic(auto)]

mod family;
mod minors;
mod names;
mod recursor;
mod telescope;

pub use family::{Case, Family, opened_family};
pub use recursor::{Called, Scheme, recursor_of};
pub use telescope::{Local, Opened, lambdas_over, open_all, open_pis, pi_count, pis_over};
