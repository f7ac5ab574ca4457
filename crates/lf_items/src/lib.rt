//! The steps of proof items that read no written term and don't unify.
#![tactic(auto)]

pub mod calls;
mod codomain;
mod equation;
mod fields;
mod form;
mod goal;
mod injection;
mod lambdas;
mod lists;
mod names;
mod raising;
mod rewriting;
mod step;

pub use codomain::codomain_at;
pub use equation::{Equation, as_equation};
pub use fields::fields_of;
pub use form::{Front, Instance, as_constant, as_pi, as_variable};
pub use goal::{Binding, assumption, intro};
pub use injection::inject;
pub use lambdas::{first_lambdas, lambdas_like};
pub use lists::{behind, first, push_all, push_levels};
pub use names::{injectivity_of, recursor_path};
pub use rewriting::{equation_term, rewritten, symmetric, turned};
pub use step::{Step, proof_by};
