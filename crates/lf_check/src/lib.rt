//! The plain checker: weak head forms, equality, types and normal forms, with what they cost.
#![tactic(auto)]

mod built;
mod calls;
mod compare;
mod cx;
mod form;
mod judge;
mod mode;
mod normal;
mod reduce;
mod step;
mod turn;
mod typing;

pub use calls::{CheckCx, ended, equal, infer, infer_unchecked, nf, whnf};
pub use compare::equal as equal_within;
pub use cx::{Cx, close, open};
pub use judge::{infer as infer_within, sort_of};
pub use mode::Mode;
pub use normal::normalize as normalize_within;
pub use reduce::whnf as whnf_within;
