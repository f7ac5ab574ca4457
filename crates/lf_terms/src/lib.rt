//! Terms between the nested calls of elaboration: the walk along the pis of a function's type, what the forms of terms come to, the end of a
//! block. docs/language.md, Elaboration.
#![tactic(auto)]

mod block;
mod forms;
mod trees;
mod walking;

pub use block::end_block;
pub use forms::{
    agreed_unless, arrow_over, block_term, holes_from, in_sort, lambda_of, let_of, numeral,
    opened_codomain, operator_name, pi_of, sort_term, sort_term_at, type_term,
};
pub use trees::{Named, as_named, copy_terms, has_at_sign, place, shared_items};
pub use walking::{Trailing, Turn, walk};
