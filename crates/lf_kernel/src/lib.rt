//! What the kernel lets into an environment: headers, definitions, theorems and inductive types.
#![tactic(auto)]

mod calls;
mod closed;
mod decl;
mod fresh;
mod header;
mod height;
mod inductive;

pub use calls::{add_decl, add_header, add_inductive};
