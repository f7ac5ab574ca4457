//! Levels, terms and constants.
#![tactic(auto)]

mod constant;
mod expr;
mod level;
mod literal;
mod suffix;
mod summary;

pub use constant::{Ans, ConstInfo, ConstKind, CtorInfo, Detail, IndDecl, TaskKey};
pub use expr::{Expr, ExprNode, levels_count, levels_longest, same_levels};
pub use level::{Level, LevelNode};
pub use lf_base::NoMemory;
pub use lf_name::{Binder, BinderKind, Copied, Name, Word, copy_all, same_parts};
pub use literal::{LitOut, Operation};
pub use suffix::Suffix;
