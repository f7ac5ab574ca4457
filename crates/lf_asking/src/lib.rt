//! Calls of the checker and the kernel as rows, over views that are written down, and what they are to answer.
#![tactic(auto)]

mod answer;
mod call;
mod kernel;
mod row;
mod views;

pub use answer::Wanted;
pub use call::Call;
pub use kernel::Addition;
pub use row::{Asking, Question, Row, holds};
pub use views::{Known, add_known};
