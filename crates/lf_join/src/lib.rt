//! The joined environment of a text and its report: docs/language.md, Reports.
#![tactic(auto)]

mod by_name;
mod gathered;
mod joined;
mod joins;
mod lines;
mod marked;
mod marks;
mod realized;
mod reports;

pub use joined::Joined;
pub use joins::join;
pub use marked::Marks;
pub use marks::is_marked;
pub use reports::report;
