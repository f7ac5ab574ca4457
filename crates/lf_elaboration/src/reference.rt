//! Names that written terms refer to.
use lf_name::Name;

/// What a name in a written term refers to: constants and variables where it stands as a term, a level where it stands
/// in a level.
#[derive(Debug, Drop)]
pub enum Reference {
    Term(Name),
    Level(Name),
}
