use lf_syntax::Term;

/// What may come next of an application.
#[derive(Debug, Drop)]
pub enum Element {
    /// A term behind which arguments may stand.
    Atom(Term),
    /// A form that reaches as far as it can.
    Lead(Term),
}
