/// How types are inferred.
#[derive(Clone, Copy)]
pub enum Mode<'a> {
    /// With all tests.
    Checked,
    /// The type alone, without tests: each metavariable has the type of its number here.
    Unchecked(&'a [lf_core::Expr]),
}
