use lf_core::{ConstInfo, Expr};

/// What a view knows of a name: the constant; that there is none; or that the body of the command at a position, or the
/// realized constant of this name, has to be made first.
#[derive(Clone, Copy, Debug)]
pub enum Lookup<'a> {
    Found(&'a ConstInfo),
    Absent,
    NeedBody(u32),
    NeedReal,
}

/// What a constant unfolds to: a definition's value; nothing; or that the body of the command at a position has to be
/// made first.
#[derive(Clone, Copy, Debug)]
pub enum BodyOf<'a> {
    Value(&'a Expr),
    Opaque,
    NeedBody(u32),
}
