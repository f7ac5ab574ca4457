//! What an operation on literals gives.
/// What an operation on two literals gives.
#[derive(Clone, Copy, Debug, PartialEq, Eq)]
pub enum LitOut {
    Nat(u128),
    Bool(bool),
}

/// The functions of `Nat` that are computed on literals.
#[derive(Clone, Copy, Debug, PartialEq, Eq)]
pub enum Operation {
    Add,
    Sub,
    Mul,
    Div,
    Mod,
    Beq,
    Ble,
    Land,
    Lor,
    Xor,
}
