//! The functions of `Nat` on literals.
#![tactic(auto)]

ghost use Rattle.std.specs.Prelude.{◌≡◌, option_and_then};
ghost use Rattle.lf_core.specs.Literal.{nat_function, operation_of, operation_of_text, number, compute};

pub use lf_core::LitOut;
use lf_core::{Name, Operation};
use lf_tables::{Table, rows};

// The function of `Nat` whose name ends so.
fn by_last_part(name: &str) -> Option<Operation>
    ensures { result ≡ nat_function name.now }
{
    let rows = rows! {
        "add" => Operation::Add,
        "beq" => Operation::Beq,
        "ble" => Operation::Ble,
        "div" => Operation::Div,
        "land" => Operation::Land,
        "lor" => Operation::Lor,
        "mod" => Operation::Mod,
        "mul" => Operation::Mul,
        "sub" => Operation::Sub,
        "xor" => Operation::Xor,
    };
    Table::new(&rows).find(name)
}

/// The operation that a constant of this name is: `Nat` and one more part. Takes no memory.
pub fn operation(name: &Name) -> Option<Operation>
    ensures { result ≡ operation_of name.now }
{
    match name.parts() {
        [space, last] => {
            if space.as_str() == "Nat" {
                by_last_part(last.as_str())
            } else {
                None
            }
        }
        _ => None,
    }
}

// Every `u128` is below 2^128.
fn some_number(n: u128) -> Option<LitOut>
    ensures { result ≡ number n }
{
    Some(LitOut::Nat(n))
}

/// What the operation gives. `None` exactly where the result isn't below 2^128. Takes no memory.
pub fn apply(operation: Operation, a: u128, b: u128) -> Option<LitOut>
    ensures { result ≡ compute operation a b }
{
    match operation {
        Operation::Add => some_number(a.checked_add(b)?),
        Operation::Sub => some_number(a.saturating_sub(b)),
        Operation::Mul => some_number(a.checked_mul(b)?),
        Operation::Div => some_number(if b == 0 { 0 } else { a / b }),
        Operation::Mod => some_number(if b == 0 { a } else { a % b }),
        Operation::Beq => Some(LitOut::Bool(a == b)),
        Operation::Ble => Some(LitOut::Bool(a <= b)),
        Operation::Land => some_number(a & b),
        Operation::Lor => some_number(a | b),
        Operation::Xor => some_number(a ^ b),
    }
}

/// The function of this text, as `Nat.add`, at two numbers. `None` exactly where the text is none of the ten
/// or the result isn't below 2^128. Takes no memory.
pub fn nat_op(op: &str, a: u128, b: u128) -> Option<LitOut>
    ensures { result ≡ option_and_then (λ f. compute f a b) (operation_of_text op.now) }
{
    apply(by_last_part(op.strip_prefix("Nat.")?)?, a, b)
}
