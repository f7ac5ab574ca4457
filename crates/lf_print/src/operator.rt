ghost use Rattle.std.specs.Prelude.{◌≡◌};
ghost use Rattle.std.specs.Str.{bytes_eq};
ghost use Rattle.lf_print.specs.Mark.{mark_text};
ghost use Rattle.lf_print.specs.Operators.{logic_of, arithmetic_of, operation_of, relation_of, is_negation, mark_of, IsSpelled};

use crate::mark::Mark;
use lf_core::Word;
use lf_text::Op;

fn logic(name: &str) -> Option<Op>
    ensures { result ≡ logic_of name.now }
{
    match name {
        "Iff" => Some(Op::Iff),
        "Or" => Some(Op::Or),
        "And" => Some(Op::And),
        _ => None,
    }
}

fn arithmetic(name: &str) -> Option<Op>
    ensures { result ≡ arithmetic_of name.now }
{
    match name {
        "add" => Some(Op::Add),
        "sub" => Some(Op::Sub),
        "mul" => Some(Op::Mul),
        "div" => Some(Op::Div),
        "mod" => Some(Op::Mod),
        _ => None,
    }
}

/// The operator that the constant with these parts is, with two arguments.
pub fn operation(parts: &[Word]) -> Option<Op>
    ensures { result ≡ operation_of parts.now }
{
    match parts {
        [] => None,
        [name] => logic(name.as_str()),
        [space, name] => {
            if space.as_str() == "Nat" {
                arithmetic(name.as_str())
            } else {
                None
            }
        }
        [_, _, _, ..] => None,
    }
}

/// The operator that the constant with these parts is, with three arguments, the first a type.
pub fn relation(parts: &[Word]) -> Option<Op>
    ensures { result ≡ relation_of parts.now }
{
    match parts {
        [] => None,
        [name] => match name.as_str() {
            "Eq" => Some(Op::Eq),
            "Ne" => Some(Op::Ne),
            _ => None,
        },
        [_, _, ..] => None,
    }
}

/// Whether the constant with these parts is printed before its one argument.
pub fn negation(parts: &[Word]) -> bool
    ensures { result ≡ is_negation parts.now }
{
    match parts {
        [] => false,
        [name] => name.as_str() == "Not",
        [_, _, ..] => false,
    }
}

/// What is printed between the operands: a spelling of the operator, with spaces round it.
#[tactic(auto, using(crate::proofs::Spelled::spelled))]
pub fn infix_mark(op: Op) -> Mark
    ensures value { result ≡ mark_of op }
    ensures spelled { IsSpelled op (mark_text (mark_of op)) }
{
    match op {
        Op::Iff => Mark::Iff,
        Op::Arrow => Mark::Arrow,
        Op::Or => Mark::Or,
        Op::And => Mark::And,
        Op::Eq => Mark::Eq,
        Op::Ne => Mark::Ne,
        Op::Add => Mark::Plus,
        Op::Sub => Mark::Sub,
        Op::Mul => Mark::Mul,
        Op::Div => Mark::Div,
        Op::Mod => Mark::Mod,
    }
}
