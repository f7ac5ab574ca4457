//! Errors by the names of their variants.
use crate::parts::{number, term, two};
use lf_msg::{
    ElaborationError, EquationError, KernelError, NamingError, ProofError, ProofItem, SyntaxError,
};
use lf_notation::{Unread, name};
use std::alloc::Global;

/// What breaks the grammar.
pub fn syntax(word: &str) -> Result<SyntaxError, Unread> {
    match word {
        "UnexpectedToken" => Ok(SyntaxError::UnexpectedToken),
        "UnexpectedEnd" => Ok(SyntaxError::UnexpectedEnd),
        "BadCharacter" => Ok(SyntaxError::BadCharacter),
        "UnclosedComment" => Ok(SyntaxError::UnclosedComment),
        "BadNumeral" => Ok(SyntaxError::BadNumeral),
        "WideNumeral" => Ok(SyntaxError::WideNumeral),
        "NestedTooDeeply" => Ok(SyntaxError::NestedTooDeeply),
        _ => Err(Unread::Malformed),
    }
}

/// What is wrong with a name or a scope.
pub fn naming(alloc: Global, word: &str, part: &str) -> Result<NamingError, Unread> {
    match word {
        "Reserved" => Ok(NamingError::Reserved(name(alloc, part)?)),
        "Duplicate" => Ok(NamingError::Duplicate(name(alloc, part)?)),
        "TooManyLevelNames" => Ok(NamingError::TooManyLevelNames {
            limit: number(part)?,
        }),
        "DuplicateLevel" => Ok(NamingError::DuplicateLevel(name(alloc, part)?)),
        "MismatchedEnd" => Ok(NamingError::MismatchedEnd),
        "UnknownModule" => Ok(NamingError::UnknownModule(name(alloc, part)?)),
        _ => Err(Unread::Malformed),
    }
}

/// Why a term isn't elaborated.
pub fn elaboration(alloc: Global, word: &str, parts: &str) -> Result<ElaborationError, Unread> {
    let (found, expected) = two(parts);
    match word {
        "UnknownIdentifier" => Ok(ElaborationError::UnknownIdentifier(name(alloc, parts)?)),
        "WrongLevelCount" => Ok(ElaborationError::WrongLevelCount(name(alloc, parts)?)),
        "UnknownLevel" => Ok(ElaborationError::UnknownLevel(name(alloc, parts)?)),
        "LevelAbove32" => Ok(ElaborationError::LevelAbove32),
        "TypeMismatch" => Ok(ElaborationError::TypeMismatch {
            found: term(alloc, found)?,
            expected: term(alloc, expected)?,
        }),
        "FunctionExpected" => Ok(ElaborationError::FunctionExpected(term(alloc, parts)?)),
        "TypeExpected" => Ok(ElaborationError::TypeExpected(term(alloc, parts)?)),
        "UndeterminedPlaceholder" => Ok(ElaborationError::UndeterminedPlaceholder),
        "UndeterminedLevel" => Ok(ElaborationError::UndeterminedLevel),
        "NoInstance" => Ok(ElaborationError::NoInstance(term(alloc, parts)?)),
        _ => Err(Unread::Malformed),
    }
}

fn item(word: &str) -> Result<ProofItem, Unread> {
    match word {
        "Intro" => Ok(ProofItem::Intro),
        "Assumption" => Ok(ProofItem::Assumption),
        "Rw" => Ok(ProofItem::Rw),
        "Unfold" => Ok(ProofItem::Unfold),
        "Induction" => Ok(ProofItem::Induction),
        "Cases" => Ok(ProofItem::Cases),
        "Injection" => Ok(ProofItem::Injection),
        _ => Err(Unread::Malformed),
    }
}

/// Why the items of a block prove nothing.
pub fn proof(alloc: Global, word: &str, part: &str) -> Result<ProofError, Unread> {
    match word {
        "NoGoals" => Ok(ProofError::NoGoals),
        "BlocksExpected" => Ok(ProofError::BlocksExpected {
            goals: number(part)? as usize,
        }),
        "UnsolvedGoal" => Ok(ProofError::UnsolvedGoal(term(alloc, part)?)),
        "Failed" => Ok(ProofError::Failed(item(part)?)),
        _ => Err(Unread::Malformed),
    }
}

/// Why the kernel refuses.
pub fn kernel(alloc: Global, word: &str, parts: &str) -> Result<KernelError, Unread> {
    let (first, second) = two(parts);
    match word {
        "UnknownConstant" => Ok(KernelError::UnknownConstant(name(alloc, parts)?)),
        "WrongLevelCount" => Ok(KernelError::WrongLevelCount(name(alloc, parts)?)),
        "FunctionExpected" => Ok(KernelError::FunctionExpected(term(alloc, parts)?)),
        "Argument" => Ok(KernelError::Argument {
            found: term(alloc, first)?,
            expected: term(alloc, second)?,
        }),
        "TypeExpected" => Ok(KernelError::TypeExpected(term(alloc, parts)?)),
        "Value" => Ok(KernelError::Value {
            found: term(alloc, first)?,
            expected: term(alloc, second)?,
        }),
        "NotClosed" => Ok(KernelError::NotClosed),
        "StructureExpected" => Ok(KernelError::StructureExpected(term(alloc, parts)?)),
        _ => declaration(alloc, word, first, second),
    }
}

// Why the kernel refuses an inductive type.
fn declaration(
    alloc: Global,
    word: &str,
    constructor: &str,
    field: &str,
) -> Result<KernelError, Unread> {
    match word {
        "NotPositive" => Ok(KernelError::NotPositive {
            constructor: name(alloc, constructor)?,
            field: number(field)?,
        }),
        "BadResult" => Ok(KernelError::BadResult(name(alloc, constructor)?)),
        "LevelTooHigh" => Ok(KernelError::LevelTooHigh {
            constructor: name(alloc, constructor)?,
            field: number(field)?,
        }),
        "BadType" => Ok(KernelError::BadType),
        _ => Err(Unread::Malformed),
    }
}

/// What is wrong with definitions by equations.
pub fn equation(alloc: Global, word: &str, part: &str) -> Result<EquationError, Unread> {
    match word {
        "NotInductive" => Ok(EquationError::NotInductive),
        "NotACase" => Ok(EquationError::NotACase(name(alloc, part)?)),
        "Twice" => Ok(EquationError::Twice(name(alloc, part)?)),
        "Missing" => Ok(EquationError::Missing(name(alloc, part)?)),
        "NotStructural" => Ok(EquationError::NotStructural(name(alloc, part)?)),
        _ => Err(Unread::Malformed),
    }
}
