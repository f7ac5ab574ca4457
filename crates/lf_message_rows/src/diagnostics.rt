//! Diagnostics by the names of their variants.
use crate::faults::{elaboration, equation, kernel, naming, proof, syntax};
use crate::parts::{term, two};
use lf_msg::{Diagnostic, Info};
use lf_notation::{Unread, name, names};
use std::alloc::Global;

/// The diagnostic of this kind and variant.
pub fn diagnostic(
    alloc: Global,
    kind: &str,
    word: &str,
    parts: &str,
) -> Result<Diagnostic, Unread> {
    match kind {
        "syntax" => Ok(Diagnostic::Syntax(syntax(word)?)),
        "naming" => Ok(Diagnostic::Naming(naming(alloc, word, parts)?)),
        "elaboration" => Ok(Diagnostic::Elaboration(elaboration(alloc, word, parts)?)),
        "proof" => Ok(Diagnostic::Proof(proof(alloc, word, parts)?)),
        "kernel" => Ok(Diagnostic::Kernel(kernel(alloc, word, parts)?)),
        "equation" => Ok(Diagnostic::Equation(equation(alloc, word, parts)?)),
        "info" => Ok(Diagnostic::Info(info(alloc, word, parts)?)),
        "other" => other(word),
        _ => Err(Unread::Malformed),
    }
}

fn other(word: &str) -> Result<Diagnostic, Unread> {
    match word {
        "NotAStructure" => Ok(Diagnostic::NotAStructure),
        "BudgetSpent" => Ok(Diagnostic::BudgetSpent),
        "UsesSorry" => Ok(Diagnostic::UsesSorry),
        _ => Err(Unread::Malformed),
    }
}

fn info(alloc: Global, word: &str, parts: &str) -> Result<Info, Unread> {
    let (first, second) = two(parts);
    match word {
        "Checked" => Ok(Info::Checked {
            term: term(alloc, first)?,
            ty: term(alloc, second)?,
        }),
        "Reduced" => Ok(Info::Reduced(term(alloc, first)?)),
        "Axioms" => Ok(Info::Axioms {
            name: name(alloc, first)?,
            axioms: names(alloc, second)?,
        }),
        _ => Err(Unread::Malformed),
    }
}
