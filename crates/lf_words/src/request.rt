//! What the words ask for.
ghost use Rattle.std.specs.Prelude.{◌≡◌, IfOk, map, option_map, string_bytes};
ghost use Rattle.lf_words.specs.Words.{request_of, asked, seen, budget_of};

use crate::number::number_within;
use crate::values::{Values, read};
use lf_base::NoMemory;
use std::alloc::Global;

/// A run that is asked for, with the units of each part of a command.
#[derive(Clone, Copy, Debug, Drop)]
pub enum Request {
    /// The report of the text on the standard input.
    Check(u32),
    /// The summary of the document of this number of definitions and theorems.
    Gen(u32, u32),
}

fn budget(text: Option<&str>) -> Option<u32>
    ensures { result ≡ budget_of (option_map (λ s. s.now) text.entry) }
{
    match text {
        None => Some(1000000),
        Some(text) => number_within(1000, 2000000, text),
    }
}

fn asked(values: Values<'_>) -> Option<Request>
    ensures { result ≡ asked (seen values.entry) }
{
    if values.workers.is_some() {
        return None;
    }
    match (values.mode?, values.count) {
        ("check", None) => Some(Request::Check(budget(values.budget)?)),
        ("gen", Some(count)) => {
            let count = number_within(0, 1000, count)?;
            Some(Request::Gen(count, budget(values.budget)?))
        }
        _ => None,
    }
}

/// What the words ask for, the program's own name being the first (docs/language.md, the command line). None exactly
/// where they are bad words.
pub fn requested(alloc: Global, words: &[String]) -> Result<Option<Request>, NoMemory>
    ensures { IfOk result (λ r. r ≡ request_of (map string_bytes words.now)) }
{
    match read(alloc, words)? {
        Some(values) => Ok(asked(values)),
        None => Ok(None),
    }
}
