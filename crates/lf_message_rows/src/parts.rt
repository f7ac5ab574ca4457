//! The parts of a diagnostic.
use lf_name::Word;
use lf_notation::Unread;
use std::alloc::Global;

/// A printed term.
pub fn term(alloc: Global, part: &str) -> Result<Word, Unread> {
    Ok(Word::new(alloc, part)?)
}

/// Two parts; a second one that isn't written is empty.
pub fn two(parts: &str) -> (&str, &str) {
    match parts.split_once(" | ") {
        Some(halves) => halves,
        None => (parts, ""),
    }
}

/// A number of a field, or a limit.
pub fn number(part: &str) -> Result<u32, Unread> {
    match part.parse::<u32>() {
        Ok(number) => Ok(number),
        Err(_) => Err(Unread::Malformed),
    }
}
