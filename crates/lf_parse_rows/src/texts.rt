//! Texts, their lengths and their lines.
use lf_row_text::{RowFault, shown};
use lf_text::Text;
use std::alloc::Global;

/// The text as it was read.
pub fn same(alloc: Global, text: &Text) -> Result<String, RowFault> {
    Ok(shown(alloc, text.as_str())?)
}

/// The text's copy.
pub fn copied(alloc: Global, text: &Text) -> Result<String, RowFault> {
    match text.copy(alloc) {
        Ok(copy) => same(alloc, &copy),
        Err(_) => Err(RowFault::NoMemory),
    }
}

/// How many bytes it has.
pub fn length(alloc: Global, text: &Text) -> Result<String, RowFault> {
    let length = text.as_str().len();
    Ok(format!(in alloc; "{length}")?)
}

/// The line and the column of a place in bytes.
pub fn place(alloc: Global, text: &Text, place: &str) -> Result<String, RowFault> {
    let Ok(at) = place.parse::<usize>() else {
        return Err(RowFault::Malformed);
    };
    if !text.as_str().is_char_boundary(at) {
        return Err(RowFault::Malformed);
    }
    let (line, column) = text.line_col(at);
    Ok(format!(in alloc; "{line} {column}")?)
}
