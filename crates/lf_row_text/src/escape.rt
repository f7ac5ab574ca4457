//! Escapes.
use crate::fault::RowFault;
use std::alloc::{AllocError, Global};

/// The bytes that a row writes. A backslash begins an escape: `\n`, `\r` or `\t`, `\xff` for a byte by two hexadecimal
/// digits, `\{3 ab}` for `ab` three times.
pub fn bytes(alloc: Global, row: &str) -> Result<Vec<u8>, RowFault> {
    let mut all = Vec::new(alloc);
    let mut parts = row.split('\\');
    if let Some(plain) = parts.next() {
        all.extend_from_slice(plain.as_bytes())?;
    }
    for part in parts {
        put_escape(&mut all, part)?;
    }
    Ok(all)
}

// An escape behind its backslash, and what follows it plainly.
fn put_escape(all: &mut Vec<u8>, part: &str) -> Result<(), RowFault> {
    if let Some(rest) = part.strip_prefix('x') {
        return put_byte(all, rest);
    }
    if let Some(rest) = part.strip_prefix('{') {
        return put_repeated(all, rest);
    }
    let (letter, rest) = part.split_at_checked(1).ok_or(RowFault::Malformed)?;
    all.push(named(letter)?)?;
    all.extend_from_slice(rest.as_bytes())?;
    Ok(())
}

fn named(letter: &str) -> Result<u8, RowFault> {
    match letter {
        "n" => Ok(b'\n'),
        "r" => Ok(b'\r'),
        "t" => Ok(b'\t'),
        _ => Err(RowFault::Malformed),
    }
}

fn put_byte(all: &mut Vec<u8>, part: &str) -> Result<(), RowFault> {
    let (digits, rest) = part.split_at_checked(2).ok_or(RowFault::Malformed)?;
    match u8::from_str_radix(digits, 16) {
        Ok(byte) => all.push(byte)?,
        Err(_) => return Err(RowFault::Malformed),
    }
    all.extend_from_slice(rest.as_bytes())?;
    Ok(())
}

fn put_repeated(all: &mut Vec<u8>, part: &str) -> Result<(), RowFault> {
    let (count, behind) = part.split_once(' ').ok_or(RowFault::Malformed)?;
    let (repeated, rest) = behind.split_once('}').ok_or(RowFault::Malformed)?;
    let Ok(count) = count.parse::<u32>() else {
        return Err(RowFault::Malformed);
    };
    for _ in 0..count {
        all.extend_from_slice(repeated.as_bytes())?;
    }
    all.extend_from_slice(rest.as_bytes())?;
    Ok(())
}

/// The row that writes this text: backslashes and control characters as escapes.
pub fn shown(alloc: Global, text: &str) -> Result<String, AllocError> {
    let mut row = String::new(alloc);
    for letter in text.chars() {
        match letter {
            '\n' => row.push_str("\\n")?,
            '\r' => row.push_str("\\r")?,
            '\t' => row.push_str("\\t")?,
            '\\' => row.push_str("\\x5c")?,
            '\0'..' ' => write!(row, "\\x{:02x}", u32::from(letter))?,
            _ => row.push(letter)?,
        }
    }
    Ok(row)
}
