//! Numbers in digits.
use lf_notation::Unread;

pub fn number(text: &str) -> Result<u32, Unread> {
    match text.parse::<u32>() {
        Ok(number) => Ok(number),
        Err(_) => Err(Unread::Malformed),
    }
}

/// The same of units and polls.
pub fn long_number(text: &str) -> Result<u64, Unread> {
    match text.parse::<u64>() {
        Ok(number) => Ok(number),
        Err(_) => Err(Unread::Malformed),
    }
}
