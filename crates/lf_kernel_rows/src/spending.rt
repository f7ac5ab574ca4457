//! What a call may spend, and how it is asked.
use crate::number::{long_number, number};
use lf_asking::Asking;
use lf_base::Budget;
use lf_notation::Unread;

// The nested calls that a row allows which doesn't say how many.
const DEPTH: u32 = 512;

/// The budget of a call, and how it is asked.
#[derive(Clone, Copy)]
pub struct Spending {
    pub budget: Budget,
    pub asking: Asking,
}

fn asked(units: u64, asking: Asking) -> Spending {
    let budget = Budget {
        units,
        depth: DEPTH,
    };
    Spending { budget, asking }
}

fn nested(units: u64, depth: u32) -> Spending {
    let budget = Budget { units, depth };
    let asking = Asking::Once;
    Spending { budget, asking }
}

fn special(units: u64, text: &str) -> Result<Spending, Unread> {
    let (word, text) = text.split_once(' ').ok_or(Unread::Malformed)?;
    match word {
        "nested" => Ok(nested(units, number(text)?)),
        "stopped" => Ok(asked(units, Asking::Stopped(long_number(text)?))),
        "again" => Ok(asked(units, Asking::Again(long_number(text)?))),
        _ => Err(Unread::Malformed),
    }
}

/// Reads `18`, so many units with 512 nested calls; `2 nested 1`; `18 stopped 3`, at the third poll; or `18 again 3`.
pub fn spent(text: &str) -> Result<Spending, Unread> {
    match text.split_once(' ') {
        None => Ok(asked(long_number(text)?, Asking::Once)),
        Some((units, text)) => special(long_number(units)?, text),
    }
}
