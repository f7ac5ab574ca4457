//! Wanted answers.
use crate::fields::Fields;
use crate::number::long_number;
use lf_asking::Wanted;
use lf_notation::Unread;

fn value<'a>(fields: &mut Fields<'a>) -> Result<Wanted<'a>, Unread> {
    let text = fields.text()?;
    match fields.optional() {
        None => Ok(Wanted::Gives(text)),
        Some(left) => Ok(Wanted::Done(text, long_number(left)?)),
    }
}

fn refusal<'a>(fields: &mut Fields<'a>) -> Result<Wanted<'a>, Unread> {
    let fault = fields.text()?;
    let opened = fields.optional().unwrap_or("");
    match fields.optional() {
        None => Ok(Wanted::Refused(fault, opened)),
        Some(left) => Ok(Wanted::RefusedWith(fault, opened, long_number(left)?)),
    }
}

/// Reads `gives | VALUE`, `gives | VALUE | UNITS`, `refused | FAULT`, `refused | FAULT | OPENED`,
/// `refused | FAULT | OPENED | UNITS`, `out`, `need | TASK` or `stopped`.
pub fn wanted<'a>(fields: &mut Fields<'a>) -> Result<Wanted<'a>, Unread> {
    match fields.text()? {
        "gives" => value(fields),
        "refused" => refusal(fields),
        "out" => Ok(Wanted::Out),
        "need" => Ok(Wanted::Need(fields.text()?)),
        "stopped" => Ok(Wanted::Stopped),
        _ => Err(Unread::Malformed),
    }
}
