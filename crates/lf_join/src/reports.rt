//! The report of a text.
ghost use Rattle.std.specs.Prelude.{◌≡◌, ◌≤◌, ◌++◌, All, IfOk, OnOk, drop, length, filter, flat_map, not, string_bytes, count_by};
ghost use Rattle.std.specs.Str.{IsCharBoundary};
ghost use Rattle.lf_document.specs.Report as spec;
ghost use Rattle.lf_rules.specs.Recursor.{is_among};
ghost use Rattle.lf_join.specs.Sets.{has};
ghost use Rattle.lf_join.specs.LineParts.{counts_text, line_if};

use crate::by_name::{Set, contains, set_of};
use crate::joined::Joined;
use crate::lines::{constant_line, counts_line, message_line, realized_line};
use lf_core::{ConstInfo, Name, NoMemory};
use lf_msg::{Message, Severity};
use lf_text::Text;
use std::alloc::Global;

// How many errors and how many warnings there are.
#[derive(Clone, Copy, Debug)]
struct Counts {
    errors: u64,
    warnings: u64,
}

fn put_messages(
    alloc: Global,
    out: &mut String,
    text: &Text,
    messages: &[Message],
) -> Result<(), NoMemory>
    requires { All (λ m. IsCharBoundary text.now m.at) messages.now }
    ensures { OnOk result (string_bytes out.new ≡ string_bytes out.old ++ flat_map (spec.message_line text.now) messages.now) }
{
    for message in messages {
        out.push_str(message_line(alloc, text, message)?.as_str())?;
    }
    Ok(())
}

// The line of the constant, where it isn't in the set.
fn put_own_line(
    alloc: Global,
    out: &mut String,
    realized: &Set<'_>,
    constant: &ConstInfo,
) -> Result<(), NoMemory>
    ensures { OnOk result (string_bytes out.new
        ≡ string_bytes out.old ++ line_if spec.constant_line constant.now (not (has realized.now.keys constant.now.name))) }
{
    if !contains(realized, &constant.name) {
        out.push_str(constant_line(alloc, constant)?.as_str())?;
    }
    Ok(())
}

// The constants that aren't in the set.
fn put_own(
    alloc: Global,
    out: &mut String,
    realized: &Set<'_>,
    constants: &[ConstInfo],
) -> Result<(), NoMemory>
    ensures { OnOk result (string_bytes out.new ≡ string_bytes out.old
        ++ flat_map spec.constant_line (filter (λ c. not (has realized.now.keys c.name)) constants.now)) }
{
    for constant in constants {
        put_own_line(alloc, out, realized, constant)?;
    }
    Ok(())
}

// The line of the constant as a realized one, where it is in the set.
fn put_realized_line(
    alloc: Global,
    out: &mut String,
    realized: &Set<'_>,
    constant: &ConstInfo,
) -> Result<(), NoMemory>
    ensures { OnOk result (string_bytes out.new
        ≡ string_bytes out.old ++ line_if spec.realized_line constant.now (has realized.now.keys constant.now.name)) }
{
    if contains(realized, &constant.name) {
        out.push_str(realized_line(alloc, constant)?.as_str())?;
    }
    Ok(())
}

// The constants that are in the set.
fn put_realized(
    alloc: Global,
    out: &mut String,
    realized: &Set<'_>,
    constants: &[ConstInfo],
) -> Result<(), NoMemory>
    ensures { OnOk result (string_bytes out.new ≡ string_bytes out.old
        ++ flat_map spec.realized_line (filter (λ c. has realized.now.keys c.name) constants.now)) }
{
    for constant in constants {
        put_realized_line(alloc, out, realized, constant)?;
    }
    Ok(())
}

// The constants that aren't realized, and then those that are.
fn put_constants(
    alloc: Global,
    out: &mut String,
    realized: &[Name],
    constants: &[ConstInfo],
) -> Result<(), NoMemory>
    ensures { OnOk result (string_bytes out.new ≡ string_bytes out.old
        ++ (flat_map spec.constant_line (filter (λ c. not (is_among c.name realized.now)) constants.now)
        ++ flat_map spec.realized_line (filter (λ c. is_among c.name realized.now) constants.now))) }
{
    let realized = set_of(alloc, realized)?;
    put_own(alloc, out, &realized, constants)?;
    put_realized(alloc, out, &realized, constants)?;
    Ok(())
}

fn counted(messages: &[Message]) -> Result<Counts, NoMemory>
    ensures errors { IfOk result (λ c. c.errors ≡ count_by spec.is_error messages.now) }
    ensures warnings { IfOk result (λ c. c.warnings ≡ count_by spec.is_warning messages.now) }
{
    let mut errors: u64 = 0;
    let mut warnings: u64 = 0;
    for message in messages {
        match message.severity {
            Severity::Error => errors = errors.checked_add(1).ok_or(NoMemory)?,
            Severity::Warning => warnings = warnings.checked_add(1).ok_or(NoMemory)?,
            Severity::Info => {}
        }
    }
    Ok(Counts { errors, warnings })
}

fn put_counts(alloc: Global, out: &mut String, messages: &[Message]) -> Result<(), NoMemory>
    ensures { OnOk result (string_bytes out.new
        ≡ string_bytes out.old ++ counts_text (count_by spec.is_error messages.now) (count_by spec.is_warning messages.now)) }
{
    let counts = counted(messages)?;
    out.push_str(counts_line(alloc, counts.errors, counts.warnings)?.as_str())?;
    Ok(())
}

// The constants of the text.
fn behind_base(joined: &Joined) -> &[ConstInfo]
    requires { joined.now.base ≤ length joined.now.constants }
    ensures { result.now ≡ drop joined.now.base joined.now.constants }
{
    &joined.constants.as_slice()[joined.base as usize..]
}

/// The report: a line for each message, for each constant of the text that isn't realized, and for each realized one, and
/// the counts of errors and warnings. Each message stands at a place of the text, between two characters.
pub fn report(alloc: Global, joined: &Joined) -> Result<Vec<u8>, NoMemory>
    requires places { All (λ m. IsCharBoundary joined.now.text m.at) joined.now.messages }
    requires base { joined.now.base ≤ length joined.now.constants }
    ensures { IfOk result (λ bytes. bytes.items ≡ spec.report_of joined.now) }
{
    let mut out = String::new(alloc);
    put_messages(alloc, &mut out, &joined.text, joined.messages.as_slice())?;
    let constants = behind_base(joined);
    put_constants(alloc, &mut out, joined.realized.as_slice(), constants)?;
    put_counts(alloc, &mut out, joined.messages.as_slice())?;
    Ok(out.into_bytes())
}
