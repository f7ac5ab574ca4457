//! The top call.
ghost use Rattle.std.specs.Prelude.{◌≡◌, ◌≤◌, ℕ, List, true, MatchResult, map, string_bytes, length};
ghost use Rattle.lf_base.specs.Outside.{rose};
ghost use Rattle.lf_rules.specs.Derived.{Derived};
ghost use Rattle.lf_rules.specs.Environment.{Environment};
ghost use Rattle.lf_front.specs.declared.status.Status.{Status as StatusValue};
ghost use Rattle.lf_front.specs.Declares.{Accepts};
ghost use Rattle.lf_front.specs.Meaning.{Means};
ghost use Rattle.lf_front.specs.Reader.{Reports, Refuses, asks};
ghost use Rattle.lf_front.specs.Runs.{RunGives};

use crate::axioms::axioms;
use crate::names::Refusal;
use crate::report::report_of;
use crate::status::Status;
use crate::token::tokens;
use lf_base::{ReadAll, Sink, Source, WriteAll, read_all, write_all};
use std::alloc::Global;

/// Whether the words are two and the second is `check`.
fn asks_for_check(words: &[String]) -> bool
    ensures { result ≡ asks (map string_bytes words.now) }
{
    words.len() == 2 && words[1].as_str() == "check"
}

/// The report of a text.
fn document(alloc: Global, text: &[u8]) -> Result<Vec<u8>, Refusal>
    requires { length text.now ≤ 1048576 }
    ensures { MatchResult result (λ report. Reports text.now report.items) (Refuses text.now) }
{
    let tokens = tokens(alloc, text)?;
    match axioms(alloc, tokens.as_slice()) {
        Ok(constants) => Ok(report_of(alloc, constants.as_slice())?),
        Err(refusal) => Err(refusal),
    }
}

fn check<S: Source, K: Sink>(alloc: Global, words: &[String], src: &mut S, out: &mut K) -> Status
    requires { asks (map string_bytes words.now) ≡ true }
    ensures { RunGives (Means (map string_bytes words.now))
        (record {
          left = S.left src.old;
          left' = S.left src.new;
          source_rose = rose (S.faults src.old) (S.faults src.new);
          held = K.held out.old;
          held' = K.held out.new;
          sink_rose = rose (K.faults out.old) (K.faults out.new);
        }) result }
{
    let text = match read_all(alloc, src, 1_048_576) {
        ReadAll::Whole(text) => text,
        ReadAll::TooLong => {
            return match write_all(out, b"fault: not built\n") {
                WriteAll::Done => Status::NotBuilt,
                WriteAll::Failed => Status::WriteFault,
            };
        }
        ReadAll::Failed => return Status::ReadFault,
        ReadAll::NoMemory => return Status::NoMemory,
    };
    match document(alloc, text.as_slice()) {
        Ok(report) => match write_all(out, report.as_slice()) {
            WriteAll::Done => Status::Clean,
            WriteAll::Failed => Status::WriteFault,
        },
        Err(Refusal::NotBuilt) => match write_all(out, b"fault: not built\n") {
            WriteAll::Done => Status::NotBuilt,
            WriteAll::Failed => Status::WriteFault,
        },
        Err(Refusal::NoMemory) => Status::NoMemory,
    }
}

/// Runs what the words ask for: `check` of a text of axioms (docs/language.md). Any other words are `BadWords`, and nothing is read.
pub fn run_serial<S: Source, K: Sink>(
    alloc: Global,
    words: &[String],
    src: &mut S,
    out: &mut K,
) -> Status
    // The bytes and the status are those that the words and the bytes mean; each other answer has its cause.
    ensures gives { RunGives (Means (map string_bytes words.now))
        (record {
          left = S.left src.old;
          left' = S.left src.new;
          source_rose = rose (S.faults src.old) (S.faults src.new);
          held = K.held out.old;
          held' = K.held out.new;
          sink_rose = rose (K.faults out.old) (K.faults out.new);
        }) result }
    // Words and bytes mean one text and one status.
    ensures one { (bytes text other : List ℕ) (s t : StatusValue) → Means (map string_bytes words.now) bytes text s
        → Means (map string_bytes words.now) bytes other t → (text ≡ other) × (s ≡ t) }
    // And it isn't the case that they mean none.
    ensures some { (bytes : List ℕ) → ((text : List ℕ) (s : StatusValue) → Means (map string_bytes words.now) bytes text s → ⊥) → ⊥ }
    // The axioms of an accepted text are derived.
    ensures derived { (bytes : List ℕ) (axioms : Environment) → Accepts bytes axioms → Derived axioms }
{
    if !asks_for_check(words) {
        return match write_all(out, b"fault: bad words\n") {
            WriteAll::Done => Status::BadWords,
            WriteAll::Failed => Status::WriteFault,
        };
    }
    check(alloc, words, src, out)
}
