//! What is found wrong, as reports say it.
ghost use Rattle.std.specs.Prelude.{◌≡◌, ◌++◌, IfOk, OnOk, map};
ghost use Rattle.lf_document.specs.Diagnoses as spec;
ghost use Rattle.lf_msg.specs.Texts as texts;
ghost use Rattle.lf_part.specs.Says as says;

use lf_core::NoMemory;
use lf_msg::{Diagnostic, Message, NamingError};
use lf_part as found;
use std::alloc::Global;

fn diagnosis(found: found::Diagnostic) -> Diagnostic
    ensures { result ≡ spec.diagnosis (says.diagnostic found) }
{
    match found {
        found::Diagnostic::Elaboration(error) => Diagnostic::Elaboration(error),
        found::Diagnostic::Proof(error) => Diagnostic::Proof(error),
        found::Diagnostic::Kernel(error) => Diagnostic::Kernel(error),
        found::Diagnostic::Duplicate(name) => Diagnostic::Naming(NamingError::Duplicate(name)),
    }
}

/// The message of an error of elaboration.
pub fn message_of(alloc: Global, found: found::Message) -> Result<Message, NoMemory>
    ensures { IfOk result (λ m. m ≡ spec.message (says.message found)) }
{
    let found::Message { at, says } = found;
    let diagnostic = diagnosis(says);
    Message::new(alloc, at, &diagnostic)
}
