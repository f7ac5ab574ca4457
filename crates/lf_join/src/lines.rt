//! The lines of a report.
ghost use Rattle.std.specs.Prelude.{◌≡◌, IfOk, [], string_bytes};
ghost use Rattle.std.specs.Str.{IsCharBoundary};
ghost use Rattle.lf_document.specs.Report as spec;
ghost use Rattle.lf_print.specs.Printed.{print_text};
ghost use Rattle.lf_join.specs.LineParts.{counts_text};

use crate::marks::is_marked;
use lf_core::{ConstInfo, ConstKind, Name, NoMemory, Word};
use lf_msg::Message;
use lf_print::print;
use lf_text::Text;
use std::alloc::Global;
use std::fmt;

/// Parts of a name, each behind a dot.
#[derive(Clone, Copy)]
struct BehindDots<'a>(&'a [Word]);

impl fmt::Display for BehindDots<'_> {
    ghost use Rattle.std.specs.Prelude.{Some, flat_map};
    ghost use Rattle.lf_msg.specs.Names.{behind_dot};

    ghost output = { λ d. Some (flat_map behind_dot d.0.now) };

    fn fmt<W: fmt::Write>(&self, f: &mut fmt::Formatter<W>) -> fmt::Result {
        'parts: for part in self.0 {
            write!(f, ".{}", part.as_str())?;
        }
        Ok(())
    }
}

/// A name with its parts joined by dots.
#[derive(Clone, Copy)]
struct Dotted<'a>(&'a Name);

impl fmt::Display for Dotted<'_> {
    ghost use Rattle.std.specs.Prelude.{Some};
    ghost use Rattle.lf_msg.specs.Names.{dotted};

    ghost output = { λ d. Some (dotted d.0.now) };

    fn fmt<W: fmt::Write>(&self, f: &mut fmt::Formatter<W>) -> fmt::Result {
        match self.0.parts() {
            [] => Ok(()),
            [first, rest @ ..] => write!(f, "{}{}", first.as_str(), BehindDots(rest)),
        }
    }
}

/// A kind, as a report writes it.
#[derive(Clone, Copy)]
struct KindWord(ConstKind);

impl fmt::Display for KindWord {
    ghost use Rattle.std.specs.Prelude.{Some};
    ghost use Rattle.lf_document.specs.Report.{kind_text};

    ghost output = { λ k. Some (kind_text k.0) };

    fn fmt<W: fmt::Write>(&self, f: &mut fmt::Formatter<W>) -> fmt::Result {
        f.write_str(match self.0 {
            ConstKind::Axiom => "axiom",
            ConstKind::Def => "def",
            ConstKind::Theorem => "theorem",
            ConstKind::Inductive => "inductive",
            ConstKind::Constructor => "constructor",
            ConstKind::Recursor => "recursor",
        })
    }
}

// The mark of a constant that rests on `sorryAx`.
fn mark(marked: bool) -> &'static str
    ensures { result.now ≡ spec.mark_text marked }
{
    if marked { " (sorry)" } else { "" }
}

/// The line of a message, which stands at a place of the text.
pub fn message_line(alloc: Global, text: &Text, message: &Message) -> Result<String, NoMemory>
    requires { IsCharBoundary text.now message.now.at }
    ensures { IfOk result (λ line. string_bytes line ≡ spec.message_line text.now message.now) }
{
    let (line, column) = text.line_col(message.at);
    let severity = message.severity;
    let says = message.text.as_str();
    Ok(format!(in alloc; "{line}:{column}: {severity}: {says}\n")?)
}

/// The line of a constant.
pub fn constant_line(alloc: Global, constant: &ConstInfo) -> Result<String, NoMemory>
    ensures { IfOk result (λ line. string_bytes line ≡ spec.constant_line constant.now) }
{
    let kind = KindWord(constant.kind);
    let typed = typed_text(alloc, constant)?;
    let typed = typed.as_str();
    let mark = mark(is_marked(constant));
    Ok(format!(in alloc; "{kind} {typed}{mark}\n")?)
}

/// The line of a realized constant.
pub fn realized_line(alloc: Global, constant: &ConstInfo) -> Result<String, NoMemory>
    ensures { IfOk result (λ line. string_bytes line ≡ spec.realized_line constant.now) }
{
    let typed = typed_text(alloc, constant)?;
    let typed = typed.as_str();
    Ok(format!(in alloc; "realized {typed}\n")?)
}

fn type_text(alloc: Global, constant: &ConstInfo) -> Result<String, NoMemory>
    ensures { IfOk result (λ text. string_bytes text ≡ print_text [] constant.now.levels constant.now.ty) }
{
    let none: Vec<Name> = Vec::new(alloc);
    let text = print(
        alloc,
        &constant.ty,
        none.as_slice(),
        constant.levels.as_slice(),
    )?;
    Ok(text)
}

fn typed_text(alloc: Global, constant: &ConstInfo) -> Result<String, NoMemory>
    ensures { IfOk result (λ text. string_bytes text ≡ spec.typed_text constant.now) }
{
    let name = Dotted(&constant.name);
    let ty = type_text(alloc, constant)?;
    let ty = ty.as_str();
    Ok(format!(in alloc; "{name} : {ty}")?)
}

/// The line of the counts of errors and of warnings.
pub fn counts_line(alloc: Global, errors: u64, warnings: u64) -> Result<String, NoMemory>
    ensures { IfOk result (λ line. string_bytes line ≡ counts_text errors warnings) }
{
    Ok(format!(in alloc; "{errors} errors, {warnings} warnings\n")?)
}
