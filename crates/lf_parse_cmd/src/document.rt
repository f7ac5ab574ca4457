//! The commands of a text.
ghost use Rattle.std.specs.Prelude.{◌≡◌, ◌≤◌, IfOk, length};
ghost use Rattle.std.specs.List.{prefix_len};
ghost use Rattle.lf_syntax.specs.Document.{AreCommands, CommandsOf, inside};
ghost use Rattle.lf_syntax.specs.Piece as syntax;
ghost use Rattle.lf_parse_term.specs.View.{class_view, views};

use crate::command::one_command;
use crate::piece::pieces;
use lf_base::NoMemory;
use lf_parse_term::{Class, Piece};
use lf_syntax::Command;
use lf_text::{Role, Text};
use std::alloc::Global;

/// Whether a token begins a command.
fn begins_command(class: &Class) -> bool
    ensures { result ≡ syntax.begins_command (class_view class.now) }
{
    match class {
        Class::Word(word) => word.role() == Role::Command,
        Class::Name(_, _) | Class::Number(_, _) | Class::Operator(_) | Class::Wrong(_) => false,
    }
}

/// How many tokens there are before the next command.
#[tactic(auto, using(crate::proofs::Cut::inside_more, crate::proofs::Cut::inside_stops, crate::proofs::Cut::inside_ends))]
fn inside(toks: &[Piece]) -> usize
    ensures count { result ≡ prefix_len inside (views toks.now) }
    ensures within { result ≤ length toks.now }
{
    let mut count = 0;
    'tokens: for piece in toks {
        if begins_command(&piece.class) {
            return count;
        }
        count += 1;
    }
    count
}

/// The commands of these tokens.
fn commands(alloc: Global, toks: &[Piece]) -> Result<Vec<Command>, NoMemory>
    ensures { IfOk result (λ cs. AreCommands (views toks.now) cs.items) }
{
    let mut all = Vec::new(alloc);
    let mut rest = toks;
    'commands: while let Some((_, behind)) = rest.split_first() {
        let (own, more) = rest.split_at(inside(behind) + 1);
        all.push(one_command(alloc, own)?)?;
        rest = more;
    }
    Ok(all)
}

/// The commands of the text, bad ones among them. Its one fault is `NoMemory`.
pub fn parse(alloc: Global, text: &Text) -> Result<Vec<Command>, NoMemory>
    ensures { IfOk result (λ cs. CommandsOf text.now cs.items) }
{
    let toks = pieces(alloc, text)?;
    commands(alloc, &toks)
}
