//! What the tokens of one command are.
ghost use Rattle.std.specs.Prelude.{◌≡◌, ◌-◌, ◌≤◌, IfOk, length, drop, option_map, None};
ghost use Rattle.lf_syntax.specs.Document as document;
ghost use Rattle.lf_syntax.specs.declared.command.Command.TheVariants as form;
ghost use Rattle.lf_parse_term.specs.View.{class_view, view, views};
ghost use Rattle.lf_parse_cmd.specs.Faults.{bad, finished};

use lf_base::NoMemory;
use lf_parse_decl::command;
use lf_parse_term::{Class, Halt, Piece};
use lf_syntax::{Command, SyntaxFault};
use std::alloc::Global;

/// The greatest nesting number that a command may have.
const MOST_NESTED: usize = 256;

/// The place of the first token that is nested too deeply.
#[tactic(auto, using(crate::proofs::Deep::deep_here, crate::proofs::Deep::deep_later, crate::proofs::Deep::deep_nowhere))]
fn first_deep(toks: &[Piece]) -> Option<usize>
    ensures { result ≡ option_map (λ t. t.at) (document.first_deep (views toks.now)) }
{
    'tokens: for piece in toks {
        if piece.spot.nesting > MOST_NESTED {
            return Some(piece.spot.at);
        }
    }
    None
}

/// Where the last token ends.
fn end_of(toks: &[Piece]) -> usize
    ensures { result ≡ document.end_of (views toks.now) }
{
    match toks.last() {
        Some(piece) => piece.spot.end,
        None => 0,
    }
}

/// The fault of a token where it can't stand.
fn fault_of(class: &Class) -> SyntaxFault
    ensures { result ≡ document.fault_of (class_view class.now) }
{
    match class {
        Class::Wrong(fault) => *fault,
        Class::Word(_) | Class::Name(_, _) | Class::Number(_, _) | Class::Operator(_) => {
            SyntaxFault::Token
        }
    }
}

/// The command that is bad at this token.
fn unexpected(piece: &Piece) -> Command
    ensures { result ≡ form.Bad piece.now.spot.at (document.fault_of (class_view piece.now.class)) }
{
    Command::Bad {
        at: piece.spot.at,
        fault: fault_of(&piece.class),
    }
}

/// The command that is bad from the first of the last tokens on, or at its end where there are none.
fn bad(toks: &[Piece], last: &[Piece]) -> Command
    ensures { result ≡ bad (views toks.now) (views last.now) }
{
    match last.split_first() {
        Some((piece, _)) => unexpected(piece),
        None => Command::Bad {
            at: end_of(toks),
            fault: SyntaxFault::End,
        },
    }
}

/// The command that was read, which is bad where tokens are left.
fn finished(command: Command, rest: &[Piece]) -> Command
    ensures { result ≡ finished command (views rest.now) }
{
    match rest.split_first() {
        Some((piece, _)) => unexpected(piece),
        None => command,
    }
}

/// The command that is bad from the last `left` tokens on.
fn halted(toks: &[Piece], left: usize) -> Command
    requires { left ≤ length toks.now }
    ensures { result ≡ bad (views toks.now) (views (drop (length toks.now - left) toks.now)) }
{
    let (_, last) = toks.split_at(toks.len() - left);
    bad(toks, last)
}

/// The command of these tokens, none of which is nested too deeply.
fn shallow(alloc: Global, toks: &[Piece]) -> Result<Command, NoMemory>
    requires { document.first_deep (views toks.now) ≡ None }
    ensures { IfOk result (λ c. document.IsCommand (views toks.now) c) }
{
    match command(alloc, toks) {
        Ok((command, rest)) => Ok(finished(command, rest)),
        Err(Halt::Stuck(left)) => Ok(halted(toks, left)),
        Err(Halt::NoMemory) => Err(NoMemory),
    }
}

/// The command of these tokens.
pub fn one_command(alloc: Global, toks: &[Piece]) -> Result<Command, NoMemory>
    ensures { IfOk result (λ c. document.IsCommand (views toks.now) c) }
{
    match first_deep(toks) {
        Some(at) => Ok(Command::Bad {
            at,
            fault: SyntaxFault::Deep,
        }),
        None => shallow(alloc, toks),
    }
}
