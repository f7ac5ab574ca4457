ghost use Rattle.std.specs.Prelude.{List, ℕ, ◌≡◌, ◌+◌, ◌^◌, ◌≤◌, ◌<◌, length, OnOk, IfOk, [], ◌++◌};
ghost use Rattle.std.specs.Str.{IsCharBoundary};
ghost use Rattle.lf_text.specs.Place.{line_of, column_of};
ghost use Rattle.lf_text.specs.Layout.{mark, laid_out, opens_block};
ghost use Rattle.lf_token.specs.Layouts.{Knows, Puts};

use crate::place::Place;
use crate::stack::Stack;
use lf_base::NoMemory;
use lf_text::{Role, Token, TokenKind, Word};
use std::alloc::Global;

/// The tokens so far, and what the layout rules know of the last one.
#[derive(Drop)]
pub struct Layout {
    stack: Stack,
    previous: Token,
    line: usize,
    role: Role,
}

/// Whether a block opens between two tokens of these roles.
fn opens_block(previous: Role, role: Role) -> bool
    ensures { result ≡ opens_block previous role }
{
    match previous {
        Role::BlockOpener => true,
        Role::Where => !matches!(role, Role::Bar),
        _ => false,
    }
}

impl Layout {
    /// No tokens yet.
    pub fn new(alloc: Global) -> Layout
        ensures knows { (bytes : List ℕ) → Knows bytes result }
        ensures stack { (result.stack.tokens ≡ []) × (result.stack.frames ≡ []) }
        ensures previous { result.previous ≡ mark Word.LayoutClose 0 }
    {
        let previous = Token {
            at: 0,
            len: 0,
            kind: TokenKind::Word(Word::LayoutClose),
        };
        Layout {
            stack: Stack::new(alloc),
            previous,
            line: 1,
            role: Role::BlockClose,
        }
    }

    /// A token of the text, and before it what the rules say.
    pub fn put(&mut self, text: &str, token: Token, place: Place) -> Result<(), NoMemory>
        requires knows { Knows text.now self.old }
        requires short { length text.now < 2 ^ 32 }
        requires at { place.at ≡ token.at }
        requires line { place.line ≡ line_of text.now token.at }
        requires column { place.column ≡ column_of text.now token.at }
        requires start { IsCharBoundary text.now token.at }
        requires end { IsCharBoundary text.now (token.at + token.len) }
        ensures knows { OnOk result (Knows text.now self.new) }
        ensures puts { OnOk result (Puts text.now self.old token self.new) }
    {
        let role = token.kind.role();
        let opens = opens_block(self.role, role);
        let first = self.line < place.line;
        let end = self.previous.at + self.previous.len;
        self.stack.lead(place, end, role, opens, first)?;
        self.stack.push(token, role)?;
        self.previous = token;
        self.line = place.line;
        self.role = role;
        Ok(())
    }

    /// All the tokens, the blocks of the last command closed.
    pub fn finish(self, text: &str) -> Result<Vec<Token>, NoMemory>
        requires short { length text.now < 2 ^ 32 }
        requires knows { Knows text.now self }
        ensures { IfOk result (λ v. v.items ≡ self.stack.tokens ++ laid_out text.now self.previous self.stack.frames []) }
    {
        let mut stack = self.stack;
        stack.end_command(self.previous.at + self.previous.len)?;
        Ok(stack.into_tokens())
    }
}
