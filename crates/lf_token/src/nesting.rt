ghost use Rattle.std.specs.Prelude.{◌≡◌, ◌+◌, ◌<◌, ◌^◌, [], ◌∷◌, IfOk, OnOk};
ghost use Rattle.lf_text.specs.Nesting.{nesting_of, outermost};

use lf_base::NoMemory;
use lf_text::{Count, Enclosure, Role, Token};
use std::alloc::Global;
use std::marker::Model;

/// The count at a token, and what is open there, the innermost last.
#[derive(Drop)]
struct Nest {
    count: Count,
    open: Vec<Enclosure>,
}

impl Model for Nest {
    ghost use Rattle.std.specs.Prelude.{reverse};
    ghost use Rattle.lf_text.specs.Nesting.{Nest};

    ghost Value = { Nest };

    ghost view = { λ n. record { count = n.count; open_ = reverse n.open.items } };
}

impl Nest {
    ghost use Rattle.lf_text.specs.Nesting.{nest, deeper, next_item, leave_block, leave_bracket, at_semicolon, nesting_after};
    ghost use Rattle.lf_text.specs.declared.nesting.Enclosure.TheVariants as enclosure;

    fn new(alloc: Global) -> Nest
        ensures { result ≡ outermost }
    {
        Nest {
            count: Count {
                number: 0,
                waiting: 0,
            },
            open: Vec::new(alloc),
        }
    }

    /// A command begins.
    fn restart(&mut self)
        ensures { self.new ≡ outermost }
    {
        self.count = Count {
            number: 0,
            waiting: 0,
        };
        self.open.clear();
    }

    /// One deeper.
    fn deeper(&mut self)
        requires { self.old.count.number + 1 < 2 ^ 64 }
        ensures { self.new ≡ deeper self.old }
    {
        self.count.number += 1;
    }

    /// A `let`, one deeper, waits for its `;`.
    fn await_semicolon(&mut self)
        requires number { self.old.count.number + 1 < 2 ^ 64 }
        requires waiting { self.old.count.waiting + 1 < 2 ^ 64 }
        ensures { self.new ≡ nest (self.old.count.number + 1) (self.old.count.waiting + 1) self.old.open_ }
    {
        self.count.number += 1;
        self.count.waiting += 1;
    }

    /// A bracket opens, one deeper.
    fn open_bracket(&mut self) -> Result<(), NoMemory>
        requires { self.old.count.number + 1 < 2 ^ 64 }
        ensures { OnOk result (self.new ≡ nest (self.old.count.number + 1) 0 (enclosure.Bracket self.old.count ∷ self.old.open_)) }
    {
        self.open.push(Enclosure::Bracket(self.count))?;
        self.count.number += 1;
        self.count.waiting = 0;
        Ok(())
    }

    /// A block opens.
    fn open_block(&mut self) -> Result<(), NoMemory>
        ensures { OnOk result (self.new ≡ nest self.old.count.number 0 (enclosure.Block self.old.count ∷ self.old.open_)) }
    {
        self.open.push(Enclosure::Block(self.count))?;
        self.count.waiting = 0;
        Ok(())
    }

    /// A block goes on, if one is the innermost thing open.
    fn next_item(&mut self)
        ensures { self.new ≡ next_item self.old self.old.open_ }
    {
        if let Some(Enclosure::Block(count)) = self.open.last() {
            self.count = Count {
                number: count.number,
                waiting: 0,
            };
        }
    }

    /// The block ends that is the innermost thing open, if it is one.
    fn leave_block(&mut self)
        ensures { self.new ≡ leave_block self.old self.old.open_ }
    {
        if let Some(Enclosure::Block(count)) = self.open.last() {
            self.count = *count;
            let _ = self.open.pop();
        }
    }

    /// The bracket closes that is the innermost thing open, if it is one.
    fn leave_bracket(&mut self)
        ensures { self.new ≡ leave_bracket self.old self.old.open_ }
    {
        if let Some(Enclosure::Bracket(count)) = self.open.last() {
            self.count = *count;
            let _ = self.open.pop();
        }
    }

    /// A `;` is that of a `let`, where one waits; else a block goes on.
    fn at_semicolon(&mut self)
        ensures { self.new ≡ at_semicolon self.old self.old.count.waiting }
    {
        if self.count.waiting == 0 {
            self.next_item();
        } else {
            self.count.waiting -= 1;
        }
    }

    /// A token of this role.
    fn step(&mut self, role: Role) -> Result<(), NoMemory>
        requires number { self.old.count.number + 1 < 2 ^ 64 }
        requires waiting { self.old.count.waiting + 1 < 2 ^ 64 }
        ensures { OnOk result (self.new ≡ nesting_after self.old role) }
    {
        match role {
            Role::Command => self.restart(),
            Role::BlockOpener | Role::Nesting => self.deeper(),
            Role::Where | Role::Other => {}
            Role::Bar => self.count.number = 0,
            Role::Opening => self.open_bracket()?,
            Role::Closing => self.leave_bracket(),
            Role::Let => self.await_semicolon(),
            Role::Semicolon => self.at_semicolon(),
            Role::BlockOpen => self.open_block()?,
            Role::BlockSep => self.next_item(),
            Role::BlockClose => self.leave_block(),
        }
        Ok(())
    }
}

/// The nesting number of each token, at the token; they begin with a command.
pub fn nesting_numbers(alloc: Global, tokens: &[Token]) -> Result<Vec<usize>, NoMemory>
    ensures { IfOk result (λ v. v.items ≡ nesting_of outermost tokens.now) }
{
    let mut numbers = Vec::new(alloc);
    let mut nest = Nest::new(alloc);
    'tokens: for token in tokens {
        nest.step(token.kind.role())?;
        numbers.push(nest.count.number)?;
    }
    Ok(numbers)
}
