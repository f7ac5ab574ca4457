//! What a text is elaborated by.
ghost use Rattle.std.specs.Prelude.{◌≡◌, ◌↔◌, ◌<◌, Err, IfOk, length};
ghost use Rattle.lf_elaboration.specs.Scope.{start};
ghost use Rattle.lf_syntax.specs.Document.{CommandsOf};
ghost use Rattle.lf_task.specs.Plans.{scope_before, scopes_from};

use lf_core::NoMemory;
use lf_scope::Scope;
use lf_syntax::Command;
use lf_text::Text;
use std::alloc::{AllocError, AllocFailed, Global};
use std::marker::Model;

/// The greatest number of commands of a text.
pub const MOST_COMMANDS: usize = 4096;

/// Why a text has no plan.
#[derive(Clone, Copy, Debug, PartialEq, Eq)]
pub enum PlanFault {
    /// It has more than `MOST_COMMANDS` commands.
    TooMany,
    NoMemory,
}

impl From<NoMemory> for PlanFault {
    ghost use Rattle.std.specs.Prelude.{◌≡◌};
    ghost use Rattle.lf_task.specs.declared.plan.PlanFault.TheVariants as fault;

    ghost from_gives = { λ _ f. f ≡ fault.NoMemory };

    fn from(_: NoMemory) -> PlanFault {
        PlanFault::NoMemory
    }
}

/// A text with its commands, the scope before each of them, and the units of each part.
#[derive(Drop)]
pub struct Plan {
    text: Text,
    commands: Vec<Command>,
    scopes: Vec<Scope>,
    budget: u64,
}

impl Model for Plan {
    ghost use Rattle.std.specs.Prelude.{◌≡◌};
    ghost use Rattle.std.specs.Coded.{codes};
    ghost use Rattle.lf_syntax.specs.Codes as trees;
    ghost use Rattle.lf_elaboration.specs.Scope.{start};
    ghost use Rattle.lf_syntax.specs.Document.{CommandsOf};
    ghost use Rattle.lf_task.specs.Plans.{Plan as PlanValue, scopes_from};

    ghost Value = { PlanValue };

    ghost coded = { Prim.hlevel (codes, trees.coded_term) };

    ghost view = { λ p. record { text = p.text; commands = p.commands.items; budget = p.budget } };

    ghost invariant = { λ p. CommandsOf p.text p.commands.items × (p.scopes.items ≡ scopes_from start p.commands.items) };
}

// The scope before each command.
fn scopes_of(alloc: Global, commands: &[Command]) -> Result<Vec<Scope>, NoMemory>
    ensures { IfOk result (λ all. all.items ≡ scopes_from start commands.now) }
{
    let mut all = Vec::new(alloc);
    let mut scope = Scope::start();
    for command in commands {
        let (next, _mismatched) = scope.after(alloc, command)?;
        all.push(scope)?;
        scope = next;
    }
    Ok(all)
}

impl Plan {
    /// The plan of a text with these commands, which have to be its commands. `TooMany` comes exactly above `MOST_COMMANDS`.
    pub fn of(
        alloc: Global,
        text: Text,
        commands: Vec<Command>,
        budget: u64,
    ) -> Result<Plan, PlanFault>
        requires { CommandsOf text commands.items }
        ensures plan { IfOk result (λ p. p ≡ record { text = text; commands = commands.items; budget = budget }) }
        ensures too_many { (result ≡ Err PlanFault.TooMany) ↔ (MOST_COMMANDS < length commands.items) }
    {
        if commands.len() > MOST_COMMANDS {
            return Err(PlanFault::TooMany);
        }
        let scopes = scopes_of(alloc, commands.as_slice())?;
        Ok(Plan {
            text,
            commands,
            scopes,
            budget,
        })
    }

    /// The text.
    pub fn text(&self) -> &Text
        ensures { result.now ≡ self.now.text }
    {
        &self.text
    }

    /// The commands, in order.
    pub fn commands(&self) -> &[Command]
        ensures { result.now ≡ self.now.commands }
    {
        self.commands.as_slice()
    }

    /// The scope before the command of this number, from 0.
    pub fn scope(&self, i: u32) -> &Scope
        requires { i < length self.now.commands }
        ensures { result.now ≡ scope_before self.now.commands i }
    {
        let scopes = self.scopes.as_slice();
        &scopes[i as usize]
    }

    /// The units of each part.
    pub fn budget(&self) -> u64
        ensures { result ≡ self.now.budget }
    {
        self.budget
    }
}
