//! The metavariables of a part.
ghost use Rattle.std.specs.Prelude.{◌≡◌, ◌≤◌, ◌<◌, ◌-◌, ◌++◌, ◌∷◌, [], None, Some, length, take, map, slice_get, option_map, IfOk, OnOk, OnErr};
ghost use Rattle.std.specs.Option.{option_copied};
ghost use Rattle.lf_elaboration.specs.Metavariables as spec;
ghost use Rattle.lf_subst.specs.Answer.{Substitutes};
ghost use Rattle.lf_meta.specs.Answers.{Makes, MakesLevel, Assigns, AssignsLevel, Refuses, PutsWithin};
ghost use Rattle.lf_elaboration.specs.declared.change.Change.TheVariants.{Assigned};
ghost use Rattle.lf_meta.specs.Kept.{origins_in};

use crate::assigned::has_assigned;
use crate::fault::MetaFault;
use crate::limit::{LOOSE, Limit, PutFault};
use crate::made::{Origin, Rows};
use crate::put_level::put_level;
use crate::put_term::put;
use crate::reach::Reach;
use crate::table::{clear, reach};
use crate::variables::{occurs, occurs_in_level, outside};
use lf_core::{Expr, Level, NoMemory};
use lf_elaboration::Change;
use lf_subst::{DEEPEST, SubstFault};
use sqlite_items::Items;
use std::alloc::Global;
use std::marker::Model;

// All assignments may be followed, and so many calls be nested as a thread's stack has room for.
const WHOLE: Reach = Reach {
    chain: 4294967295,
    nesting: 2200,
};

/// The metavariables of a part, which contracts see as the list of their changes.
#[derive(Debug, Drop)]
pub struct Metas {
    alloc: Global,
    changes: Items<Change>,
    // what the changes say, by the numbers of the metavariables
    made: Rows,
    values: Items<Option<Expr>>,
    level_count: u32,
    level_values: Items<Option<Level>>,
}

impl Model for Metas {
    ghost use Rattle.std.specs.Prelude.{List};
    ghost use Rattle.std.specs.Coded.{codes};
    ghost use Rattle.lf_elaboration.specs.declared.change.Change.{Change};
    ghost use Rattle.lf_elaboration.specs.contracts.change.Change as change;
    ghost use Rattle.lf_meta.specs.Kept.{IsKept};

    ghost Value = { List Change };

    ghost coded = { Prim.hlevel (codes, change.the_row.coded) };

    ghost view = { λ m. m.changes };

    ghost invariant = { λ m. IsKept m.changes m.made.types m.made.origins m.values m.level_count m.level_values };
}

impl Metas {
    /// No metavariable is made.
    pub fn new(alloc: Global) -> Metas
        ensures { result ≡ [] }
    {
        Metas {
            alloc,
            changes: Items::new(alloc),
            made: Rows::new(alloc),
            values: Items::new(alloc),
            level_count: 0,
            level_values: Items::new(alloc),
        }
    }

    /// The allocator.
    pub fn alloc(&self) -> Global {
        self.alloc
    }

    /// How many metavariables of terms were made.
    pub fn count(&self) -> u32
        ensures { result ≡ spec.count self.now }
    {
        self.made.types.len() as u32
    }

    /// How many metavariables of levels were made.
    pub fn level_count(&self) -> u32
        ensures { result ≡ spec.level_count self.now }
    {
        self.level_count
    }

    /// The types that the metavariables were made with, by their numbers.
    pub fn types(&self) -> &[Expr]
        ensures { result.now ≡ spec.types_of self.now }
    {
        self.made.types.as_slice()
    }

    // For what a metavariable was made.
    fn origin(&self, m: u32) -> Option<Origin>
        ensures { result ≡ slice_get (origins_in self.now) m }
    {
        self.made.origins.get(m as usize).copied()
    }

    /// The type that it was made with.
    pub fn ty(&self, m: u32) -> &Expr
        requires { m < spec.count self.now }
        ensures { slice_get (spec.types_of self.now) m ≡ Some result.now }
    {
        &self.made.types.as_slice()[m as usize]
    }

    /// The number of locals of its context.
    pub fn locals(&self, m: u32) -> u32
        requires { m < spec.count self.now }
        ensures { option_map (λ v. v.locals) (slice_get (spec.metavariables self.now) m) ≡ Some result }
    {
        self.made.origins.as_slice()[m as usize].locals
    }

    /// The place of the node that made it, in bytes.
    pub fn at(&self, m: u32) -> usize
        requires { m < spec.count self.now }
        ensures { option_map (λ v. v.at) (slice_get (spec.metavariables self.now) m) ≡ Some result }
    {
        self.made.origins.as_slice()[m as usize].at
    }

    /// The term that it stands for.
    pub fn value(&self, m: u32) -> Option<&Expr>
        ensures { option_copied result ≡ spec.value self.now m }
    {
        match self.values.get(m as usize) {
            Some(Some(value)) => Some(value),
            _ => None,
        }
    }

    /// The level that the metavariable of levels stands for.
    pub fn level_value(&self, m: u32) -> Option<&Level>
        ensures { option_copied result ≡ spec.level_value self.now m }
    {
        match self.level_values.get(m as usize) {
            Some(Some(value)) => Some(value),
            _ => None,
        }
    }

    /// A new metavariable of this type, made for a context of so many locals by the node at this place.
    #[tactic(auto, using(crate::proofs::Changing::as_long, crate::proofs::Changing::pushed_back))]
    pub fn fresh(&mut self, ty: Expr, locals: u32, at: usize) -> Result<u32, NoMemory>
        requires { spec.count self.old < 4294967295 }
        ensures { Makes self.old ty locals at result self.new }
    {
        let number = self.made.types.len() as u32;
        let kept = ty.copy(self.alloc)?;
        self.made.push(kept, Origin { locals, at })?;
        if self.changes.push(Change::Made { ty, locals, at }).is_err() {
            self.made.pop();
            return Err(NoMemory);
        }
        Ok(number)
    }

    /// A new metavariable of levels.
    pub fn fresh_level(&mut self) -> Result<u32, NoMemory>
        requires { spec.level_count self.old < 4294967295 }
        ensures { MakesLevel self.old result self.new }
    {
        let number = self.level_count;
        self.changes.push(Change::LevelMade)?;
        self.level_count = number + 1;
        Ok(number)
    }

    /// Whether an assigned metavariable stands in the term.
    pub fn has_assigned(&self, term: &Expr) -> bool
        ensures { result ≡ spec.has_assigned self.now term.now }
    {
        has_assigned(self, term)
    }

    /// The term with its assigned metavariables put in. One in which none is assigned is handed back.
    #[tactic(auto, using(crate::proofs::Heads::put_in_stays), unfolding(lf_elaboration::specs::Metavariables::chain_limit))]
    pub fn put_in(&self, term: &Expr) -> Result<Expr, NoMemory>
        ensures { IfOk result (λ t. t ≡ spec.put_in self.now term.now) }
    {
        if !self.has_assigned(term) {
            return term.copy(self.alloc);
        }
        match put(self, WHOLE, LOOSE, term) {
            Ok(whole) => Ok(whole),
            Err(_) => Err(NoMemory),
        }
    }

    /// The level with its assigned metavariables put in.
    #[tactic(auto, unfolding(lf_elaboration::specs::Metavariables::chain_limit))]
    pub fn put_in_level(&self, level: &Level) -> Result<Level, NoMemory>
        ensures { IfOk result (λ l. l ≡ spec.put_level self.now level.now) }
    {
        match put_level(self, WHOLE, LOOSE, level) {
            Ok(whole) => Ok(whole),
            Err(_) => Err(NoMemory),
        }
    }

    /// The term with its assigned metavariables put in, or nothing exactly where it is deeper than 1,024 or has more than
    /// `left` nodes. A term in which none is assigned is handed back.
    #[tactic(auto, using(crate::proofs::Heads::put_in_stays), unfolding(lf_elaboration::specs::Metavariables::chain_limit))]
    pub fn put_within(&self, term: &Expr, left: u64) -> Result<Option<Expr>, NoMemory>
        ensures { PutsWithin left (spec.put_in self.now term.now) result }
    {
        let limit = Limit {
            firm: true,
            room: left,
            deep: DEEPEST,
        };
        let made = if self.has_assigned(term) {
            put(self, WHOLE, limit, term)
        } else {
            limit.term(self.alloc, term)
        };
        match made {
            Ok(whole) => Ok(Some(whole)),
            Err(PutFault::TooLarge) => Ok(None),
            Err(PutFault::NoMemory) => Err(NoMemory),
        }
    }

    /// The term with its assigned metavariables put in, and its number of nodes. `TooDeep` comes exactly where it is
    /// deeper than 1,024, `Units` exactly where it isn't and has more than `left` nodes.
    pub fn instantiate(&self, term: &Expr, left: u64) -> Result<(Expr, u64), SubstFault>
        ensures { Substitutes (spec.put_in self.now term.now) left result }
    {
        if let Some(whole) = self.put_within(term, left)? {
            let nodes = whole.node_count();
            return Ok((whole, nodes));
        }
        let whole = self.put_in(term)?;
        if whole.depth() > DEEPEST {
            Err(SubstFault::TooDeep)
        } else {
            Err(SubstFault::Units)
        }
    }

    // The number of locals of which the values of a metavariable may speak.
    fn scope(&self, m: u32) -> u32
        ensures { result ≡ spec.scope_of self.now m }
    {
        match self.made.origins.get(m as usize) {
            Some(origin) => origin.locals,
            None => 0,
        }
    }

    // Why this value isn't taken, where nothing is assigned yet.
    fn refusal(&self, m: u32, value: &Expr) -> Result<(), MetaFault>
        requires { spec.value self.now m ≡ None }
        ensures { Refuses (spec.refused self.now m value.now) result }
    {
        let whole = self.put_in(value)?;
        if occurs(m, &whole) {
            return Err(MetaFault::Occurs);
        }
        match outside(self.scope(m), &whole) {
            Some(k) => Err(MetaFault::Scope(k)),
            None => Ok(()),
        }
    }

    /// The metavariable stands for `value`. `Occurs` comes exactly where it occurs in the value with its assigned
    /// metavariables put in, `Scope` exactly where it doesn't, with the first free variable of it that is none of the
    /// context. After a refusal nothing is changed.
    pub fn assign(&mut self, m: u32, value: Expr) -> Result<(), MetaFault>
        requires { spec.value self.old m ≡ None }
        ensures { Assigns self.old m value result self.new }
    {
        self.refusal(m, &value)?;
        Ok(self.keep(m, value)?)
    }

    /// The metavariable stands for `value`, which isn't tested: for what is known to be right, as an instance that was
    /// found in the context of the metavariable. After want of memory nothing is changed.
    pub fn keep(&mut self, m: u32, value: Expr) -> Result<(), NoMemory>
        requires { spec.value self.old m ≡ None }
        ensures ok { OnOk result (self.new ≡ self.old ++ Assigned m value ∷ []) }
        ensures err { OnErr result (self.new ≡ self.old) }
    {
        let kept = value.copy(self.alloc)?;
        reach(&mut self.values, m as usize)?;
        self.changes.push(Change::Assigned {
            metavariable: m,
            value,
        })?;
        self.values.set(m as usize, Some(kept));
        Ok(())
    }

    /// The metavariable of levels stands for `value`. `Occurs` comes exactly where it occurs in the value with its
    /// assigned metavariables put in; then nothing is changed. `Scope` never comes.
    pub fn assign_level(&mut self, m: u32, value: Level) -> Result<(), MetaFault>
        requires { spec.level_value self.old m ≡ None }
        ensures { AssignsLevel self.old m value result self.new }
    {
        let whole = self.put_in_level(&value)?;
        if occurs_in_level(m, &whole) {
            return Err(MetaFault::Occurs);
        }
        let kept = value.copy(self.alloc)?;
        reach(&mut self.level_values, m as usize)?;
        self.changes.push(Change::LevelAssigned {
            metavariable: m,
            value,
        })?;
        self.level_values.set(m as usize, Some(kept));
        Ok(())
    }

    /// The number of changes.
    pub fn mark(&self) -> usize
        ensures { result ≡ length self.now }
    {
        self.changes.len()
    }

    // The last change is taken back.
    #[tactic(auto, using(crate::proofs::Changing::some_level))]
    fn revert(&mut self)
        ensures { self.new ≡ take (length self.old - 1) self.old }
    {
        match self.changes.pop() {
            Some(Change::Made { .. }) => self.made.pop(),
            Some(Change::LevelMade) => self.level_count -= 1,
            Some(Change::Assigned { metavariable, .. }) => {
                clear(&mut self.values, metavariable as usize)
            }
            Some(Change::LevelAssigned { metavariable, .. }) => {
                clear(&mut self.level_values, metavariable as usize)
            }
            None => {}
        }
    }

    /// The state after the first `mark` changes.
    pub fn undo(&mut self, mark: usize)
        ensures { self.new ≡ take mark self.old }
    {
        'changes: while mark < self.mark() {
            self.revert();
        }
    }
}
