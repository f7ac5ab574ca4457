ghost use Rattle.std.specs.Prelude.{◌≡◌, ◌+◌, ◌≤◌, Some, true, false, filter, length, slice_get, IfNone, IfSome, IfOk, OnOk};
ghost use Rattle.std.specs.List.{IsDistinct, list_any};
ghost use Rattle.std.specs.Option.{option_copied};
ghost use Rattle.std.specs.Arc.{arc_value};
ghost use Rattle.indexmap.specs.IndexSet.{insert_all};
ghost use Rattle.lf_checker.specs.View.{find_entry, placed_from, stands_before as is_before};
ghost use Rattle.lf_env.specs.Names.{same_entry};
ghost use Rattle.lf_env.specs.Layer.{is_within, has_name};

use crate::entry::{NameParts, SharedEntry};
use indexmap::IndexSet;
use lf_core::{NoMemory, Word};
use std::alloc::Global;
use std::marker::Model;
use std::sync::Arc;

/// Entries in the order in which they came, no two of one name.
pub type Table = IndexSet<SharedEntry>;

/// The entries of a shared table that stand before the limit, or all where there is none.
#[derive(Drop)]
pub struct Layer {
    table: Arc<Table>,
    limit: Option<u32>,
}

impl Model for Layer {
    ghost use Rattle.std.specs.Prelude.{List, filter};
    ghost use Rattle.std.specs.Coded.{codes};
    ghost use Rattle.std.specs.List.{IsDistinct};
    ghost use Rattle.std.specs.Arc.{arc_value};
    ghost use Rattle.lf_core.specs.Codes.{coded_term};
    ghost use Rattle.lf_checker.specs.View.{Entry};
    ghost use Rattle.lf_env.specs.Names.{same_entry};
    ghost use Rattle.lf_env.specs.Layer.{is_within};

    ghost Value = { List Entry };

    ghost coded = { Prim.hlevel (codes, coded_term) };

    ghost view = { λ l. filter (is_within l.limit) (arc_value l.table).keys };

    ghost invariant = { λ l. IsDistinct same_entry (arc_value l.table).keys };
}

/// The entry of the name with these parts, and its index.
fn entry_in<'a>(table: &'a Table, words: &[Word]) -> Option<(usize, &'a SharedEntry)>
    ensures none { IfNone result (list_any (has_name words.now) table.now.keys ≡ false) }
    ensures stored { IfSome result (λ r. slice_get table.now.keys r.0 ≡ Some r.1.now) }
    ensures named { IfSome result (λ r. has_name words.now r.1.now ≡ true) }
{
    table.get_full(NameParts::new(words))
}

/// Whether a command at `position`, or the base, stands before the limit.
pub fn stands_before(limit: u32, position: u32) -> bool
    ensures { result ≡ is_before limit position }
{
    position == u32::MAX || position < limit
}

fn counts(limit: Option<u32>, entry: &SharedEntry) -> bool
    ensures { result ≡ is_within limit entry.now }
{
    match limit {
        None => true,
        Some(limit) => stands_before(limit, entry.position()),
    }
}

/// How many of the entries count.
fn count(limit: Option<u32>, entries: &[SharedEntry]) -> usize
    ensures { result ≡ length (filter (is_within limit) entries.now) }
{
    if limit.is_none() {
        return entries.len();
    }
    let mut found = 0usize;
    for entry in entries {
        if counts(limit, entry) {
            found += 1;
        }
    }
    found
}

/// Puts those of the entries that count at the end of the table, but those whose names it has.
fn copy_those(
    limit: Option<u32>,
    entries: &[SharedEntry],
    table: &mut Table,
) -> Result<(), NoMemory>
    ensures { OnOk result (table.new.keys ≡ insert_all same_entry table.old.keys (filter (is_within limit) entries.now)) }
{
    for entry in entries {
        if counts(limit, entry) {
            table.insert(entry.share()?)?;
        }
    }
    Ok(())
}

fn within(table: Arc<Table>, limit: Option<u32>) -> Layer
    requires { IsDistinct same_entry (arc_value table).keys }
    ensures { result ≡ filter (is_within limit) (arc_value table).keys }
{
    Layer { table, limit }
}

impl Layer {
    /// All entries of the table.
    pub fn new(alloc: Global, table: Table) -> Result<Layer, NoMemory>
        requires { IsDistinct same_entry table.keys }
        ensures { IfOk result (λ l. l ≡ table.keys) }
    {
        let table = Arc::new(alloc, table)?;
        Ok(within(table, None))
    }

    /// Those of the entries that stand before the limit. It takes no memory, but a count of owners that is at its end
    /// is refused.
    pub fn before(&self, limit: u32) -> Result<Layer, NoMemory>
        ensures { IfOk result (λ l. l ≡ filter (λ e. is_before limit e.position) self.now) }
    {
        let nearer = match self.limit {
            None => limit,
            Some(other) => limit.min(other),
        };
        let table = Arc::try_clone(&self.table)?;
        Ok(within(table, Some(nearer)))
    }

    /// The same entries.
    pub fn share(&self) -> Result<Layer, NoMemory>
        ensures { IfOk result (λ l. l ≡ self.now) }
    {
        let table = Arc::try_clone(&self.table)?;
        Ok(within(table, self.limit))
    }

    /// How many entries the table has, those that don't count included.
    pub fn size(&self) -> usize
        ensures { length self.now ≤ result }
    {
        self.table.len()
    }

    /// The number of entries.
    pub fn len(&self) -> usize
        ensures { result ≡ length self.now }
    {
        count(self.limit, self.table.as_slice())
    }

    /// The entry of the name with these parts.
    pub fn find(&self, words: &[Word]) -> Option<&SharedEntry>
        ensures { option_copied result ≡ find_entry self.now words.now }
    {
        let (_, entry) = entry_in(&self.table, words)?;
        if counts(self.limit, entry) {
            Some(entry)
        } else {
            None
        }
    }

    /// The position of the entry of the name with these parts, and its place, where the first entry has the place `start`.
    pub fn placed(&self, words: &[Word], start: usize) -> Option<(u32, usize)>
        requires { start + length self.now ≤ usize.MAX }
        ensures { result ≡ placed_from start self.now words.now }
    {
        let (index, entry) = entry_in(&self.table, words)?;
        if counts(self.limit, entry) {
            let front = &self.table.as_slice()[..index];
            Some((entry.position(), start + count(self.limit, front)))
        } else {
            None
        }
    }

    /// Puts the entries at the end of the table, but those whose names it has. After want of memory it has some of them.
    pub fn copy_into(&self, table: &mut Table) -> Result<(), NoMemory>
        ensures { OnOk result (table.new.keys ≡ insert_all same_entry table.old.keys self.now) }
    {
        copy_those(self.limit, self.table.as_slice(), table)
    }
}
