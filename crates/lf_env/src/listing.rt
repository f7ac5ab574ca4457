ghost use Rattle.std.specs.Prelude.{◌≡◌, ◌++◌, ◌∷◌, [], None, All, filter, IfOk};
ghost use Rattle.std.specs.List.{IsDistinct};
ghost use Rattle.std.specs.Option.{option_copied};
ghost use Rattle.lf_checker.specs.View.{find_entry, placed_from, base_entries, stands_before as is_before};
ghost use Rattle.lf_env.specs.Answer.{DistinctNames};
ghost use Rattle.lf_env.specs.Layer.{entries_at};
ghost use Rattle.lf_env.specs.Names.{same_entry};

use crate::entry::SharedEntry;
use crate::layer::Layer;
use crate::layers::{base_layers, before, extended, find_in, placed_in, share};
use lf_core::{ConstInfo, NoMemory, Word};
use std::alloc::Global;
use std::marker::Model;

/// Entries in order, no two of one name, in shared layers.
#[derive(Drop)]
pub struct Listing {
    layers: Vec<Layer>,
    // no less than the number of entries, so that places fit
    most: usize,
}

impl Model for Listing {
    ghost use Rattle.std.specs.Prelude.{List};
    ghost use Rattle.std.specs.Coded.{codes};
    ghost use Rattle.lf_core.specs.Codes.{coded_term};
    ghost use Rattle.lf_checker.specs.View.{Entry};
    ghost use Rattle.lf_env.specs.Layer.{AreSound, entries_of};

    ghost Value = { List Entry };

    ghost coded = { Prim.hlevel (codes, coded_term) };

    ghost view = { λ l. entries_of l.layers.items };

    ghost invariant = { λ l. AreSound (entries_of l.layers.items) l.most };
}

impl Listing {
    /// No entries.
    pub fn empty(alloc: Global) -> Listing
        ensures { result ≡ [] }
    {
        Listing {
            layers: Vec::new(alloc),
            most: 0,
        }
    }

    /// These constants at the position of the base.
    pub fn base(alloc: Global, base: Vec<ConstInfo>) -> Result<Listing, NoMemory>
        requires { DistinctNames base.items }
        ensures { IfOk result (λ l. l ≡ base_entries base.items) }
    {
        let most = base.len();
        let layers = base_layers(alloc, base)?;
        Ok(Listing { layers, most })
    }

    /// The allocator.
    pub(crate) fn alloc(&self) -> Global {
        *self.layers.allocator()
    }

    /// No two of the entries have one name. It does nothing.
    pub fn named_once(&self)
        ensures { IsDistinct same_entry self.now }
    {
        let _count = self.layers.len();
    }

    /// The entry of the name with these parts.
    pub fn find(&self, words: &[Word]) -> Option<&SharedEntry>
        ensures { option_copied result ≡ find_entry self.now words.now }
    {
        find_in(self.layers.as_slice(), words)
    }

    /// Its position and its place among the entries.
    pub fn placed(&self, words: &[Word]) -> Option<(u32, usize)>
        ensures { result ≡ placed_from 0 self.now words.now }
    {
        placed_in(self.layers.as_slice(), words, 0)
    }

    /// These entries and one more.
    pub fn with(&self, entry: SharedEntry) -> Result<Listing, NoMemory>
        requires { find_entry self.now entry.info.name ≡ None }
        ensures { IfOk result (λ l. l ≡ self.now ++ entry ∷ []) }
    {
        let alloc = *self.layers.allocator();
        let most = self.most;
        if most == usize::MAX {
            return Err(NoMemory);
        }
        let layers = extended(alloc, self.layers.as_slice(), entry)?;
        Ok(Listing {
            layers,
            most: most + 1,
        })
    }

    /// These entries, shared.
    pub fn share(&self) -> Result<Listing, NoMemory>
        ensures { IfOk result (λ l. l ≡ self.now) }
    {
        let alloc = *self.layers.allocator();
        let layers = share(alloc, self.layers.as_slice())?;
        Ok(Listing {
            layers,
            most: self.most,
        })
    }

    /// These entries and these constants at the position.
    pub fn with_all(&self, infos: Vec<ConstInfo>, position: u32) -> Result<Listing, NoMemory>
        requires fresh { All (λ c. find_entry self.now c.name ≡ None) infos.items }
        requires distinct { DistinctNames infos.items }
        ensures { IfOk result (λ l. l ≡ self.now ++ entries_at position infos.items) }
    {
        let alloc = self.alloc();
        let mut all = self.share()?;
        for info in infos {
            all = all.with(SharedEntry::new(alloc, info, position)?)?;
        }
        Ok(all)
    }

    /// Those that stand before the limit.
    pub fn before(&self, alloc: Global, limit: u32) -> Result<Listing, NoMemory>
        ensures kept { IfOk result (λ l. l ≡ filter (λ e. is_before limit e.position) self.now) }
        ensures distinct { IsDistinct same_entry self.now }
    {
        let layers = before(alloc, self.layers.as_slice(), limit)?;
        Ok(Listing {
            layers,
            most: self.most,
        })
    }
}
