ghost use Rattle.std.specs.Prelude.{◌≡◌, ◌+◌, ◌≤◌, ◌++◌, ◌∷◌, [], length, filter, sum, IfOk, IfSome};
ghost use Rattle.std.specs.List.{IsDistinct};
ghost use Rattle.std.specs.Option.{option_copied};
ghost use Rattle.indexmap.specs.IndexSet.{insert_all};
ghost use Rattle.lf_checker.specs.View.{find_entry, placed_from, base_entries, stands_before as is_before};
ghost use Rattle.lf_env.specs.Names.{same_entry};
ghost use Rattle.lf_env.specs.Layer.{entries_of};
ghost use Rattle.lf_env.specs.Few.{IsLonger, IsDue};
ghost use Rattle.lf_env.specs.Answer.{DistinctNames};

use crate::entry::SharedEntry;
use crate::layer::{Layer, Table};
use indexmap::IndexSet;
use lf_core::{ConstInfo, NoMemory, Word};
use std::alloc::Global;

/// The position of the base, which stands before all others.
pub const BASE: u32 = u32::MAX;

/// The entry of the name with these parts.
pub fn find_in<'a>(layers: &'a [Layer], words: &[Word]) -> Option<&'a SharedEntry>
    ensures { option_copied result ≡ find_entry (entries_of layers.now) words.now }
{
    match layers {
        [] => None,
        [first, rest @ ..] => match first.find(words) {
            Some(entry) => Some(entry),
            None => find_in(rest, words),
        },
    }
}

/// The position of the entry of the name with these parts, and its place, where the first entry has the place `start`.
pub fn placed_in(layers: &[Layer], words: &[Word], start: usize) -> Option<(u32, usize)>
    requires { start + length (entries_of layers.now) ≤ usize.MAX }
    ensures { result ≡ placed_from start (entries_of layers.now) words.now }
{
    match layers {
        [] => None,
        [first, rest @ ..] => match first.placed(words, start) {
            Some(place) => Some(place),
            None => placed_in(rest, words, start + first.len()),
        },
    }
}

/// How many layers stay as they are when an entry is pushed, and how many entries are in those behind them, with the new one.
#[derive(Clone, Copy, Debug)]
struct Parting {
    kept: usize,
    joined: usize,
}

/// By the sizes of the layers: the later ones are joined to one layer with the new entry, so that each layer is longer than all
/// later ones, and there are few. `None` where a usize doesn't count the entries.
#[tactic(auto, using(crate::proofs::Few::longer_first, crate::proofs::Few::longer_later, crate::proofs::Few::due_later))]
fn lasting(sizes: &[usize]) -> Option<Parting>
    ensures bound { IfSome result (λ l. l.kept ≤ length sizes.now) }
    ensures few { IfSome result (λ l. IsLonger sizes.now l.kept) }
    ensures due { IfSome result (λ l. IsDue sizes.now l.kept) }
    ensures joined { IfSome result (λ l. l.kept ≡ 0 → l.joined ≡ sum sizes.now + 1) }
{
    match sizes {
        [] => Some(Parting { kept: 0, joined: 1 }),
        [first, rest @ ..] => {
            let behind = lasting(rest)?;
            let joined = behind.joined;
            if behind.kept > 0 {
                let kept = behind.kept + 1;
                return Some(Parting { kept, joined });
            }
            if *first > joined {
                return Some(Parting { kept: 1, joined });
            }
            let joined = joined.checked_add(*first)?;
            Some(Parting { kept: 0, joined })
        }
    }
}

fn sizes(alloc: Global, layers: &[Layer]) -> Result<Vec<usize>, NoMemory>
    ensures { IfOk result (λ all. length all.items ≡ length layers.now) }
{
    let mut all = Vec::new(alloc);
    for layer in layers {
        all.push(layer.size())?;
    }
    Ok(all)
}

/// One layer of the entries of these layers and one more.
fn join(alloc: Global, layers: &[Layer], last: SharedEntry) -> Result<Layer, NoMemory>
    requires { IsDistinct same_entry (entries_of layers.now ++ last ∷ []) }
    ensures { IfOk result (λ l. l ≡ entries_of layers.now ++ last ∷ []) }
{
    let mut table = IndexSet::new(alloc);
    for layer in layers {
        layer.copy_into(&mut table)?;
    }
    table.insert(last)?;
    Layer::new(alloc, table)
}

/// The same layers.
pub fn share(alloc: Global, layers: &[Layer]) -> Result<Vec<Layer>, NoMemory>
    ensures { IfOk result (λ all. all.items ≡ layers.now) }
{
    let mut all = Vec::new(alloc);
    for layer in layers {
        all.push(layer.share()?)?;
    }
    Ok(all)
}

/// Layers of the entries of these layers and one more.
pub fn extended(alloc: Global, layers: &[Layer], last: SharedEntry) -> Result<Vec<Layer>, NoMemory>
    requires { IsDistinct same_entry (entries_of layers.now ++ last ∷ []) }
    ensures { IfOk result (λ all. entries_of all.items ≡ entries_of layers.now ++ last ∷ []) }
{
    let sizes = sizes(alloc, layers)?;
    let parting = lasting(sizes.as_slice()).ok_or(NoMemory)?;
    let (kept, later) = layers.split_at(parting.kept);
    let joined = join(alloc, later, last)?;
    let mut all = share(alloc, kept)?;
    all.push(joined)?;
    Ok(all)
}

/// A table of the constants at the position of the base.
fn base_table(alloc: Global, base: Vec<ConstInfo>) -> Result<Table, NoMemory>
    ensures { IfOk result (λ t. t.keys ≡ insert_all same_entry [] (base_entries base.items)) }
{
    let mut table = IndexSet::new(alloc);
    for info in base {
        table.insert(SharedEntry::new(alloc, info, BASE)?)?;
    }
    Ok(table)
}

/// A layer of the constants at the position of the base.
fn base_layer(alloc: Global, base: Vec<ConstInfo>) -> Result<Layer, NoMemory>
    requires { DistinctNames base.items }
    ensures { IfOk result (λ l. l ≡ base_entries base.items) }
{
    let table = base_table(alloc, base)?;
    Layer::new(alloc, table)
}

/// One layer of the constants at the position of the base.
pub fn base_layers(alloc: Global, base: Vec<ConstInfo>) -> Result<Vec<Layer>, NoMemory>
    requires { DistinctNames base.items }
    ensures { IfOk result (λ all. all.items ≡ base_entries base.items ∷ []) }
{
    let layer = base_layer(alloc, base)?;
    let mut all = Vec::new(alloc);
    all.push(layer)?;
    Ok(all)
}

/// Those entries of the layers that stand before the limit.
pub fn before(alloc: Global, layers: &[Layer], limit: u32) -> Result<Vec<Layer>, NoMemory>
    ensures { IfOk result (λ all. entries_of all.items ≡ filter (λ e. is_before limit e.position) (entries_of layers.now)) }
{
    let mut all = Vec::new(alloc);
    for layer in layers {
        all.push(layer.before(limit)?)?;
    }
    Ok(all)
}
