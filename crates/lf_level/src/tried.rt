//! The values at which two levels are compared.
ghost use Rattle.std.specs.Prelude.{◌≡◌, ◌↔◌, ◌<◌, ◌≤◌, ◌+◌, ◌++◌, ℕ, All, IsTrue, OnOk, get_or, length, slice_set, []};
ghost use Rattle.lf_core.specs.Size.{level_depth};
ghost use Rattle.lf_level.specs.Lanes.{AreSmall, Holds, HoldsAt, IsSmall, trials};

use crate::lanes::{LANES, values};
use lf_core::{Level, NoMemory};

/// More than a level of depth 1,024 adds to a parameter.
const FAR: u16 = 1025;

// The values with another at this place.
fn with(values: [u16; 8], at: usize, value: u16) -> [u16; 8]
    requires { at < 8 }
    ensures { result ≡ slice_set values at value }
{
    let mut values = values;
    values[at] = value;
    values
}

/// Puts the values that are tried behind `all`: 0 or 1 each for the names of `rest`, which stand from `at` on, or, if
/// `far`, FAR for one of them. `NoMemory` leaves some of them there.
pub fn push_trials(
    all: &mut Vec<[u16; 8]>,
    rest: &[u32],
    values: [u16; 8],
    at: usize,
    far: bool,
) -> Result<(), NoMemory>
    requires { at + length rest.now ≤ 8 }
    ensures { OnOk result (all.new.items ≡ all.old.items ++ trials values at rest.now far) }
{
    match rest {
        [] => {
            all.push(values)?;
            Ok(())
        }
        [_name, rest @ ..] => {
            push_trials(all, rest, with(values, at, 0), at + 1, far)?;
            push_trials(all, rest, with(values, at, 1), at + 1, far)?;
            if far {
                push_trials(all, rest, with(values, at, FAR), at + 1, false)
            } else {
                Ok(())
            }
        }
    }
}

// The trials, and behind them zeros.
fn padded(trials: &[[u16; 8]]) -> [[u16; 8]; LANES]
    requires room { length trials.now ≤ 64 }
    requires small { All IsSmall trials.now }
    ensures front { (k : ℕ) → k < length trials.now → get_or result k [] ≡ get_or trials.now k [] }
    ensures small { AreSmall result }
{
    let mut all = [[0; 8]; LANES];
    for lane in 0..trials.len() {
        all[lane] = trials[lane];
    }
    all
}

fn holds(both: bool, left: u16, right: u16) -> bool
    ensures { IsTrue result ↔ Holds both left right }
{
    if both { left == right } else { left <= right }
}

// Whether it holds in the first `count` lanes.
fn hold(both: bool, left: &[u16; LANES], right: &[u16; LANES], count: usize) -> bool
    requires { count ≤ 64 }
    ensures { IsTrue result ↔ ((k : ℕ) → k < count → Holds both (get_or left.now k 0) (get_or right.now k 0)) }
{
    for lane in 0..count {
        if !holds(both, left[lane], right[lane]) {
            return false;
        }
    }
    true
}

// Whether the levels are equal (`both`), or the first is at most the second, in at most 64 trials.
fn holds_at_once(both: bool, u: &Level, v: &Level, names: &[u32], trials: &[[u16; 8]]) -> bool
    requires left { level_depth u.now ≤ 1024 }
    requires right { level_depth v.now ≤ 1024 }
    requires room { length names.now ≤ 8 }
    requires count { length trials.now ≤ 64 }
    requires small { All IsSmall trials.now }
    ensures { IsTrue result ↔ All (HoldsAt both u.now v.now names.now) trials.now }
{
    let rows = padded(trials);
    let left = values(u, names, &rows);
    let right = values(v, names, &rows);
    hold(both, &left, &right, trials.len())
}

/// Whether the levels are equal (`both`), or the first is at most the second, in all trials.
#[tactic(auto, using(crate::proofs::Tried_lists::front_all, crate::proofs::Tried_lists::back_all, crate::proofs::Tried_lists::joined_all))]
pub fn holds_at_all(both: bool, u: &Level, v: &Level, names: &[u32], trials: &[[u16; 8]]) -> bool
    requires left { level_depth u.now ≤ 1024 }
    requires right { level_depth v.now ≤ 1024 }
    requires room { length names.now ≤ 8 }
    requires small { All IsSmall trials.now }
    ensures { IsTrue result ↔ All (HoldsAt both u.now v.now names.now) trials.now }
{
    if trials.len() <= LANES {
        return holds_at_once(both, u, v, names, trials);
    }
    let (front, back) = trials.split_at(LANES);
    holds_at_once(both, u, v, names, front) && holds_at_all(both, u, v, names, back)
}
