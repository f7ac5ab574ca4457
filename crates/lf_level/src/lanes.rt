//! Levels under many assignments at once, so that one walk of a level serves 64 of them.
ghost use Rattle.std.specs.Prelude.{◌≡◌, ℕ, max, ◌+◌, ◌<◌, ◌≤◌, get_or, length, []};
ghost use Rattle.lf_core.specs.Level.{impredicative_max, value_of};
ghost use Rattle.lf_core.specs.Size.{level_depth};
ghost use Rattle.lf_level.specs.Decision.{assigned as assigned_in, assignment};
ghost use Rattle.lf_level.specs.Lanes.{place_of, AreSmall};

use lf_core::{Level, LevelNode};

/// So many assignments are tried in one walk.
pub const LANES: usize = 64;

// The greater of the two, lane by lane.
fn greater(a: &[u16; LANES], b: &[u16; LANES]) -> [u16; LANES]
    ensures { (k : ℕ) → k < 64 → get_or result k 0 ≡ max (get_or a.now k 0) (get_or b.now k 0) }
{
    let mut all = [0; LANES];
    for lane in 0..LANES {
        all[lane] = a[lane].max(b[lane]);
    }
    all
}

fn imax(left: u16, right: u16) -> u16
    ensures { result ≡ impredicative_max left right }
{
    if right == 0 { 0 } else { left.max(right) }
}

// What `imax` of the two is worth, lane by lane.
fn imax_of(left: &[u16; LANES], right: &[u16; LANES]) -> [u16; LANES]
    ensures { (k : ℕ) → k < 64 → get_or result k 0 ≡ impredicative_max (get_or left.now k 0) (get_or right.now k 0) }
{
    let mut all = [0; LANES];
    for lane in 0..LANES {
        all[lane] = imax(left[lane], right[lane]);
    }
    all
}

// One more, lane by lane.
fn raised(a: &[u16; LANES]) -> [u16; LANES]
    requires { (k : ℕ) → k < 64 → get_or a.now k 0 < 65535 }
    ensures { (k : ℕ) → k < 64 → get_or result k 0 ≡ get_or a.now k 0 + 1 }
{
    let mut all = [0; LANES];
    for lane in 0..LANES {
        all[lane] = a[lane] + 1;
    }
    all
}

// What the assignments give the name at this place.
fn column(trials: &[[u16; 8]; LANES], place: usize) -> [u16; LANES]
    requires { place < 8 }
    ensures { (k : ℕ) → k < 64 → get_or result k 0 ≡ get_or (get_or trials.now k []) place 0 }
{
    let mut all = [0; LANES];
    for lane in 0..LANES {
        all[lane] = trials[lane][place];
    }
    all
}

// The place of the first name that is `parameter`, or that behind all.
fn place(names: &[u32], parameter: u32) -> usize
    ensures place { result ≡ place_of names.now parameter }
    ensures bound { result ≤ length names.now }
{
    match names {
        [] => 0,
        [name, names @ ..] => {
            if *name == parameter {
                0
            } else {
                place(names, parameter) + 1
            }
        }
    }
}

fn zeros() -> [u16; LANES]
    ensures { (k : ℕ) → k < 64 → get_or result k 0 ≡ 0 }
{
    [0; LANES]
}

// What the assignments give `parameter`.
fn assigned(names: &[u32], trials: &[[u16; 8]; LANES], parameter: u32) -> [u16; LANES]
    requires { length names.now ≤ 8 }
    ensures { (k : ℕ) → k < 64 → get_or result k 0 ≡ assigned_in names.now (get_or trials.now k []) parameter }
{
    let at = place(names, parameter);
    if at < names.len() {
        column(trials, at)
    } else {
        zeros()
    }
}

/// What `level` is worth, lane by lane, where each name has the value at its place.
#[tactic(auto, using(crate::proofs::Places::value_fits))]
pub fn values(level: &Level, names: &[u32], trials: &[[u16; 8]; LANES]) -> [u16; LANES]
    requires deep { level_depth level.now ≤ 1024 }
    requires room { length names.now ≤ 8 }
    requires small { AreSmall trials.now }
    ensures value { (k : ℕ) → k < 64 → get_or result k 0 ≡ value_of (assignment names.now (get_or trials.now k [])) level.now }
{
    match level.node() {
        LevelNode::Zero | LevelNode::Meta(_) => zeros(),
        LevelNode::Succ(l) => raised(&values(l, names, trials)),
        LevelNode::Max(l, m) => greater(&values(l, names, trials), &values(m, names, trials)),
        LevelNode::Imax(l, m) => imax_of(&values(l, names, trials), &values(m, names, trials)),
        LevelNode::Param(k) => assigned(names, trials, *k),
    }
}
