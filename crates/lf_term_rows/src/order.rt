//! The order of levels, also compared with assignments.
use crate::fault::Fault;
use crate::row::{Row, truth};
use lf_core::{Level, LevelNode};
use lf_level::{has_no_metavariable, leq, same, subst};
use lf_notation::written_level;
use std::alloc::Global;

/// The deepest levels that are compared.
const DEEPEST: u32 = 1024;

// The value where parameter 0 is `u` and the others are `v`.
fn value(level: &Level, u: u32, v: u32) -> u32 {
    match level.node() {
        LevelNode::Zero | LevelNode::Meta(_) => 0,
        LevelNode::Succ(l) => value(l, u, v).saturating_add(1),
        LevelNode::Max(l, m) => value(l, u, v).max(value(m, u, v)),
        LevelNode::Imax(l, m) => match value(m, u, v) {
            0 => 0,
            n => value(l, u, v).max(n),
        },
        LevelNode::Param(k) => { if *k == 0 { u } else { v } }
    }
}

fn is_at_most_where(l: &Level, m: &Level, u: u32) -> bool {
    for v in 0..5 {
        if value(l, u, v) > value(m, u, v) {
            return false;
        }
    }
    true
}

// Whether the value of `l` is at most that of `m` under all assignments of numbers below 5.
fn is_at_most(l: &Level, m: &Level) -> bool {
    for u in 0..5 {
        if !is_at_most_where(l, m, u) {
            return false;
        }
    }
    true
}

fn at_most(alloc: Global, l: &Level, m: &Level) -> Result<bool, Fault> {
    if !has_no_metavariable(l) || !has_no_metavariable(m) {
        return Err(Fault::Malformed);
    }
    if l.depth() > DEEPEST || m.depth() > DEEPEST {
        return Err(Fault::TooDeep);
    }
    Ok(leq(alloc, l, m)?)
}

fn equal(alloc: Global, l: &Level, m: &Level) -> Result<bool, Fault> {
    if !has_no_metavariable(l) || !has_no_metavariable(m) {
        return Err(Fault::Malformed);
    }
    if l.depth() > DEEPEST || m.depth() > DEEPEST {
        return Err(Fault::TooDeep);
    }
    Ok(same(alloc, l, m)?)
}

// 0 and two parameters.
fn leaves(alloc: Global) -> Result<Vec<Level>, Fault> {
    let mut all = Vec::new(alloc);
    all.push(Level::zero(alloc)?)?;
    all.push(Level::param(alloc, 0)?)?;
    all.push(Level::param(alloc, 1)?)?;
    Ok(all)
}

// The maxima of `l` and each of the parts.
fn grow_by(alloc: Global, l: &Level, parts: &[Level], all: &mut Vec<Level>) -> Result<(), Fault> {
    for m in parts {
        all.push(Level::max(alloc, l.copy(alloc)?, m.copy(alloc)?)?)?;
        all.push(Level::imax(alloc, l.copy(alloc)?, m.copy(alloc)?)?)?;
    }
    Ok(())
}

// The parts, and all levels of one node more over them.
fn grown(alloc: Global, parts: &[Level]) -> Result<Vec<Level>, Fault> {
    let mut all = Vec::new(alloc);
    for l in parts {
        all.push(l.copy(alloc)?)?;
        all.push(Level::succ(alloc, l.copy(alloc)?)?)?;
        grow_by(alloc, l, parts, &mut all)?;
    }
    Ok(all)
}

/// How the answers about pairs of levels came out.
#[derive(Clone, Copy)]
struct Tally {
    agreeing: u32,
    differing: u32,
    at_most: u32,
}

// The tally with one pair more.
fn tallied(alloc: Global, tally: Tally, l: &Level, m: &Level) -> Result<Tally, Fault> {
    let wanted = is_at_most(l, m);
    let at_most_more = if wanted { 1 } else { 0 };
    let (agreeing, differing) = if at_most(alloc, l, m)? == wanted {
        (1, 0)
    } else {
        (0, 1)
    };
    Ok(Tally {
        agreeing: tally.agreeing.saturating_add(agreeing),
        differing: tally.differing.saturating_add(differing),
        at_most: tally.at_most.saturating_add(at_most_more),
    })
}

// The tally with the pairs of `l` and each of the levels, in both orders.
fn tallied_all(alloc: Global, tally: Tally, l: &Level, all: &[Level]) -> Result<Tally, Fault> {
    let mut tally = tally;
    for m in all {
        tally = tallied(alloc, tally, l, m)?;
        tally = tallied(alloc, tally, m, l)?;
    }
    Ok(tally)
}

// Each level of at most 3 nodes on a path against each of at most 4, over two parameters.
fn every_pair(alloc: Global) -> Result<String, Fault> {
    let small = grown(alloc, leaves(alloc)?.as_slice())?;
    let large = grown(alloc, small.as_slice())?;
    let mut tally = Tally {
        agreeing: 0,
        differing: 0,
        at_most: 0,
    };
    for l in small.as_slice() {
        tally = tallied_all(alloc, tally, l, large.as_slice())?;
    }
    let (few, many) = (small.len(), large.len());
    let Tally {
        agreeing,
        differing,
        at_most,
    } = tally;
    Ok(format!(in alloc;
        "{few} by {many} levels: {agreeing} agree, {differing} differ, {at_most} at most"
    )?)
}

fn asked(row: &mut Row<'_>) -> Result<String, Fault> {
    let l = row.level()?;
    let m = row.level()?;
    truth(row.alloc, at_most(row.alloc, &l, &m)?)
}

fn asked_same(row: &mut Row<'_>) -> Result<String, Fault> {
    let l = row.level()?;
    let m = row.level()?;
    truth(row.alloc, equal(row.alloc, &l, &m)?)
}

fn is_comparable(row: &mut Row<'_>) -> Result<String, Fault> {
    let level = row.level()?;
    truth(row.alloc, has_no_metavariable(&level))
}

fn at_arguments(row: &mut Row<'_>) -> Result<String, Fault> {
    let level = row.level()?;
    let args = row.levels()?;
    let made = subst(row.alloc, &level, args.as_slice())?;
    Ok(written_level(row.alloc, &made)?)
}

pub fn answer(call: &str, row: &mut Row<'_>) -> Result<String, Fault> {
    match call {
        "at most" => asked(row),
        "same" => asked_same(row),
        "comparable" => is_comparable(row),
        "at" => at_arguments(row),
        "every pair" => every_pair(row.alloc),
        _ => Err(Fault::Malformed),
    }
}
