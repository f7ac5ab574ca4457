//! Where binders close: the holes that were made meanwhile are run.
ghost use Rattle.std.specs.Prelude.{◌≡◌, ℕ, ◌≤◌, length, option_copied, take};
ghost use Rattle.lf_part.specs.Runs.{Runs, Rose};
ghost use Rattle.lf_part.specs.Values as own;
ghost use Rattle.lf_nested.specs.Blocks as blocks;
ghost use Rattle.lf_closes.specs.Proved.{Proved};

use lf_base::Stop;
use lf_core::Expr;
use lf_elaboration::Hole;
use lf_forms::{
    all_assigned, begin_block, find_instance, is_assigned, levels_from, locals_put_in,
    none_escapes, settled,
};
use lf_msg::ElaborationError;
use lf_part::{Diagnostic, Ended, Locals, Part, State, Synth, error, instantiated};
use lf_syntax::{Item, Shared};
use lf_terms::{end_block, holes_from};

// A proof by the function that was handed down.
fn proved<
    S: Synth,
    P: Stop,
    F: Fn(
        Part<'_, S>,
        &mut Locals,
        &mut u64,
        &mut State,
        &mut P,
        &Expr,
        &[Item],
    ) -> Result<Expr, Ended>,
>(
    part: Part<'_, S>,
    locals: &mut Locals,
    units: &mut u64,
    state: &mut State,
    stop: &mut P,
    prove: &F,
    goal: &Expr,
    items: &[Item],
) -> Result<Expr, Ended>
    requires floor { part.floor ≤ length state.old.metas }
    requires proves { (p : _) (l : _) (u : _) (s : _) (z : _) (g : _) (i : _)
        → own.part S.meaning p ≡ own.part S.meaning part → p.depth ≤ part.depth → p.floor ≤ length s.now.metas → F.pre prove.now p l u s z g i }
    requires told { (p : _) (l : _) (u : _) (s : _) (z : _) (g : _) (i : _) (r : _) (l2 : _) (u2 : _) (s2 : _) (z2 : _)
        → F.post prove.now p l u s z g i r l2 u2 s2 z2
        → own.part S.meaning p ≡ own.part S.meaning part → p.depth ≤ part.depth → p.floor ≤ length s.now.metas
        → Proved (own.calls (own.part S.meaning p) p.depth) p.floor l.now g.now i.now u.now s.now (P.stops z.now) r l2.now u2.now s2.now (P.stops z2.now) }
    ensures value { Runs ((own.calls (own.part S.meaning part.entry) part.entry.depth).prove
        locals.old goal.now items.now units.old (own.state state.old)) result units.new (own.state state.new) }
    ensures kept { locals.new ≡ locals.old }
    ensures floor { part.entry.floor ≤ length state.new.metas }
    ensures below { take part.entry.floor state.new.metas ≡ take part.entry.floor state.old.metas }
    ensures count { P.stops stop.old ≤ P.stops stop.new }
    ensures rose { Rose result (P.stops stop.old) (P.stops stop.new) }
{
    prove(part, locals, units, state, stop, goal, items)
}

// The proof of a goal by a block, which fails by itself: the changes before it stay.
#[tactic(auto, using(lf_unify::proofs::Floor::take_whole, lf_unify::proofs::Floor::take_floor), unfolding(lf_nested::specs::Blocks::block_proof))]
fn block_proof<
    S: Synth,
    P: Stop,
    F: Fn(
        Part<'_, S>,
        &mut Locals,
        &mut u64,
        &mut State,
        &mut P,
        &Expr,
        &[Item],
    ) -> Result<Expr, Ended>,
>(
    part: Part<'_, S>,
    locals: &mut Locals,
    units: &mut u64,
    state: &mut State,
    stop: &mut P,
    prove: &F,
    goal: &Expr,
    items: &[Item],
) -> Result<Option<Expr>, Ended>
    requires floor { part.floor ≤ length state.old.metas }
    requires proves { (p : _) (l : _) (u : _) (s : _) (z : _) (g : _) (i : _)
        → own.part S.meaning p ≡ own.part S.meaning part → p.depth ≤ part.depth → p.floor ≤ length s.now.metas → F.pre prove.now p l u s z g i }
    requires told { (p : _) (l : _) (u : _) (s : _) (z : _) (g : _) (i : _) (r : _) (l2 : _) (u2 : _) (s2 : _) (z2 : _)
        → F.post prove.now p l u s z g i r l2 u2 s2 z2
        → own.part S.meaning p ≡ own.part S.meaning part → p.depth ≤ part.depth → p.floor ≤ length s.now.metas
        → Proved (own.calls (own.part S.meaning p) p.depth) p.floor l.now g.now i.now u.now s.now (P.stops z.now) r l2.now u2.now s2.now (P.stops z2.now) }
    ensures value { Runs (blocks.block_proof (own.calls (own.part S.meaning part.entry) part.entry.depth)
        locals.old goal.now items.now units.old (own.state state.old)) result units.new (own.state state.new) }
    ensures kept { locals.new ≡ locals.old }
    ensures floor { part.entry.floor ≤ length state.new.metas }
    ensures below { take part.entry.floor state.new.metas ≡ take part.entry.floor state.old.metas }
    ensures count { P.stops stop.old ≤ P.stops stop.new }
    ensures rose { Rose result (P.stops stop.old) (P.stops stop.new) }
{
    let aside = begin_block(part.alloc, state)?;
    let inner = part.raised(aside.mark);
    let outcome = proved(inner, locals, units, state, stop, prove, goal, items);
    end_block(part.alloc, state, aside, outcome)
}

// A block on a goal and locals with their assigned metavariables put in, and what its end comes to.
#[tactic(auto, using(lf_part::proofs::Runs::halts), unfolding(lf_nested::specs::Blocks::block_settled))]
fn block_settled<
    S: Synth,
    P: Stop,
    F: Fn(
        Part<'_, S>,
        &mut Locals,
        &mut u64,
        &mut State,
        &mut P,
        &Expr,
        &[Item],
    ) -> Result<Expr, Ended>,
>(
    part: Part<'_, S>,
    locals: &mut Locals,
    units: &mut u64,
    state: &mut State,
    stop: &mut P,
    prove: &F,
    at: usize,
    metavariable: u32,
    goal: &Expr,
    items: &[Item],
) -> Result<(), Ended>
    requires floor { part.floor ≤ length state.old.metas }
    requires proves { (p : _) (l : _) (u : _) (s : _) (z : _) (g : _) (i : _)
        → own.part S.meaning p ≡ own.part S.meaning part → p.depth ≤ part.depth → p.floor ≤ length s.now.metas → F.pre prove.now p l u s z g i }
    requires told { (p : _) (l : _) (u : _) (s : _) (z : _) (g : _) (i : _) (r : _) (l2 : _) (u2 : _) (s2 : _) (z2 : _)
        → F.post prove.now p l u s z g i r l2 u2 s2 z2
        → own.part S.meaning p ≡ own.part S.meaning part → p.depth ≤ part.depth → p.floor ≤ length s.now.metas
        → Proved (own.calls (own.part S.meaning p) p.depth) p.floor l.now g.now i.now u.now s.now (P.stops z.now) r l2.now u2.now s2.now (P.stops z2.now) }
    ensures value { Runs (blocks.block_settled (own.part S.meaning part.entry) (own.calls (own.part S.meaning part.entry) part.entry.depth)
        locals.old at metavariable goal.now items.now units.old (own.state state.old)) result units.new (own.state state.new) }
    ensures kept { locals.new ≡ locals.old }
    ensures floor { part.entry.floor ≤ length state.new.metas }
    ensures below { take part.entry.floor state.new.metas ≡ take part.entry.floor state.old.metas }
    ensures count { P.stops stop.old ≤ P.stops stop.new }
    ensures rose { Rose result (P.stops stop.old) (P.stops stop.new) }
{
    let proof = block_proof(part, locals, units, state, stop, prove, goal, items)?;
    settled(
        part,
        locals,
        units,
        state,
        stop,
        at,
        metavariable,
        goal,
        proof.as_ref(),
    )
}

// A block on a goal of which everything is known.
#[tactic(auto, using(lf_part::proofs::Runs::halts), unfolding(lf_nested::specs::Blocks::run_block))]
fn run_block<
    S: Synth,
    P: Stop,
    F: Fn(
        Part<'_, S>,
        &mut Locals,
        &mut u64,
        &mut State,
        &mut P,
        &Expr,
        &[Item],
    ) -> Result<Expr, Ended>,
>(
    part: Part<'_, S>,
    locals: &mut Locals,
    units: &mut u64,
    state: &mut State,
    stop: &mut P,
    prove: &F,
    at: usize,
    metavariable: u32,
    ty: &Expr,
    items: &[Item],
) -> Result<(), Ended>
    requires floor { part.floor ≤ length state.old.metas }
    requires proves { (p : _) (l : _) (u : _) (s : _) (z : _) (g : _) (i : _)
        → own.part S.meaning p ≡ own.part S.meaning part → p.depth ≤ part.depth → p.floor ≤ length s.now.metas → F.pre prove.now p l u s z g i }
    requires told { (p : _) (l : _) (u : _) (s : _) (z : _) (g : _) (i : _) (r : _) (l2 : _) (u2 : _) (s2 : _) (z2 : _)
        → F.post prove.now p l u s z g i r l2 u2 s2 z2
        → own.part S.meaning p ≡ own.part S.meaning part → p.depth ≤ part.depth → p.floor ≤ length s.now.metas
        → Proved (own.calls (own.part S.meaning p) p.depth) p.floor l.now g.now i.now u.now s.now (P.stops z.now) r l2.now u2.now s2.now (P.stops z2.now) }
    ensures value { Runs (blocks.run_block (own.part S.meaning part.entry) (own.calls (own.part S.meaning part.entry) part.entry.depth)
        locals.old at metavariable ty.now items.now units.old (own.state state.old)) result units.new (own.state state.new) }
    ensures kept { locals.new ≡ locals.old }
    ensures floor { part.entry.floor ≤ length state.new.metas }
    ensures below { take part.entry.floor state.new.metas ≡ take part.entry.floor state.old.metas }
    ensures count { P.stops stop.old ≤ P.stops stop.new }
    ensures rose { Rose result (P.stops stop.old) (P.stops stop.new) }
{
    let goal = instantiated(units, state, ty)?;
    if goal.has_metavariable() {
        let says = Diagnostic::Elaboration(ElaborationError::UndeterminedPlaceholder);
        return Err(error(at, says));
    }
    let mut inner = locals_put_in(part.alloc, locals, units, state)?;
    block_settled(
        part,
        &mut inner,
        units,
        state,
        stop,
        prove,
        at,
        metavariable,
        &goal,
        items,
    )
}

// By its items, or without items as an instance.
#[tactic(auto, unfolding(lf_nested::specs::Blocks::run_made))]
fn run_made<
    S: Synth,
    P: Stop,
    F: Fn(
        Part<'_, S>,
        &mut Locals,
        &mut u64,
        &mut State,
        &mut P,
        &Expr,
        &[Item],
    ) -> Result<Expr, Ended>,
>(
    part: Part<'_, S>,
    locals: &mut Locals,
    units: &mut u64,
    state: &mut State,
    stop: &mut P,
    prove: &F,
    at: usize,
    ty: &Expr,
    metavariable: u32,
    items: Option<&Shared<Item>>,
) -> Result<(), Ended>
    requires floor { part.floor ≤ length state.old.metas }
    requires proves { (p : _) (l : _) (u : _) (s : _) (z : _) (g : _) (i : _)
        → own.part S.meaning p ≡ own.part S.meaning part → p.depth ≤ part.depth → p.floor ≤ length s.now.metas → F.pre prove.now p l u s z g i }
    requires told { (p : _) (l : _) (u : _) (s : _) (z : _) (g : _) (i : _) (r : _) (l2 : _) (u2 : _) (s2 : _) (z2 : _)
        → F.post prove.now p l u s z g i r l2 u2 s2 z2
        → own.part S.meaning p ≡ own.part S.meaning part → p.depth ≤ part.depth → p.floor ≤ length s.now.metas
        → Proved (own.calls (own.part S.meaning p) p.depth) p.floor l.now g.now i.now u.now s.now (P.stops z.now) r l2.now u2.now s2.now (P.stops z2.now) }
    ensures value { Runs (blocks.run_made (own.part S.meaning part.entry) (own.calls (own.part S.meaning part.entry) part.entry.depth)
        locals.old at ty.now metavariable (option_copied items.entry) units.old (own.state state.old)) result units.new (own.state state.new) }
    ensures kept { locals.new ≡ locals.old }
    ensures floor { part.entry.floor ≤ length state.new.metas }
    ensures below { take part.entry.floor state.new.metas ≡ take part.entry.floor state.old.metas }
    ensures count { P.stops stop.old ≤ P.stops stop.new }
    ensures rose { Rose result (P.stops stop.old) (P.stops stop.new) }
{
    match items {
        Some(items) => run_block(
            part,
            locals,
            units,
            state,
            stop,
            prove,
            at,
            metavariable,
            ty,
            items.as_slice(),
        ),
        None => {
            if is_assigned(state, metavariable) {
                return Ok(());
            }
            find_instance(part, locals, units, state, stop, at, metavariable, ty)
        }
    }
}

// A hole, at the place of the node that made its metavariable.
#[tactic(auto, using(lf_nested::proofs::Blocks::hole_out, lf_nested::proofs::Blocks::hole_by))]
fn run_hole<
    S: Synth,
    P: Stop,
    F: Fn(
        Part<'_, S>,
        &mut Locals,
        &mut u64,
        &mut State,
        &mut P,
        &Expr,
        &[Item],
    ) -> Result<Expr, Ended>,
>(
    part: Part<'_, S>,
    locals: &mut Locals,
    units: &mut u64,
    state: &mut State,
    stop: &mut P,
    prove: &F,
    hole: &Hole,
) -> Result<(), Ended>
    requires floor { part.floor ≤ length state.old.metas }
    requires proves { (p : _) (l : _) (u : _) (s : _) (z : _) (g : _) (i : _)
        → own.part S.meaning p ≡ own.part S.meaning part → p.depth ≤ part.depth → p.floor ≤ length s.now.metas → F.pre prove.now p l u s z g i }
    requires told { (p : _) (l : _) (u : _) (s : _) (z : _) (g : _) (i : _) (r : _) (l2 : _) (u2 : _) (s2 : _) (z2 : _)
        → F.post prove.now p l u s z g i r l2 u2 s2 z2
        → own.part S.meaning p ≡ own.part S.meaning part → p.depth ≤ part.depth → p.floor ≤ length s.now.metas
        → Proved (own.calls (own.part S.meaning p) p.depth) p.floor l.now g.now i.now u.now s.now (P.stops z.now) r l2.now u2.now s2.now (P.stops z2.now) }
    ensures value { Runs (blocks.run_hole (own.part S.meaning part.entry) (own.calls (own.part S.meaning part.entry) part.entry.depth)
        locals.old hole.now units.old (own.state state.old)) result units.new (own.state state.new) }
    ensures kept { locals.new ≡ locals.old }
    ensures floor { part.entry.floor ≤ length state.new.metas }
    ensures below { take part.entry.floor state.new.metas ≡ take part.entry.floor state.old.metas }
    ensures count { P.stops stop.old ≤ P.stops stop.new }
    ensures rose { Rose result (P.stops stop.old) (P.stops stop.new) }
{
    let metavariable = hole.metavariable;
    if state.metas.count() <= metavariable {
        return Err(Ended::Out);
    }
    let at = state.metas.at(metavariable);
    let ty = state.metas.ty(metavariable).copy(part.alloc)?;
    run_made(
        part,
        locals,
        units,
        state,
        stop,
        prove,
        at,
        &ty,
        metavariable,
        hole.items.as_ref(),
    )
}

// In the order in which they were made.
#[tactic(auto, using(crate::proofs::Loops::hole_halted))]
fn run_holes<
    S: Synth,
    P: Stop,
    F: Fn(
        Part<'_, S>,
        &mut Locals,
        &mut u64,
        &mut State,
        &mut P,
        &Expr,
        &[Item],
    ) -> Result<Expr, Ended>,
>(
    part: Part<'_, S>,
    locals: &mut Locals,
    units: &mut u64,
    state: &mut State,
    stop: &mut P,
    prove: &F,
    holes: &[Hole],
) -> Result<(), Ended>
    requires floor { part.floor ≤ length state.old.metas }
    requires proves { (p : _) (l : _) (u : _) (s : _) (z : _) (g : _) (i : _)
        → own.part S.meaning p ≡ own.part S.meaning part → p.depth ≤ part.depth → p.floor ≤ length s.now.metas → F.pre prove.now p l u s z g i }
    requires told { (p : _) (l : _) (u : _) (s : _) (z : _) (g : _) (i : _) (r : _) (l2 : _) (u2 : _) (s2 : _) (z2 : _)
        → F.post prove.now p l u s z g i r l2 u2 s2 z2
        → own.part S.meaning p ≡ own.part S.meaning part → p.depth ≤ part.depth → p.floor ≤ length s.now.metas
        → Proved (own.calls (own.part S.meaning p) p.depth) p.floor l.now g.now i.now u.now s.now (P.stops z.now) r l2.now u2.now s2.now (P.stops z2.now) }
    ensures value { Runs (blocks.run_holes (own.part S.meaning part.entry) (own.calls (own.part S.meaning part.entry) part.entry.depth)
        locals.old holes.now units.old (own.state state.old)) result units.new (own.state state.new) }
    ensures kept { locals.new ≡ locals.old }
    ensures floor { part.entry.floor ≤ length state.new.metas }
    ensures below { take part.entry.floor state.new.metas ≡ take part.entry.floor state.old.metas }
    ensures count { P.stops stop.old ≤ P.stops stop.new }
    ensures rose { Rose result (P.stops stop.old) (P.stops stop.new) }
{
    'holes: for hole in holes {
        run_hole(part, locals, units, state, stop, prove, hole)?;
    }
    Ok(())
}

// The holes of the metavariables from this number on.
#[tactic(auto, using(lf_part::proofs::Runs::halts), unfolding(lf_nested::specs::Blocks::run_pending))]
fn run_pending<
    S: Synth,
    P: Stop,
    F: Fn(
        Part<'_, S>,
        &mut Locals,
        &mut u64,
        &mut State,
        &mut P,
        &Expr,
        &[Item],
    ) -> Result<Expr, Ended>,
>(
    part: Part<'_, S>,
    locals: &mut Locals,
    units: &mut u64,
    state: &mut State,
    stop: &mut P,
    prove: &F,
    start: u32,
) -> Result<(), Ended>
    requires floor { part.floor ≤ length state.old.metas }
    requires proves { (p : _) (l : _) (u : _) (s : _) (z : _) (g : _) (i : _)
        → own.part S.meaning p ≡ own.part S.meaning part → p.depth ≤ part.depth → p.floor ≤ length s.now.metas → F.pre prove.now p l u s z g i }
    requires told { (p : _) (l : _) (u : _) (s : _) (z : _) (g : _) (i : _) (r : _) (l2 : _) (u2 : _) (s2 : _) (z2 : _)
        → F.post prove.now p l u s z g i r l2 u2 s2 z2
        → own.part S.meaning p ≡ own.part S.meaning part → p.depth ≤ part.depth → p.floor ≤ length s.now.metas
        → Proved (own.calls (own.part S.meaning p) p.depth) p.floor l.now g.now i.now u.now s.now (P.stops z.now) r l2.now u2.now s2.now (P.stops z2.now) }
    ensures value { Runs (blocks.run_pending (own.part S.meaning part.entry) (own.calls (own.part S.meaning part.entry) part.entry.depth)
        locals.old start units.old (own.state state.old)) result units.new (own.state state.new) }
    ensures kept { locals.new ≡ locals.old }
    ensures floor { part.entry.floor ≤ length state.new.metas }
    ensures below { take part.entry.floor state.new.metas ≡ take part.entry.floor state.old.metas }
    ensures count { P.stops stop.old ≤ P.stops stop.new }
    ensures rose { Rose result (P.stops stop.old) (P.stops stop.new) }
{
    let holes = holes_from(part.alloc, state, start)?;
    run_holes(part, locals, units, state, stop, prove, holes.as_slice())
}

/// The holes of the metavariables from this number on are run, and these have to be assigned; at the end of a part the levels', too.
#[tactic(auto, using(lf_part::proofs::Runs::halts), unfolding(lf_nested::specs::Blocks::closed))]
pub fn closed<
    S: Synth,
    P: Stop,
    F: Fn(
        Part<'_, S>,
        &mut Locals,
        &mut u64,
        &mut State,
        &mut P,
        &Expr,
        &[Item],
    ) -> Result<Expr, Ended>,
>(
    part: Part<'_, S>,
    locals: &mut Locals,
    units: &mut u64,
    state: &mut State,
    stop: &mut P,
    prove: &F,
    start: u32,
    levels: Option<u32>,
) -> Result<(), Ended>
    requires floor { part.floor ≤ length state.old.metas }
    requires proves { (p : _) (l : _) (u : _) (s : _) (z : _) (g : _) (i : _)
        → own.part S.meaning p ≡ own.part S.meaning part → p.depth ≤ part.depth → p.floor ≤ length s.now.metas → F.pre prove.now p l u s z g i }
    requires told { (p : _) (l : _) (u : _) (s : _) (z : _) (g : _) (i : _) (r : _) (l2 : _) (u2 : _) (s2 : _) (z2 : _)
        → F.post prove.now p l u s z g i r l2 u2 s2 z2
        → own.part S.meaning p ≡ own.part S.meaning part → p.depth ≤ part.depth → p.floor ≤ length s.now.metas
        → Proved (own.calls (own.part S.meaning p) p.depth) p.floor l.now g.now i.now u.now s.now (P.stops z.now) r l2.now u2.now s2.now (P.stops z2.now) }
    ensures value { Runs (blocks.closed (own.part S.meaning part.entry) (own.calls (own.part S.meaning part.entry) part.entry.depth)
        locals.old start levels units.old (own.state state.old)) result units.new (own.state state.new) }
    ensures kept { locals.new ≡ locals.old }
    ensures floor { part.entry.floor ≤ length state.new.metas }
    ensures below { take part.entry.floor state.new.metas ≡ take part.entry.floor state.old.metas }
    ensures count { P.stops stop.old ≤ P.stops stop.new }
    ensures rose { Rose result (P.stops stop.old) (P.stops stop.new) }
{
    run_pending(part, locals, units, state, stop, prove, start)?;
    all_assigned(state, start)?;
    levels_from(part, state, levels)
}

/// The binder of the local of this number closes.
#[tactic(auto, using(lf_part::proofs::Runs::halts), unfolding(lf_nested::specs::Blocks::closed_at))]
pub fn closed_at<
    S: Synth,
    P: Stop,
    F: Fn(
        Part<'_, S>,
        &mut Locals,
        &mut u64,
        &mut State,
        &mut P,
        &Expr,
        &[Item],
    ) -> Result<Expr, Ended>,
>(
    part: Part<'_, S>,
    locals: &mut Locals,
    units: &mut u64,
    state: &mut State,
    stop: &mut P,
    prove: &F,
    start: u32,
    number: usize,
) -> Result<(), Ended>
    requires floor { part.floor ≤ length state.old.metas }
    requires proves { (p : _) (l : _) (u : _) (s : _) (z : _) (g : _) (i : _)
        → own.part S.meaning p ≡ own.part S.meaning part → p.depth ≤ part.depth → p.floor ≤ length s.now.metas → F.pre prove.now p l u s z g i }
    requires told { (p : _) (l : _) (u : _) (s : _) (z : _) (g : _) (i : _) (r : _) (l2 : _) (u2 : _) (s2 : _) (z2 : _)
        → F.post prove.now p l u s z g i r l2 u2 s2 z2
        → own.part S.meaning p ≡ own.part S.meaning part → p.depth ≤ part.depth → p.floor ≤ length s.now.metas
        → Proved (own.calls (own.part S.meaning p) p.depth) p.floor l.now g.now i.now u.now s.now (P.stops z.now) r l2.now u2.now s2.now (P.stops z2.now) }
    ensures value { Runs (blocks.closed_at (own.part S.meaning part.entry) (own.calls (own.part S.meaning part.entry) part.entry.depth)
        locals.old start number units.old (own.state state.old)) result units.new (own.state state.new) }
    ensures kept { locals.new ≡ locals.old }
    ensures floor { part.entry.floor ≤ length state.new.metas }
    ensures below { take part.entry.floor state.new.metas ≡ take part.entry.floor state.old.metas }
    ensures count { P.stops stop.old ≤ P.stops stop.new }
    ensures rose { Rose result (P.stops stop.old) (P.stops stop.new) }
{
    closed(part, locals, units, state, stop, prove, start, None)?;
    none_escapes(state, number)
}
