//! Rows: what is asked, under which terms, and what is wanted.
use crate::answer::Wanted;
use crate::call::{Call, calls};
use crate::kernel::{Addition, adds};
use lf_base::{Budget, NeverStop, ScriptStop, Stop};
use lf_check::CheckCx;
use lf_env::View;
use lf_notation::{Unread, terms};
use std::alloc::Global;

/// What is asked.
#[derive(Clone, Copy)]
pub enum Question<'a> {
    /// A call of the checker, and what it is of.
    Of(Call, &'a str),
    Add(Addition<'a>),
}

/// How often it is asked, and at which poll it is stopped.
#[derive(Clone, Copy)]
pub enum Asking {
    Once,
    Stopped(u64),
    /// Stopped at this poll, which has to be the answer, and asked once more in the same context with the same budget.
    Again(u64),
}

/// A question, the types of the free variables, what it may spend, and what is to be the answer.
#[derive(Clone, Copy)]
pub struct Row<'a> {
    pub question: Question<'a>,
    pub context: &'a str,
    pub budget: Budget,
    pub asking: Asking,
    pub wanted: Wanted<'a>,
}

fn answers<P: Stop>(
    alloc: Global,
    cx: &mut CheckCx<'_, P>,
    question: &Question<'_>,
    wanted: &Wanted<'_>,
) -> Result<bool, Unread> {
    match question {
        Question::Of(call, of) => calls(alloc, cx, *call, of, wanted),
        Question::Add(addition) => adds(alloc, cx, addition, wanted),
    }
}

fn once<P: Stop>(alloc: Global, view: &View, stop: &mut P, row: &Row<'_>) -> Result<bool, Unread> {
    let mut cx = CheckCx {
        view,
        locals: terms(alloc, row.context)?,
        opened: Vec::new(alloc),
        budget: row.budget,
        stop,
    };
    answers(alloc, &mut cx, &row.question, &row.wanted)
}

fn again(alloc: Global, view: &View, poll: u64, row: &Row<'_>) -> Result<bool, Unread> {
    let mut stop = ScriptStop::new(poll);
    let mut cx = CheckCx {
        view,
        locals: terms(alloc, row.context)?,
        opened: Vec::new(alloc),
        budget: row.budget,
        stop: &mut stop,
    };
    let stopped = answers(alloc, &mut cx, &row.question, &Wanted::Stopped)?;
    cx.budget = row.budget;
    let answered = answers(alloc, &mut cx, &row.question, &row.wanted)?;
    drop(cx);
    Ok(stopped && answered)
}

/// Whether the row is answered as wanted, over this view.
pub fn holds(alloc: Global, view: &View, row: &Row<'_>) -> Result<bool, Unread> {
    match row.asking {
        Asking::Once => once(alloc, view, &mut NeverStop, row),
        Asking::Stopped(poll) => once(alloc, view, &mut ScriptStop::new(poll), row),
        Asking::Again(poll) => again(alloc, view, poll, row),
    }
}
