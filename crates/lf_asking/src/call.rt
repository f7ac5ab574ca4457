//! Calls of the checker.
use crate::answer::{Left, Wanted, term_as_wanted, truth_as_wanted};
use lf_base::Stop;
use lf_check::{CheckCx, equal, infer, infer_unchecked, nf, whnf};
use lf_notation::{Unread, term, terms};
use std::alloc::Global;

/// A call of the checker.
#[derive(Clone, Copy)]
pub enum Call {
    Whnf,
    /// Of two terms.
    Equal,
    Infer,
    /// The type without tests, of a term behind the types of the metavariables.
    Unchecked,
    Nf,
}

/// What the call left.
pub fn left<'a, P: Stop>(cx: &'a CheckCx<'_, P>) -> Left<'a> {
    Left {
        opened: cx.opened.as_slice(),
        units: cx.budget.units,
    }
}

fn whnf_as_wanted<P: Stop>(
    alloc: Global,
    cx: &mut CheckCx<'_, P>,
    of: &str,
    wanted: &Wanted<'_>,
) -> Result<bool, Unread> {
    let of = term(alloc, of)?;
    let answer = whnf(alloc, cx, &of);
    drop(of);
    term_as_wanted(alloc, &answer, left(cx), wanted)
}

fn nf_as_wanted<P: Stop>(
    alloc: Global,
    cx: &mut CheckCx<'_, P>,
    of: &str,
    wanted: &Wanted<'_>,
) -> Result<bool, Unread> {
    let of = term(alloc, of)?;
    let answer = nf(alloc, cx, &of);
    drop(of);
    term_as_wanted(alloc, &answer, left(cx), wanted)
}

fn infer_as_wanted<P: Stop>(
    alloc: Global,
    cx: &mut CheckCx<'_, P>,
    of: &str,
    wanted: &Wanted<'_>,
) -> Result<bool, Unread> {
    let of = term(alloc, of)?;
    let answer = infer(alloc, cx, &of);
    drop(of);
    term_as_wanted(alloc, &answer, left(cx), wanted)
}

fn unchecked_as_wanted<P: Stop>(
    alloc: Global,
    cx: &mut CheckCx<'_, P>,
    of: &str,
    wanted: &Wanted<'_>,
) -> Result<bool, Unread> {
    let mut of = terms(alloc, of)?;
    let inner = of.pop().ok_or(Unread::Malformed)?;
    let answer = infer_unchecked(alloc, cx, of.as_slice(), &inner);
    drop(inner);
    drop(of);
    term_as_wanted(alloc, &answer, left(cx), wanted)
}

fn equal_as_wanted<P: Stop>(
    alloc: Global,
    cx: &mut CheckCx<'_, P>,
    of: &str,
    wanted: &Wanted<'_>,
) -> Result<bool, Unread> {
    let of = terms(alloc, of)?;
    let answer = match of.as_slice() {
        [a, b] => equal(alloc, cx, a, b),
        _ => return Err(Unread::Malformed),
    };
    drop(of);
    truth_as_wanted(alloc, &answer, left(cx), wanted)
}

/// Whether the call answers as wanted, in this context.
pub fn calls<P: Stop>(
    alloc: Global,
    cx: &mut CheckCx<'_, P>,
    call: Call,
    of: &str,
    wanted: &Wanted<'_>,
) -> Result<bool, Unread> {
    match call {
        Call::Whnf => whnf_as_wanted(alloc, cx, of, wanted),
        Call::Equal => equal_as_wanted(alloc, cx, of, wanted),
        Call::Infer => infer_as_wanted(alloc, cx, of, wanted),
        Call::Unchecked => unchecked_as_wanted(alloc, cx, of, wanted),
        Call::Nf => nf_as_wanted(alloc, cx, of, wanted),
    }
}
