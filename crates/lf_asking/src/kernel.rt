//! Calls of the kernel.
ghost use Rattle.std.specs.Prelude.{◌≡◌, ◌↔◌, map, IsTrue};

use crate::answer::{Wanted, ends_as_wanted, wanted_value};
use crate::call::left;
use crate::views::constant;
use lf_base::Stop;
use lf_check::CheckCx;
use lf_checker::TypeFault;
use lf_core::{Ans, ConstInfo, ConstKind, Expr, Level, Name};
use lf_kernel::{add_decl, add_header, add_inductive};
use lf_notation::{Declaration, Unread, declared, name, names, term};
use std::alloc::Global;

/// What is added to a view.
#[derive(Clone, Copy)]
pub enum Addition<'a> {
    /// A name and a type; the answer is the type's sort.
    Header(&'a str, &'a str),
    /// A theorem's name, type and value; the answer is its height.
    Theorem(&'a str, &'a str, &'a str),
    /// The answer is the names of the constants that are given.
    Inductive(Declaration<'a>),
}

// The sort of a level, against a written one.
fn is_sort_of(alloc: Global, level: &Level, text: &str) -> Result<bool, Unread> {
    let found = Expr::sort(alloc, level.copy(alloc)?)?;
    let wanted = term(alloc, text)?;
    let same = found.is(&wanted);
    drop(found);
    drop(wanted);
    Ok(same)
}

// Whether these are the constants of the wanted names, in their order.
fn are_named(infos: &[ConstInfo], wanted: &[Name]) -> bool
    ensures { IsTrue result ↔ (map (λ c. c.name) infos.now ≡ wanted.now) }
{
    match infos {
        [] => match wanted {
            [] => true,
            [_y, _ys @ ..] => false,
        },
        [x, xs @ ..] => match wanted {
            [] => false,
            [y, ys @ ..] => x.name.is(y) && are_named(xs, ys),
        },
    }
}

fn have_names(alloc: Global, infos: &[ConstInfo], text: &str) -> Result<bool, Unread> {
    let wanted = names(alloc, text)?;
    let same = are_named(infos, wanted.as_slice());
    drop(wanted);
    Ok(same)
}

fn header_as_wanted<P: Stop>(
    alloc: Global,
    cx: &mut CheckCx<'_, P>,
    text: &str,
    ty: &str,
    wanted: &Wanted<'_>,
) -> Result<bool, Unread> {
    let name = name(alloc, text)?;
    let ty = term(alloc, ty)?;
    let answer: Ans<Level, TypeFault> = add_header(alloc, cx, &name, &ty);
    drop(name);
    drop(ty);
    match &answer {
        Ans::Done(level) => match wanted_value(wanted, cx.budget.units) {
            Some(text) => is_sort_of(alloc, level, text),
            None => Ok(false),
        },
        _ => ends_as_wanted(alloc, &answer, left(cx), wanted),
    }
}

fn theorem_as_wanted<P: Stop>(
    alloc: Global,
    cx: &mut CheckCx<'_, P>,
    info: &ConstInfo,
    wanted: &Wanted<'_>,
) -> Result<bool, Unread> {
    let answer: Ans<u32, TypeFault> = add_decl(alloc, cx, info);
    match &answer {
        Ans::Done(height) => match wanted_value(wanted, cx.budget.units) {
            Some(text) => Ok(text.parse::<u32>() == Ok(*height)),
            None => Ok(false),
        },
        _ => ends_as_wanted(alloc, &answer, left(cx), wanted),
    }
}

fn inductive_as_wanted<P: Stop>(
    alloc: Global,
    cx: &mut CheckCx<'_, P>,
    written: &Declaration<'_>,
    wanted: &Wanted<'_>,
) -> Result<bool, Unread> {
    let decl = declared(alloc, written)?;
    let answer: Ans<Vec<ConstInfo>, TypeFault> = add_inductive(alloc, cx, &decl);
    drop(decl);
    match &answer {
        Ans::Done(infos) => match wanted_value(wanted, cx.budget.units) {
            Some(text) => have_names(alloc, infos.as_slice(), text),
            None => Ok(false),
        },
        _ => ends_as_wanted(alloc, &answer, left(cx), wanted),
    }
}

/// Whether the call answers as wanted, in this context.
pub fn adds<P: Stop>(
    alloc: Global,
    cx: &mut CheckCx<'_, P>,
    addition: &Addition<'_>,
    wanted: &Wanted<'_>,
) -> Result<bool, Unread> {
    match addition {
        Addition::Header(text, ty) => header_as_wanted(alloc, cx, text, ty, wanted),
        Addition::Theorem(text, ty, value) => {
            let info = constant(alloc, ConstKind::Theorem, (text, ""), ty, value, 0)?;
            theorem_as_wanted(alloc, cx, &info, wanted)
        }
        Addition::Inductive(written) => inductive_as_wanted(alloc, cx, written, wanted),
    }
}
