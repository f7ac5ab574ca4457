//! What the answers of the kernel's calls are worth: each call once more, with the law as its contract.
#![tactic(auto)]

ghost use Rattle.lf_induct.specs.Parts.{answer_map};
ghost use Rattle.lf_kernel_laws.specs.Calls.{AdmitsDeclaration, AreEqual, GivesEqual, GivesType, GivesLevel, KeepsDerived, KeepsDerivedWith, StatesConstant};

use lf_base::Stop;
use lf_check::CheckCx;
use lf_checker::TypeFault;
use lf_core::{Ans, ConstInfo, Expr, IndDecl, Level, Name};
use std::alloc::Global;

/// A weak head form is equal to the term.
#[tactic(auto, using(crate::proofs::Calls::whnf_is_sound))]
pub fn whnf<P: Stop>(alloc: Global, cx: &mut CheckCx<'_, P>, term: &Expr) -> Ans<Expr, TypeFault>
    ensures { GivesEqual cx.old.view.now cx.old.locals.items term.now result }
{
    lf_check::whnf(alloc, cx, term)
}

/// A normal form is equal to the term.
#[tactic(auto, using(crate::proofs::Calls::nf_is_sound))]
pub fn nf<P: Stop>(alloc: Global, cx: &mut CheckCx<'_, P>, term: &Expr) -> Ans<Expr, TypeFault>
    ensures { GivesEqual cx.old.view.now cx.old.locals.items term.now result }
{
    lf_check::nf(alloc, cx, term)
}

/// What is found equal is equal.
#[tactic(auto, using(crate::proofs::Calls::equal_is_sound))]
pub fn equal<P: Stop>(
    alloc: Global,
    cx: &mut CheckCx<'_, P>,
    a: &Expr,
    b: &Expr,
) -> Ans<bool, TypeFault>
    ensures { AreEqual cx.old.view.now cx.old.locals.items a.now b.now result }
{
    lf_check::equal(alloc, cx, a, b)
}

/// The type that is given is one of the term.
#[tactic(auto, using(crate::proofs::Calls::infer_is_sound))]
pub fn infer<P: Stop>(alloc: Global, cx: &mut CheckCx<'_, P>, term: &Expr) -> Ans<Expr, TypeFault>
    ensures { GivesType cx.old.view.now cx.old.locals.items term.now result }
{
    lf_check::infer(alloc, cx, term)
}

/// The level that is given is that of a sort of the type; over a derived list a constant of this name and type is stated.
#[tactic(auto, using(crate::proofs::Calls::header_is_typed, crate::proofs::Calls::header_is_stated))]
pub fn add_header<P: Stop>(
    alloc: Global,
    cx: &mut CheckCx<'_, P>,
    name: &Name,
    ty: &Expr,
) -> Ans<Level, TypeFault>
    ensures typed { GivesLevel cx.old.view.now ty.now result }
    ensures stated { StatesConstant cx.old.view.now name.now ty.now result }
{
    lf_kernel::add_header(alloc, cx, name, ty)
}

/// With what is accepted a derived list stays derived.
#[tactic(auto, using(crate::proofs::Calls::value_is_derived))]
pub fn add_decl<P: Stop>(
    alloc: Global,
    cx: &mut CheckCx<'_, P>,
    info: &ConstInfo,
) -> Ans<u32, TypeFault>
    ensures { KeepsDerived cx.old.view.now info.now result }
{
    lf_kernel::add_decl(alloc, cx, info)
}

/// What is accepted is admitted, and with the constants that are given a derived list stays derived.
#[tactic(auto, using(crate::proofs::Calls::declaration_is_admitted, crate::proofs::Calls::declaration_is_derived))]
pub fn add_inductive<P: Stop>(
    alloc: Global,
    cx: &mut CheckCx<'_, P>,
    decl: &IndDecl,
) -> Ans<Vec<ConstInfo>, TypeFault>
    ensures admitted { AdmitsDeclaration cx.old.view.now decl.now (answer_map (λ v. v.items) result) }
    ensures derived { KeepsDerivedWith cx.old.view.now decl.now (answer_map (λ v. v.items) result) }
{
    lf_kernel::add_inductive(alloc, cx, decl)
}
