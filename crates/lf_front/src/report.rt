//! The report.
ghost use Rattle.std.specs.Prelude.{◌≡◌, ◌++◌, ◌+◌, ◌^◌, ◌<◌, ◌≤◌, ◌∷◌, [], All, IfOk, IfSome, OnOk, flat_map, slice_get};
ghost use Rattle.lf_core.specs.Size as size;
ghost use Rattle.lf_front.specs.Answers.{IsShallow};
ghost use Rattle.lf_front.specs.Report as spec;

use lf_core::{ConstInfo, Expr, ExprNode, Level, LevelNode, Name, NoMemory};
use sqlite_items::Items;
use std::alloc::Global;

/// Whether the variable of the binder that is `d` binders out is used.
fn is_used(d: u32, term: &Expr) -> bool
    requires { d + size.depth term.now < 2 ^ 32 }
    ensures { result ≡ spec.is_used d term.now }
{
    match term.node() {
        ExprNode::Bound(i) => *i == d,
        ExprNode::App(f, a) => is_used(d, f) || is_used(d, a),
        ExprNode::Lam(_, a, b) | ExprNode::Pi(_, a, b) => is_used(d, a) || is_used(d + 1, b),
        ExprNode::Let(_, a, v, b) => is_used(d, a) || is_used(d, v) || is_used(d + 1, b),
        ExprNode::Proj(_, _, t) => is_used(d, t),
        ExprNode::Free(_)
        | ExprNode::Meta(_)
        | ExprNode::Sort(_)
        | ExprNode::Const(_, _)
        | ExprNode::Lit(_) => false,
    }
}

fn push(out: &mut Vec<u8>, text: &[u8]) -> Result<(), NoMemory>
    ensures { OnOk result (out.new.items ≡ out.old.items ++ text.now) }
{
    out.extend_from_slice(text)?;
    Ok(())
}

fn push_name(out: &mut Vec<u8>, name: &Name) -> Result<(), NoMemory>
    ensures { OnOk result (out.new.items ≡ out.old.items ++ spec.dotted name.now) }
{
    match name.parts() {
        [] => Ok(()),
        [first, rest @ ..] => {
            push(out, first.as_str().as_bytes())?;
            for part in rest {
                push(out, b".")?;
                push(out, part.as_str().as_bytes())?;
            }
            Ok(())
        }
    }
}

/// How many successors a level has round it.
fn number_of(level: &Level) -> Option<u32>
    ensures { IfSome result (λ n. n ≡ spec.number_of level.now) }
{
    match level.node() {
        LevelNode::Succ(l) => number_of(l)?.checked_add(1),
        _ => Some(0),
    }
}

fn push_sort(alloc: Global, out: &mut Vec<u8>, n: u32) -> Result<(), NoMemory>
    ensures { OnOk result (out.new.items ≡ out.old.items ++ spec.sort_text n) }
{
    match n {
        0 => push(out, b"Prop"),
        1 => push(out, b"Type"),
        _ => {
            push(out, b"Type ")?;
            let digits = (n - 1).to_string(alloc)?;
            push(out, digits.as_bytes())
        }
    }
}

fn push_variable(out: &mut Vec<u8>, names: &[Name], i: u32) -> Result<(), NoMemory>
    ensures { OnOk result (out.new.items ≡ out.old.items ++ spec.name_text (slice_get names.now i)) }
{
    match names.get(i as usize) {
        Some(name) => push_name(out, name),
        None => push(out, b"?"),
    }
}

/// The names with one more in front.
fn inside(alloc: Global, name: &Name, names: &[Name]) -> Result<Items<Name>, NoMemory>
    ensures { IfOk result (λ all. all ≡ name.now ∷ names.now) }
{
    let mut all = Items::new(alloc);
    all.push(name.copy(alloc)?)?;
    for name in names {
        all.push(name.copy(alloc)?)?;
    }
    Ok(all)
}

/// Writes a term at a place that asks for this level, under binders of these names, the innermost first.
#[cycle(print)]
fn print(
    alloc: Global,
    out: &mut Vec<u8>,
    level: u32,
    names: &[Name],
    term: &Expr,
) -> Result<(), NoMemory>
    requires { size.depth term.now ≤ 1024 }
    ensures { OnOk result (out.new.items ≡ out.old.items ++ spec.printed level names.now term.now) }
{
    match term.node() {
        ExprNode::Bound(i) => push_variable(out, names, *i),
        ExprNode::Sort(l) => match number_of(l) {
            Some(n) => push_sort(alloc, out, n),
            None => Err(NoMemory),
        },
        ExprNode::Const(name, _) => push_name(out, name),
        ExprNode::Pi(x, domain, body) => {
            if level > 25 {
                push(out, b"(")?;
                print_pi(alloc, out, names, &x.name, domain, body)?;
                return push(out, b")");
            }
            print_pi(alloc, out, names, &x.name, domain, body)
        }
        _ => push(out, b"?"),
    }
}

#[cycle(print)]
fn print_pi(
    alloc: Global,
    out: &mut Vec<u8>,
    names: &[Name],
    name: &Name,
    domain: &Expr,
    body: &Expr,
) -> Result<(), NoMemory>
    requires domain { size.depth domain.now < 1024 }
    requires body { size.depth body.now < 1024 }
    ensures { OnOk result (out.new.items ≡ out.old.items ++ spec.pi_text (spec.is_used 0 body.now) name.now
        (spec.printed 0 names.now domain.now) (spec.printed 0 (name.now ∷ names.now) body.now)
        (spec.printed 26 names.now domain.now) (spec.printed 25 (name.now ∷ names.now) body.now)) }
{
    let inner = inside(alloc, name, names)?;
    if is_used(0, body) {
        push(out, "∀ (".as_bytes())?;
        push_name(out, name)?;
        push(out, b" : ")?;
        print(alloc, out, 0, names, domain)?;
        push(out, b"), ")?;
        return print(alloc, out, 0, inner.as_slice(), body);
    }
    print(alloc, out, 26, names, domain)?;
    push(out, " → ".as_bytes())?;
    print(alloc, out, 25, inner.as_slice(), body)
}

fn push_line(alloc: Global, out: &mut Vec<u8>, constant: &ConstInfo) -> Result<(), NoMemory>
    requires { IsShallow constant.now }
    ensures { OnOk result (out.new.items ≡ out.old.items ++ spec.line_of constant.now) }
{
    push(out, b"axiom ")?;
    push_name(out, &constant.name)?;
    push(out, b" : ")?;
    print(alloc, out, 0, &[], &constant.ty)?;
    push(out, b"\n")
}

/// The report of these axioms.
pub(crate) fn report_of(alloc: Global, constants: &[ConstInfo]) -> Result<Vec<u8>, NoMemory>
    requires { All IsShallow constants.now }
    ensures { IfOk result (λ text. text.items ≡ spec.report_of constants.now) }
{
    let mut out = Vec::new(alloc);
    for constant in constants {
        push_line(alloc, &mut out, constant)?;
    }
    push(&mut out, b"0 errors, 0 warnings\n")?;
    Ok(out)
}
