//! Terms out of their parts.
ghost use Rattle.std.specs.Prelude.{◌≡◌, ◌<◌, ◌++◌, ◌∷◌, [], IfOk, length};
ghost use Rattle.lf_name.specs.declared.binder.BinderKind.TheVariants.{Explicit as ExplicitKind};
ghost use Rattle.lf_syntax.specs.Rows as rows;
ghost use Rattle.lf_syntax.specs.TermNode.{lbinder_tree};
ghost use Rattle.lf_parse_term.specs.Descent.{ToldAs, NoLonger};
ghost use Rattle.lf_parse_term.specs.View.{views};
ghost use Rattle.lf_syntax.specs.Build.{is_underscore as is_underscore_tree, name_term as name_term_tree, applied};
ghost use Rattle.lf_syntax.specs.Tree as tree;
ghost use Rattle.lf_parse_term.specs.Spine.{last_levels, name_terms as name_term_trees, applied_all};

use crate::halt::Halt;
use crate::level::written_levels;
use crate::names::one;
use crate::piece::Piece;
use lf_base::NoMemory;
use lf_name::{BinderKind, Name};
use lf_syntax::{Binders, Ident, LBinder, LevelTerm, Shared, Term, TermNode};
use lf_text::Op;
use std::alloc::Global;

/// The place of the term's first token.
pub fn place(term: &Term) -> usize
    ensures { result ≡ tree.place term.now }
{
    match term.node() {
        TermNode::Num(n) => n.at,
        TermNode::Ident { at, .. }
        | TermNode::Hole { at }
        | TermNode::Sorry { at }
        | TermNode::Prop { at }
        | TermNode::TypeU { at, .. }
        | TermNode::SortU { at, .. }
        | TermNode::Paren { at, .. }
        | TermNode::App { at, .. }
        | TermNode::Oper { at, .. }
        | TermNode::Not { at, .. }
        | TermNode::Fun { at, .. }
        | TermNode::Forall { at, .. }
        | TermNode::Let { at, .. }
        | TermNode::By { at, .. }
        | TermNode::Arrow { at, .. } => *at,
    }
}

/// The operator between two terms.
pub fn operation(alloc: Global, op: Op, left: Term, right: Term) -> Result<Term, NoMemory>
    ensures { IfOk result (λ t. t ≡ tree.oper (tree.place left) op left right) }
{
    let at = place(&left);
    Term::of(
        alloc,
        TermNode::Oper {
            at,
            op,
            left,
            right,
        },
    )
}

/// The first of the terms applied to the others.
pub fn application(alloc: Global, terms: Vec<Term>) -> Result<Term, NoMemory>
    requires { 0 < length terms.items }
    ensures { IfOk result (λ t. t ≡ applied_all terms.items) }
{
    let mut args = terms;
    let head = args.remove(0);
    if args.is_empty() {
        return Ok(head);
    }
    let at = place(&head);
    Term::of(alloc, TermNode::App { at, head, args })
}

/// Whether it is the lone `_`.
pub fn is_underscore(name: &Name) -> bool
    ensures { result ≡ is_underscore_tree name.now }
{
    match name.parts() {
        [word] => word.as_str() == "_",
        _ => false,
    }
}

/// The identifier as a term.
pub fn ident(
    alloc: Global,
    at: usize,
    explicit: bool,
    name: Ident,
    levels: Vec<LevelTerm>,
) -> Result<Term, NoMemory>
    ensures { IfOk result (λ t. t ≡ tree.ident at explicit name levels.items) }
{
    let levels = Shared::of(alloc, levels)?;
    let node = TermNode::Ident {
        at,
        explicit,
        name,
        levels,
    };
    Term::of(alloc, node)
}

/// The name as a term, with the levels written behind it.
pub fn name_term(alloc: Global, name: Ident, levels: Vec<LevelTerm>) -> Result<Term, NoMemory>
    ensures { IfOk result (λ t. t ≡ name_term_tree name levels.items) }
{
    let at = name.at;
    if is_underscore(&name.name) {
        return Term::of(alloc, TermNode::Hole { at });
    }
    ident(alloc, at, false, name, levels)
}

/// The names as terms, the last with levels.
pub fn name_terms(
    alloc: Global,
    before: Vec<Ident>,
    last: Ident,
    levels: Vec<LevelTerm>,
) -> Result<Vec<Term>, NoMemory>
    ensures terms { IfOk result (λ v. v.items ≡ name_term_trees before.items last levels.items) }
    ensures some { IfOk result (λ v. 0 < length v.items) }
{
    let mut all = Vec::new(alloc);
    'names: for name in &before {
        all.push(name_term(alloc, name.copy(alloc)?, Vec::new(alloc))?)?;
    }
    all.push(name_term(alloc, last, levels)?)?;
    Ok(all)
}

/// The levels that may stand behind the name; the lone `_` has none.
pub fn levels_behind<'a>(
    alloc: Global,
    name: &Ident,
    toks: &'a [Piece],
) -> Result<(Vec<LevelTerm>, &'a [Piece]), Halt>
    ensures told { ToldAs result (λ v. v.items) (last_levels name.now (views toks.now)) }
    ensures shorter { NoLonger result toks.now }
{
    if is_underscore(&name.name) {
        return Ok((Vec::new(alloc), toks));
    }
    written_levels(alloc, toks)
}

/// A binder in brackets that has no name.
pub fn unnamed(alloc: Global, at: usize, ty: Term) -> Result<Binders, NoMemory>
    ensures { IfOk result (λ b. b ≡ rows.unnamed at ty) }
{
    let name = Name::one(alloc, "inst")?;
    let names = Shared::of(alloc, one(alloc, Ident { at, name })?)?;
    let kind = BinderKind::Inst;
    Ok(Binders {
        at,
        kind,
        names,
        ty,
    })
}

/// A binder in parentheses of these names.
pub fn explicit_binders(
    alloc: Global,
    at: usize,
    before: Vec<Ident>,
    last: Ident,
    ty: Term,
) -> Result<Binders, NoMemory>
    ensures { IfOk result (λ b. b ≡ rows.binders_at at ExplicitKind (before.items ++ (last ∷ [])) ty) }
{
    let mut names = before;
    names.push(last)?;
    let names = Shared::of(alloc, names)?;
    let kind = BinderKind::Explicit;
    Ok(Binders {
        at,
        kind,
        names,
        ty,
    })
}

/// A binder in braces.
pub fn implicit(
    alloc: Global,
    at: usize,
    names: Vec<Ident>,
    ty: Option<Term>,
) -> Result<LBinder, NoMemory>
    ensures { IfOk result (λ b. lbinder_tree b ≡ rows.implicit_binder at names.items ty) }
{
    let names = Shared::of(alloc, names)?;
    match ty {
        Some(ty) => {
            let kind = BinderKind::Implicit;
            Ok(LBinder::Typed(Binders {
                at,
                kind,
                names,
                ty,
            }))
        }
        None => Ok(LBinder::Implicit { at, names }),
    }
}
