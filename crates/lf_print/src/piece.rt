ghost use Rattle.std.specs.Prelude.{◌≡◌, if◌then◌else◌, ◌≢◌, ◌+◌, nat_lt, slice_get, flat_map, decimal, ◌&&◌, not, true, false, ◌++◌, ◌∷◌, [], ℕ, List, IfOk};
ghost use Rattle.std.specs.Option.{option_copied};
ghost use Rattle.lf_core.specs.Term.{Path, Term, app, lam, pi, letin, level_succ};
ghost use Rattle.lf_print.specs.Printed.{
  printed,
  is_used,
  is_explicit,
  in_parentheses,
  binder_text,
  applied,
  infixed as infixed_text,
  sum_text,
  name_text,
  path_text,
  behind_dot,
  level_text,
  sort_text,
  opening as opening_of,
  closing as closing_of,
};
ghost use Rattle.lf_print.specs.Mark.{mark_text};
ghost use Rattle.lf_print.specs.Pieces.{todo};
ghost use Rattle.lf_print.specs.declared.mark.Mark.TheVariants.{Not, Hole, ForAll, Comma, Space, Dot};
ghost use Rattle.lf_print.specs.Forms.{form_of, form_text, plain_form, negation_form};
ghost use Rattle.lf_print.specs.Told.{told};
ghost use Rattle.lf_print.specs.Operators.{is_negation, mark_of};
ghost use Rattle.lf_text.specs.Operators.{op_level, left_of, right_of};
ghost use Rattle.lf_text.specs.declared.operator.Op.TheVariants as op;

use crate::mark::Mark;
use crate::operator::{infix_mark, negation, operation, relation};
use lf_core::{Binder, BinderKind, Expr, ExprNode, Level, LevelNode, Name, NoMemory, Word};
use lf_text::Op;
use std::alloc::Global;

/// A part of a text that is still to be printed, under the names of the binders that are open there.
#[derive(Clone, Copy)]
pub enum Piece<'a> {
    Mark(Mark),
    /// The mark, where it is wanted.
    When(bool, Mark),
    /// The parts of a name.
    Words(&'a [Word]),
    /// The parts of a name behind its first.
    Rest(&'a [Word]),
    Word(&'a Word),
    Number(u128),
    /// The name of a variable or of a level's parameter.
    Bound(u32),
    Free(u32),
    Param(u32),
    /// A level as a part or not, with so many more.
    Level(&'a Level, bool, u128),
    /// A term at a place that asks for this level.
    Term(&'a Expr, u32),
    /// A binder opens or closes.
    Open(&'a Name),
    Close,
}

/// Whether the variable of the binder that is `depth` binders out is used. Parts without loose variables aren't walked.
#[tactic(auto, using(crate::proofs::Unused::unused))]
fn uses(term: &Expr, depth: u32) -> bool
    ensures { result ≡ is_used depth term.now }
{
    if term.loose_bound() <= depth {
        return false;
    }
    match term.node() {
        ExprNode::Bound(index) => *index == depth,
        ExprNode::Free(_) => false,
        ExprNode::Meta(_) => false,
        ExprNode::Sort(_) => false,
        ExprNode::Const(_, _) => false,
        ExprNode::Lit(_) => false,
        ExprNode::App(f, a) => uses(f, depth) || uses(a, depth),
        ExprNode::Lam(_, a, b) => uses(a, depth) || uses(b, depth + 1),
        ExprNode::Pi(_, a, b) => uses(a, depth) || uses(b, depth + 1),
        ExprNode::Let(_, a, v, b) => uses(a, depth) || uses(v, depth) || uses(b, depth + 1),
        ExprNode::Proj(_, _, t) => uses(t, depth),
    }
}

/// The bracket before a binder of this kind.
fn opening(kind: BinderKind) -> Mark
    ensures { result ≡ opening_of kind }
{
    match kind {
        BinderKind::Explicit => Mark::OpenParen,
        BinderKind::Implicit => Mark::OpenBrace,
        BinderKind::Inst => Mark::OpenBracket,
    }
}

/// The bracket behind it.
fn closing(kind: BinderKind) -> Mark
    ensures { result ≡ closing_of kind }
{
    match kind {
        BinderKind::Explicit => Mark::CloseParen,
        BinderKind::Implicit => Mark::CloseBrace,
        BinderKind::Inst => Mark::CloseBracket,
    }
}

/// The pieces of a lambda.
fn lambda<'a>(
    alloc: Global,
    x: &'a Binder,
    domain: &'a Expr,
    body: &'a Expr,
    place: u32,
) -> Result<Vec<Piece<'a>>, NoMemory>
    ensures { IfOk result (λ ps. (fs ls xs : List Path) (rest : List _)
        → todo fs ls xs (ps.items ++ rest) ≡ printed fs ls place xs (lam x.now domain.now body.now) ++ todo fs ls xs rest) }
{
    let wrapped = 25 < place;
    let pieces = vec![in alloc;
        Piece::When(wrapped, Mark::OpenParen),
        Piece::Mark(Mark::Fun),
        Piece::Mark(opening(x.kind)),
        Piece::Words(x.name.parts()),
        Piece::Mark(Mark::Colon),
        Piece::Term(domain, 0),
        Piece::Mark(closing(x.kind)),
        Piece::Mark(Mark::Maps),
        Piece::Open(&x.name),
        Piece::Term(body, 0),
        Piece::Close,
        Piece::When(wrapped, Mark::CloseParen),
    ]?;
    Ok(pieces)
}

/// Whether a pi is printed as an arrow.
fn is_arrow(x: &Binder, body: &Expr) -> bool
    ensures { result ≡ (is_explicit x.now.kind && not (is_used 0 body.now)) }
{
    match x.kind {
        BinderKind::Explicit => !uses(body, 0),
        BinderKind::Implicit => false,
        BinderKind::Inst => false,
    }
}

/// The pieces of a pi.
fn product<'a>(
    alloc: Global,
    x: &'a Binder,
    domain: &'a Expr,
    body: &'a Expr,
    place: u32,
) -> Result<Vec<Piece<'a>>, NoMemory>
    ensures { IfOk result (λ ps. (fs ls xs : List Path) (rest : List _)
        → todo fs ls xs (ps.items ++ rest) ≡ printed fs ls place xs (pi x.now domain.now body.now) ++ todo fs ls xs rest) }
{
    if is_arrow(x, body) {
        arrow(alloc, x, domain, body, place)
    } else {
        for_all(alloc, x, domain, body, place)
    }
}

/// The pieces of a pi whose binder isn't written.
fn arrow<'a>(
    alloc: Global,
    x: &'a Binder,
    domain: &'a Expr,
    body: &'a Expr,
    place: u32,
) -> Result<Vec<Piece<'a>>, NoMemory>
    ensures { IfOk result (λ ps. (fs ls xs : List Path) (rest : List _)
        → todo fs ls xs (ps.items ++ rest) ≡ in_parentheses (nat_lt (op_level op.Arrow) place)
        (printed fs ls (left_of op.Arrow) xs domain.now ++ (mark_text (mark_of op.Arrow) ++ printed fs ls (right_of op.Arrow) (x.now.name ∷ xs) body.now))
        ++ todo fs ls xs rest) }
{
    let wrapped = u32::from(Op::Arrow.level()) < place;
    let pieces = vec![in alloc;
        Piece::When(wrapped, Mark::OpenParen),
        Piece::Term(domain, u32::from(Op::Arrow.left())),
        Piece::Mark(infix_mark(Op::Arrow)),
        Piece::Open(&x.name),
        Piece::Term(body, u32::from(Op::Arrow.right())),
        Piece::Close,
        Piece::When(wrapped, Mark::CloseParen),
    ]?;
    Ok(pieces)
}

/// The pieces of a pi whose binder is written.
fn for_all<'a>(
    alloc: Global,
    x: &'a Binder,
    domain: &'a Expr,
    body: &'a Expr,
    place: u32,
) -> Result<Vec<Piece<'a>>, NoMemory>
    ensures { IfOk result (λ ps. (fs ls xs : List Path) (rest : List _)
        → todo fs ls xs (ps.items ++ rest) ≡ in_parentheses (nat_lt 25 place)
        (mark_text ForAll ++ (binder_text x.now.kind x.now.name (printed fs ls 0 xs domain.now)
        ++ (mark_text Comma ++ printed fs ls 0 (x.now.name ∷ xs) body.now))) ++ todo fs ls xs rest) }
{
    let wrapped = 25 < place;
    let pieces = vec![in alloc;
        Piece::When(wrapped, Mark::OpenParen),
        Piece::Mark(Mark::ForAll),
        Piece::Mark(opening(x.kind)),
        Piece::Words(x.name.parts()),
        Piece::Mark(Mark::Colon),
        Piece::Term(domain, 0),
        Piece::Mark(closing(x.kind)),
        Piece::Mark(Mark::Comma),
        Piece::Open(&x.name),
        Piece::Term(body, 0),
        Piece::Close,
        Piece::When(wrapped, Mark::CloseParen),
    ]?;
    Ok(pieces)
}

/// The pieces of a let.
fn definition<'a>(
    alloc: Global,
    x: &'a Binder,
    domain: &'a Expr,
    value: &'a Expr,
    body: &'a Expr,
    place: u32,
) -> Result<Vec<Piece<'a>>, NoMemory>
    ensures { IfOk result (λ ps. (fs ls xs : List Path) (rest : List _)
        → todo fs ls xs (ps.items ++ rest) ≡ printed fs ls place xs (letin x.now domain.now value.now body.now) ++ todo fs ls xs rest) }
{
    let wrapped = 25 < place;
    let pieces = vec![in alloc;
        Piece::When(wrapped, Mark::OpenParen),
        Piece::Mark(Mark::LetIn),
        Piece::Words(x.name.parts()),
        Piece::Mark(Mark::Colon),
        Piece::Term(domain, 0),
        Piece::Mark(Mark::Assign),
        Piece::Term(value, 0),
        Piece::Mark(Mark::Then),
        Piece::Open(&x.name),
        Piece::Term(body, 0),
        Piece::Close,
        Piece::When(wrapped, Mark::CloseParen),
    ]?;
    Ok(pieces)
}

/// The pieces of an application that is no operator.
fn plain<'a>(
    alloc: Global,
    f: &'a Expr,
    a: &'a Expr,
    place: u32,
) -> Result<Vec<Piece<'a>>, NoMemory>
    ensures { IfOk result (λ ps. (fs ls xs : List Path) (rest : List _)
        → todo fs ls xs (ps.items ++ rest) ≡ applied place (printed fs ls 1023 xs f.now) (printed fs ls 1024 xs a.now) ++ todo fs ls xs rest) }
{
    let wrapped = 1023 < place;
    let pieces = vec![in alloc;
        Piece::When(wrapped, Mark::OpenParen),
        Piece::Term(f, 1023),
        Piece::Mark(Mark::Space),
        Piece::Term(a, 1024),
        Piece::When(wrapped, Mark::CloseParen),
    ]?;
    Ok(pieces)
}

/// The pieces of an operator between its operands.
fn between<'a>(
    alloc: Global,
    op: Op,
    left: &'a Expr,
    right: &'a Expr,
    place: u32,
) -> Result<Vec<Piece<'a>>, NoMemory>
    ensures { IfOk result (λ ps. (fs ls xs : List Path) (rest : List _)
        → todo fs ls xs (ps.items ++ rest) ≡ in_parentheses (nat_lt (op_level op) place)
        (printed fs ls (left_of op) xs left.now ++ (mark_text (mark_of op) ++ printed fs ls (right_of op) xs right.now)) ++ todo fs ls xs rest) }
{
    let wrapped = u32::from(op.level()) < place;
    let pieces = vec![in alloc;
        Piece::When(wrapped, Mark::OpenParen),
        Piece::Term(left, u32::from(op.left())),
        Piece::Mark(infix_mark(op)),
        Piece::Term(right, u32::from(op.right())),
        Piece::When(wrapped, Mark::CloseParen),
    ]?;
    Ok(pieces)
}

/// The pieces of a negation.
fn negated<'a>(alloc: Global, a: &'a Expr, place: u32) -> Result<Vec<Piece<'a>>, NoMemory>
    ensures { IfOk result (λ ps. (fs ls xs : List Path) (rest : List _)
        → todo fs ls xs (ps.items ++ rest) ≡ in_parentheses (nat_lt 40 place) (mark_text Not ++ printed fs ls 40 xs a.now) ++ todo fs ls xs rest) }
{
    let wrapped = 40 < place;
    let pieces = vec![in alloc;
        Piece::When(wrapped, Mark::OpenParen),
        Piece::Mark(Mark::Not),
        Piece::Term(a, 40),
        Piece::When(wrapped, Mark::CloseParen),
    ]?;
    Ok(pieces)
}

/// The pieces of `f` applied to `right`, which is an operator's where there is one.
fn infixed<'a>(
    alloc: Global,
    operator: Option<Op>,
    f: &'a Expr,
    left: &'a Expr,
    right: &'a Expr,
    place: u32,
) -> Result<Vec<Piece<'a>>, NoMemory>
    ensures { IfOk result (λ ps. (fs ls xs : List Path) (rest : List _)
        → todo fs ls xs (ps.items ++ rest) ≡ infixed_text place operator (λ q. printed fs ls q xs left.now) (λ q. printed fs ls q xs right.now)
        (applied place (printed fs ls 1023 xs f.now) (printed fs ls 1024 xs right.now)) ++ todo fs ls xs rest) }
{
    match operator {
        None => plain(alloc, f, right, place),
        Some(op) => {
            if place == 1023 {
                plain(alloc, f, right, place)
            } else {
                between(alloc, op, left, right, place)
            }
        }
    }
}

/// How an application of a function is printed: as an operator with the left operand, as a negation, or as it is.
enum Form<'a> {
    Between(Option<Op>, &'a Expr),
    Negation,
    Plain,
}

/// The form of an application of `h y x`.
fn form_behind_two<'a>(h: &'a Expr, y: &'a Expr, x: &'a Expr) -> Form<'a>
    ensures { told result ≡ form_of (app (app h.now y.now) x.now) }
{
    match h.node() {
        ExprNode::Const(c, _) => Form::Between(relation(c.parts()), x),
        ExprNode::App(_, _) => Form::Plain,
        ExprNode::Bound(_) => Form::Plain,
        ExprNode::Free(_) => Form::Plain,
        ExprNode::Meta(_) => Form::Plain,
        ExprNode::Sort(_) => Form::Plain,
        ExprNode::Lit(_) => Form::Plain,
        ExprNode::Lam(_, _, _) => Form::Plain,
        ExprNode::Pi(_, _, _) => Form::Plain,
        ExprNode::Let(_, _, _, _) => Form::Plain,
        ExprNode::Proj(_, _, _) => Form::Plain,
    }
}

/// The form of an application of `g x`.
fn form_behind_one<'a>(g: &'a Expr, x: &'a Expr) -> Form<'a>
    ensures { told result ≡ form_of (app g.now x.now) }
{
    match g.node() {
        ExprNode::Const(c, _) => Form::Between(operation(c.parts()), x),
        ExprNode::App(h, y) => form_behind_two(h, y, x),
        ExprNode::Bound(_) => Form::Plain,
        ExprNode::Free(_) => Form::Plain,
        ExprNode::Meta(_) => Form::Plain,
        ExprNode::Sort(_) => Form::Plain,
        ExprNode::Lit(_) => Form::Plain,
        ExprNode::Lam(_, _, _) => Form::Plain,
        ExprNode::Pi(_, _, _) => Form::Plain,
        ExprNode::Let(_, _, _, _) => Form::Plain,
        ExprNode::Proj(_, _, _) => Form::Plain,
    }
}

/// The form of an application of a constant.
fn form_of_constant<'a>(parts: &[Word]) -> Form<'a>
    ensures { told result ≡ (if is_negation parts.now then negation_form else plain_form) }
{
    if negation(parts) {
        Form::Negation
    } else {
        Form::Plain
    }
}

/// The form of an application of `f`.
fn form_behind<'a>(f: &'a Expr) -> Form<'a>
    ensures { told result ≡ form_of f.now }
{
    match f.node() {
        ExprNode::Const(c, _) => form_of_constant(c.parts()),
        ExprNode::App(g, x) => form_behind_one(g, x),
        ExprNode::Bound(_) => Form::Plain,
        ExprNode::Free(_) => Form::Plain,
        ExprNode::Meta(_) => Form::Plain,
        ExprNode::Sort(_) => Form::Plain,
        ExprNode::Lit(_) => Form::Plain,
        ExprNode::Lam(_, _, _) => Form::Plain,
        ExprNode::Pi(_, _, _) => Form::Plain,
        ExprNode::Let(_, _, _, _) => Form::Plain,
        ExprNode::Proj(_, _, _) => Form::Plain,
    }
}

/// The pieces of `f a` in this form.
fn formed<'a>(
    alloc: Global,
    form: Form<'a>,
    f: &'a Expr,
    a: &'a Expr,
    place: u32,
) -> Result<Vec<Piece<'a>>, NoMemory>
    ensures { IfOk result (λ ps. (fs ls xs : List Path) (rest : List _)
        → todo fs ls xs (ps.items ++ rest) ≡ form_text fs ls place xs f.now a.now (told form.entry) ++ todo fs ls xs rest) }
{
    match form {
        Form::Between(operator, x) => infixed(alloc, operator, f, x, a, place),
        Form::Negation => {
            if place == 1023 {
                plain(alloc, f, a, place)
            } else {
                negated(alloc, a, place)
            }
        }
        Form::Plain => plain(alloc, f, a, place),
    }
}

/// The pieces of `f a`.
fn application<'a>(
    alloc: Global,
    f: &'a Expr,
    a: &'a Expr,
    place: u32,
) -> Result<Vec<Piece<'a>>, NoMemory>
    ensures { IfOk result (λ ps. (fs ls xs : List Path) (rest : List _)
        → todo fs ls xs (ps.items ++ rest) ≡ form_text fs ls place xs f.now a.now (form_of f.now) ++ todo fs ls xs rest) }
{
    formed(alloc, form_behind(f), f, a, place)
}

fn one<'a>(alloc: Global, piece: Piece<'a>) -> Result<Vec<Piece<'a>>, NoMemory>
    ensures { IfOk result (λ ps. ps.items ≡ piece.entry ∷ []) }
{
    let pieces = vec![in alloc; piece]?;
    Ok(pieces)
}

/// The pieces of a sort.
fn sort_pieces<'a>(alloc: Global, level: &'a Level) -> Result<Vec<Piece<'a>>, NoMemory>
    ensures { IfOk result (λ ps. (fs ls xs : List Path) (rest : List _) → todo fs ls xs (ps.items ++ rest) ≡ sort_text ls level.now ++ todo fs ls xs rest) }
{
    match level.node() {
        LevelNode::Zero => one(alloc, Piece::Mark(Mark::Prop)),
        LevelNode::Succ(l) => type_pieces(alloc, l),
        LevelNode::Max(_, _) => of_level(alloc, Mark::SortOf, level),
        LevelNode::Imax(_, _) => of_level(alloc, Mark::SortOf, level),
        LevelNode::Param(_) => of_level(alloc, Mark::SortOf, level),
        LevelNode::Meta(_) => of_level(alloc, Mark::SortOf, level),
    }
}

/// The pieces of the sort above this level.
fn type_pieces<'a>(alloc: Global, level: &'a Level) -> Result<Vec<Piece<'a>>, NoMemory>
    ensures { IfOk result (λ ps. (fs ls xs : List Path) (rest : List _)
        → todo fs ls xs (ps.items ++ rest) ≡ sort_text ls (level_succ level.now) ++ todo fs ls xs rest) }
{
    match level.node() {
        LevelNode::Zero => one(alloc, Piece::Mark(Mark::TypeZero)),
        LevelNode::Succ(_) => of_level(alloc, Mark::TypeOf, level),
        LevelNode::Max(_, _) => of_level(alloc, Mark::TypeOf, level),
        LevelNode::Imax(_, _) => of_level(alloc, Mark::TypeOf, level),
        LevelNode::Param(_) => of_level(alloc, Mark::TypeOf, level),
        LevelNode::Meta(_) => of_level(alloc, Mark::TypeOf, level),
    }
}

/// A mark before a level.
fn of_level<'a>(alloc: Global, mark: Mark, level: &'a Level) -> Result<Vec<Piece<'a>>, NoMemory>
    ensures { IfOk result (λ ps. (fs ls xs : List Path) (rest : List _)
        → todo fs ls xs (ps.items ++ rest) ≡ (mark_text mark ++ level_text ls true 0 level.now) ++ todo fs ls xs rest) }
{
    let pieces = vec![in alloc; Piece::Mark(mark), Piece::Level(level, true, 0)]?;
    Ok(pieces)
}

/// The pieces of a parameter with n more.
fn parameter<'a>(alloc: Global, k: u32, part: bool, more: u128) -> Result<Vec<Piece<'a>>, NoMemory>
    ensures { IfOk result (λ ps. (fs ls xs : List Path) (rest : List _)
        → todo fs ls xs (ps.items ++ rest) ≡ sum_text part more true (name_text (slice_get ls k)) ++ todo fs ls xs rest) }
{
    if more == 0 {
        return one(alloc, Piece::Param(k));
    }
    let pieces = vec![in alloc;
        Piece::When(part, Mark::OpenParen),
        Piece::Param(k),
        Piece::Mark(Mark::Plus),
        Piece::Number(more),
        Piece::When(part, Mark::CloseParen),
    ]?;
    Ok(pieces)
}

/// The pieces of a metavariable with n more.
fn unknown<'a>(alloc: Global, part: bool, more: u128) -> Result<Vec<Piece<'a>>, NoMemory>
    ensures { IfOk result (λ ps. (fs ls xs : List Path) (rest : List _)
        → todo fs ls xs (ps.items ++ rest) ≡ sum_text part more true (mark_text Hole) ++ todo fs ls xs rest) }
{
    if more == 0 {
        return one(alloc, Piece::Mark(Mark::Hole));
    }
    let pieces = vec![in alloc;
        Piece::When(part, Mark::OpenParen),
        Piece::Mark(Mark::Hole),
        Piece::Mark(Mark::Plus),
        Piece::Number(more),
        Piece::When(part, Mark::CloseParen),
    ]?;
    Ok(pieces)
}

/// The pieces of the greater of two levels with n more.
fn greater<'a>(
    alloc: Global,
    mark: Mark,
    l: &'a Level,
    m: &'a Level,
    part: bool,
    more: u128,
) -> Result<Vec<Piece<'a>>, NoMemory>
    ensures { IfOk result (λ ps. (fs ls xs : List Path) (rest : List _)
        → todo fs ls xs (ps.items ++ rest) ≡ sum_text part more false
        (mark_text mark ++ (level_text ls true 0 l.now ++ (mark_text Space ++ level_text ls true 0 m.now))) ++ todo fs ls xs rest) }
{
    if more == 0 {
        let pieces = vec![in alloc;
            Piece::When(part, Mark::OpenParen),
            Piece::Mark(mark),
            Piece::Level(l, true, 0),
            Piece::Mark(Mark::Space),
            Piece::Level(m, true, 0),
            Piece::When(part, Mark::CloseParen),
        ]?;
        Ok(pieces)
    } else {
        let pieces = vec![in alloc;
            Piece::When(part, Mark::OpenParen),
            Piece::When(true, Mark::OpenParen),
            Piece::Mark(mark),
            Piece::Level(l, true, 0),
            Piece::Mark(Mark::Space),
            Piece::Level(m, true, 0),
            Piece::When(true, Mark::CloseParen),
            Piece::Mark(Mark::Plus),
            Piece::Number(more),
            Piece::When(part, Mark::CloseParen),
        ]?;
        Ok(pieces)
    }
}

/// The pieces of a level with n more, as a part or not.
pub fn level_pieces<'a>(
    alloc: Global,
    level: &'a Level,
    part: bool,
    more: u128,
) -> Result<Vec<Piece<'a>>, NoMemory>
    ensures { IfOk result (λ ps. (fs ls xs : List Path) (rest : List _)
        → todo fs ls xs (ps.items ++ rest) ≡ level_text ls part more level.now ++ todo fs ls xs rest) }
{
    match level.node() {
        LevelNode::Zero => one(alloc, Piece::Number(more)),
        LevelNode::Succ(l) => {
            if more == u128::MAX {
                return Err(NoMemory);
            }
            one(alloc, Piece::Level(l, part, more + 1))
        }
        LevelNode::Max(l, m) => greater(alloc, Mark::Max, l, m, part, more),
        LevelNode::Imax(l, m) => greater(alloc, Mark::Imax, l, m, part, more),
        LevelNode::Param(k) => parameter(alloc, *k, part, more),
        LevelNode::Meta(_) => unknown(alloc, part, more),
    }
}

/// The pieces of a projection.
fn projection<'a>(alloc: Global, field: u32, term: &'a Expr) -> Result<Vec<Piece<'a>>, NoMemory>
    ensures { IfOk result (λ ps. (fs ls xs : List Path) (rest : List _)
        → todo fs ls xs (ps.items ++ rest) ≡ (printed fs ls 1024 xs term.now ++ (mark_text Dot ++ decimal (field + 1))) ++ todo fs ls xs rest) }
{
    let pieces = vec![in alloc;
        Piece::Term(term, 1024),
        Piece::Mark(Mark::Dot),
        Piece::Number(field as u128 + 1),
    ]?;
    Ok(pieces)
}

#[tactic(auto, using(crate::proofs::Forms::printed_application))]
/// The pieces of a term at a place that asks for this level.
pub fn term_pieces<'a>(
    alloc: Global,
    term: &'a Expr,
    place: u32,
) -> Result<Vec<Piece<'a>>, NoMemory>
    ensures { IfOk result (λ ps. (fs ls xs : List Path) (rest : List _)
        → todo fs ls xs (ps.items ++ rest) ≡ printed fs ls place xs term.now ++ todo fs ls xs rest) }
{
    match term.node() {
        ExprNode::Bound(index) => one(alloc, Piece::Bound(*index)),
        ExprNode::Free(k) => one(alloc, Piece::Free(*k)),
        ExprNode::Meta(_) => one(alloc, Piece::Mark(Mark::Hole)),
        ExprNode::Sort(level) => sort_pieces(alloc, level),
        ExprNode::Const(name, _) => one(alloc, Piece::Words(name.parts())),
        ExprNode::Lit(number) => one(alloc, Piece::Number(*number)),
        ExprNode::App(f, a) => application(alloc, f, a, place),
        ExprNode::Lam(x, a, b) => lambda(alloc, x, a, b, place),
        ExprNode::Pi(x, a, b) => product(alloc, x, a, b, place),
        ExprNode::Let(x, a, v, b) => definition(alloc, x, a, v, b, place),
        ExprNode::Proj(_, field, t) => projection(alloc, *field, t),
    }
}

/// The pieces of a name.
pub fn name_pieces<'a>(alloc: Global, parts: &'a [Word]) -> Result<Vec<Piece<'a>>, NoMemory>
    ensures { IfOk result (λ ps. (fs ls xs : List Path) (rest : List _) → todo fs ls xs (ps.items ++ rest) ≡ path_text parts.now ++ todo fs ls xs rest) }
{
    match parts {
        [] => Ok(Vec::new(alloc)),
        [first, rest @ ..] => {
            let pieces = vec![in alloc; Piece::Word(first), Piece::Rest(rest)]?;
            Ok(pieces)
        }
    }
}

/// The pieces of the parts of a name behind its first.
pub fn rest_pieces<'a>(alloc: Global, parts: &'a [Word]) -> Result<Vec<Piece<'a>>, NoMemory>
    ensures { IfOk result (λ ps. (fs ls xs : List Path) (rest : List _)
        → todo fs ls xs (ps.items ++ rest) ≡ flat_map behind_dot parts.now ++ todo fs ls xs rest) }
{
    match parts {
        [] => Ok(Vec::new(alloc)),
        [first, rest @ ..] => {
            let pieces = vec![in alloc;
                Piece::Mark(Mark::Dot),
                Piece::Word(first),
                Piece::Rest(rest),
            ]?;
            Ok(pieces)
        }
    }
}

/// The pieces of a variable's name, where it has one.
pub fn found_pieces<'a>(alloc: Global, name: Option<&'a Name>) -> Result<Vec<Piece<'a>>, NoMemory>
    ensures { IfOk result (λ ps. (fs ls xs : List Path) (rest : List _)
        → todo fs ls xs (ps.items ++ rest) ≡ name_text (option_copied name.entry) ++ todo fs ls xs rest) }
{
    match name {
        Some(name) => one(alloc, Piece::Words(name.parts())),
        None => one(alloc, Piece::Mark(Mark::Hole)),
    }
}
