//! What declarations begin with, and what they state.
ghost use Rattle.std.specs.Prelude.{◌≡◌};
ghost use Rattle.lf_parse_term.specs.Descent.{Told, Shorter};
ghost use Rattle.lf_parse_term.specs.View.{views};
ghost use Rattle.lf_parse_decl.specs.Parts.{decl_head as decl_head_reading, decl as decl_tree, typed_value as typed_value_reading};

use crate::binders::parameters;
use lf_parse_term::{Halt, Piece, any_name, level_names, term, word};
use lf_syntax::{Binders, Decl, Ident, Shared, Term};
use lf_text::Word;
use std::alloc::Global;

/// The name of a declaration, the names of its levels, its binders.
#[derive(Debug, Drop)]
pub struct DeclHead {
    pub name: Ident,
    pub levels: Shared<Ident>,
    pub binders: Shared<Binders>,
}

/// A type and a value.
#[derive(Debug, Drop)]
pub struct TypedValue {
    pub ty: Term,
    pub value: Term,
}

impl DeclHead {
    /// The declaration by a command at this place.
    pub fn decl(self, at: usize, ty: Option<Term>) -> Decl
        ensures { result ≡ decl_tree at self ty }
    {
        let DeclHead {
            name,
            levels,
            binders,
        } = self;
        Decl {
            at,
            name,
            levels,
            binders,
            ty,
        }
    }
}

/// What a declaration begins with, behind its word.
#[tactic(auto, using(lf_parse_term::proofs::Lists::behind_nil), unfolding(crate::specs::Parts::decl_head))]
pub fn decl_head(alloc: Global, toks: &[Piece]) -> Result<(DeclHead, &[Piece]), Halt>
    ensures told { Told result (decl_head_reading (views toks.now)) }
    ensures shorter { Shorter result toks.now }
{
    let (name, rest) = any_name(alloc, toks)?;
    let (levels, rest) = level_names(alloc, rest)?;
    let (binders, rest) = parameters(alloc, Vec::new(alloc), rest)?;
    let levels = Shared::of(alloc, levels)?;
    let binders = Shared::of(alloc, binders)?;
    Ok((
        DeclHead {
            name,
            levels,
            binders,
        },
        rest,
    ))
}

/// `: type := value`.
#[tactic(auto, unfolding(crate::specs::Parts::typed_value))]
pub fn typed_value(alloc: Global, toks: &[Piece]) -> Result<(TypedValue, &[Piece]), Halt>
    ensures told { Told result (typed_value_reading (views toks.now)) }
    ensures shorter { Shorter result toks.now }
{
    let (_, rest) = word(toks, Word::Colon)?;
    let (ty, rest) = term(alloc, rest, 0)?;
    let (_, rest) = word(rest, Word::Assign)?;
    let (value, rest) = term(alloc, rest, 0)?;
    Ok((TypedValue { ty, value }, rest))
}
