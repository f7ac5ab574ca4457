//! What a definition says of its name.
ghost use Rattle.std.specs.Prelude.{◌≡◌};
ghost use Rattle.lf_parse_term.specs.Descent.{ToldAs, Shorter, NoLonger, read};
ghost use Rattle.lf_parse_term.specs.View.{views};
ghost use Rattle.lf_parse_decl.specs.Parts.{alternatives_body, body_tree, rest_tree};
ghost use Rattle.lf_syntax.specs.Rows.{defined as defined_tree};
ghost use Rattle.lf_syntax.specs.Symbol as symbol;

use crate::equations::alternatives;
use crate::helper::helpers;
use lf_parse_term::{Front, Halt, Piece, next, some_word, stuck, term};
use lf_syntax::{Alternative, Command, Decl, Helper, Shared, Term};
use lf_text::Word;
use std::alloc::Global;

/// A value with helpers, or alternatives.
#[derive(Debug, Drop)]
pub enum Body {
    Value {
        value: Term,
        helpers: Shared<Helper>,
    },
    Alternatives(Shared<Alternative>),
}

/// What stands behind the binders of a definition.
#[derive(Debug, Drop)]
pub struct Rest {
    pub ty: Option<Term>,
    pub body: Body,
}

/// The definition of what this declares.
pub fn defined(decl: Decl, body: Body) -> Command
    ensures { result ≡ defined_tree decl (body_tree body) }
{
    match body {
        Body::Value { value, helpers } => Command::Def {
            decl,
            value,
            helpers,
        },
        Body::Alternatives(alternatives) => Command::Equations { decl, alternatives },
    }
}

/// The value or the alternatives behind the type.
#[tactic(auto, using(crate::proofs::Symbols::read_def_body))]
fn def_body(alloc: Global, toks: &[Piece]) -> Result<(Body, &[Piece]), Halt>
    ensures told { ToldAs result body_tree (read symbol.def_body (views toks.now)) }
    ensures shorter { NoLonger result toks.now }
{
    let (assign, rest) = some_word(toks, Word::Assign)?;
    match assign {
        Some(_) => {
            let (value, rest) = term(alloc, rest, 0)?;
            let (helpers, rest) = helpers(alloc, rest)?;
            let helpers = Shared::of(alloc, helpers)?;
            Ok((Body::Value { value, helpers }, rest))
        }
        None => by_alternatives(alloc, rest),
    }
}

/// One alternative or more.
#[tactic(auto, using(crate::proofs::Symbols::body_err, crate::proofs::Symbols::body_empty, crate::proofs::Symbols::body_some))]
fn by_alternatives(alloc: Global, toks: &[Piece]) -> Result<(Body, &[Piece]), Halt>
    ensures told { ToldAs result body_tree (alternatives_body (views toks.now)) }
    ensures shorter { NoLonger result toks.now }
{
    let (all, rest) = alternatives(alloc, toks)?;
    if all.is_empty() {
        return Err(stuck(rest));
    }
    Ok((Body::Alternatives(Shared::of(alloc, all)?), rest))
}

/// What stands behind the binders of a definition.
#[tactic(auto, using(crate::proofs::Symbols::read_def_rest))]
pub fn def_rest(alloc: Global, toks: &[Piece]) -> Result<(Rest, &[Piece]), Halt>
    ensures told { ToldAs result rest_tree (read symbol.def_rest (views toks.now)) }
    ensures shorter { Shorter result toks.now }
{
    match next(toks) {
        Front::Word(Word::Colon, _, rest) => {
            let (ty, rest) = term(alloc, rest, 0)?;
            let (body, rest) = def_body(alloc, rest)?;
            let ty = Some(ty);
            Ok((Rest { ty, body }, rest))
        }
        Front::Word(Word::Assign, _, rest) => {
            let (value, rest) = term(alloc, rest, 0)?;
            let helpers = Shared::of(alloc, Vec::new(alloc))?;
            let body = Body::Value { value, helpers };
            Ok((Rest { ty: None, body }, rest))
        }
        _ => Err(stuck(toks)),
    }
}
