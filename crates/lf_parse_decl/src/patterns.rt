//! What an alternative stands for.
ghost use Rattle.std.specs.Prelude.{◌∷◌, []};
ghost use Rattle.lf_parse_term.specs.Descent.{Told, Shorter, NoLonger, read, seq};
ghost use Rattle.lf_syntax.specs.declared.pattern.Pattern.TheVariants.{Constructor as constructor_tree};
ghost use Rattle.lf_parse_term.specs.View.{views};
ghost use Rattle.lf_syntax.specs.Symbol as symbol;

use crate::leaf::{numeral_one, some_add, some_digit};
use lf_parse_term::{Front, Halt, Piece, binder_names, named, next, stuck};
use lf_syntax::{Ident, Pattern, Shared};
use lf_text::Spelling;
use std::alloc::Global;

/// A pattern.
#[tactic(auto, using(crate::proofs::Symbols::read_pattern))]
pub fn pattern(alloc: Global, toks: &[Piece]) -> Result<(Pattern, &[Piece]), Halt>
    ensures told { Told result (read symbol.pattern (views toks.now)) }
    ensures shorter { Shorter result toks.now }
{
    let (zero, rest) = some_digit(toks, 0)?;
    if let Some(at) = zero {
        return Ok((Pattern::Zero { at }, rest));
    }
    match next(rest) {
        Front::Name(Spelling::Several, name, spot, rest) => {
            constructor(alloc, named(alloc, spot.at, name)?, rest)
        }
        Front::Name(_, name, spot, rest) => {
            pattern_rest(alloc, named(alloc, spot.at, name)?, rest)
        }
        _ => Err(stuck(rest)),
    }
}

/// The names behind the name of a constructor.
#[tactic(auto, using(lf_parse_term::proofs::Lists::behind_nil))]
fn constructor(alloc: Global, name: Ident, toks: &[Piece]) -> Result<(Pattern, &[Piece]), Halt>
    ensures told { Told result (seq (symbol.binder_names ∷ []) (views toks.now) (λ xs. constructor_tree name xs)) }
    ensures shorter { NoLonger result toks.now }
{
    let (fields, rest) = binder_names(alloc, Vec::new(alloc), toks)?;
    let fields = Shared::of(alloc, fields)?;
    Ok((Pattern::Constructor { name, fields }, rest))
}

/// What stands behind a name of one part in a pattern.
#[tactic(auto, using(crate::proofs::Symbols::read_pattern_rest))]
fn pattern_rest(alloc: Global, name: Ident, toks: &[Piece]) -> Result<(Pattern, &[Piece]), Halt>
    ensures told { Told result (read (symbol.pattern_rest name) (views toks.now)) }
    ensures shorter { NoLonger result toks.now }
{
    let (add, rest) = some_add(toks)?;
    match add {
        Some(()) => {
            let (_, rest) = numeral_one(rest)?;
            Ok((Pattern::Successor { name }, rest))
        }
        None => constructor(alloc, name, rest),
    }
}
