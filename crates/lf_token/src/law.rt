ghost use Rattle.std.specs.Prelude.{List, ℕ};
ghost use Rattle.std.specs.Str.{chars};
ghost use Rattle.lf_text.specs.Tokens.{tokens_of};
ghost use Rattle.lf_token.specs.Cover.{Covers};

/// A law: the tokens of a text cover it. They stand in the order of their places, each is as long as
/// its text, and between them stands nothing but white space.
#[tactic(auto, using(crate::proofs::Covers::tokens_cover))]
pub fn tokens_cover_the_text()
    ensures { (bytes : List ℕ) → Covers 0 (chars bytes) (tokens_of bytes) }
{}
