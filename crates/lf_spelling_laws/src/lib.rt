//! The law that a tree spells its tokens: the contract is the law, and there is no code.
#![tactic(auto)]

ghost use Rattle.lf_spelling_laws.specs.Spells.{SpellsItsTokens};

/// What a derived tree writes, read off the tree alone, is the list of tokens that it was read from.
pub fn trees_spell_their_tokens()
    ensures { SpellsItsTokens }
{}
