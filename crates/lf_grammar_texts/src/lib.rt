//! Worked texts for each row of the grammar's table: the contract is a law, and there is no code.
#![tactic(auto)]

ghost use Rattle.lf_grammar_texts.specs.EachRow.{EachRow};

/// The worked texts have the answers that are written beside them.
pub fn each_row()
    ensures { EachRow }
{}
