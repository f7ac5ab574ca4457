//! Laws of nesting: each public function's contract is one of them, and it does nothing.
#![tactic(auto)]

ghost use Rattle.lf_depth_laws.specs.Depth.{ShallowCommands, ShallowTexts};

/// The height of a derived command is at most three times its greatest nesting number, and six.
pub fn commands_are_shallow()
    ensures { ShallowCommands }
{}

/// Each command of a text has a height of at most 774.
pub fn texts_are_shallow()
    ensures { ShallowTexts }
{}
