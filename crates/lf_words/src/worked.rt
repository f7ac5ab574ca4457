//! Worked command lines.
ghost use Rattle.lf_words.specs.Worked.{Answers};

/// What some forty command lines ask for, by computation.
pub fn worked_lines()
    ensures { Answers }
{}
