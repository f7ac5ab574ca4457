//! Answers of the checker that are known from elsewhere, as laws by computation.
#![tactic(auto)]

ghost use Rattle.lf_checker_answers.specs.Ordinary.{OrdinaryAnswers};
ghost use Rattle.lf_checker_answers.specs.Worked.{Answers};

/// Answers that are known from elsewhere.
pub fn worked_answers()
    ensures { Answers }
{}

/// The constants of ordinary numbers are accepted one after another, with their heights, and compute as numbers do.
pub fn ordinary_numbers_are_accepted()
    ensures { OrdinaryAnswers }
{}
