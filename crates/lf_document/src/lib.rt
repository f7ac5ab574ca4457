//! What a document means, as definitions without code: the value of each part of the work on a text, the text elaborated
//! one command after another, the environment that it makes, and its report.
#![tactic(auto)]
