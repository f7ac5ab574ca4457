//! Lemmas of the grammar, without code: a predictive machine gives exactly what the grammar derives.
#![tactic(auto)]
