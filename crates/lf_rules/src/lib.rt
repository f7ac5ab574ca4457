//! What is right: environments, reduction steps, definitional equality and typing, telescopes, recursors, admission of
//! inductive types, and derived environments, as definitions without code.
#![tactic(auto)]
