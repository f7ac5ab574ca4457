//! Declarations that are known from elsewhere, and wrong ones, as data for laws and worked answers. No code.
#![tactic(auto)]
