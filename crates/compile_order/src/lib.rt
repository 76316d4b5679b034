// The edges of a state "in order of word, then target".
#![tactic(auto)]

pub mod keys;
mod list;
