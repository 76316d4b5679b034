// The reading rule: one block from its window of words.
#![tactic(auto)]

pub mod blocks;
pub mod entries;
pub mod shorter;
