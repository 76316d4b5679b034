// The state to split, its edges in question, and the run of them that it keeps.
#![tactic(auto)]

pub mod choose;
pub mod find_run;
