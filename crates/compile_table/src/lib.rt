// "Table." The table of a graph that is split to the end.
#![tactic(auto)]

pub mod finish_table;
