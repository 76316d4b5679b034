// "Splitting, while some state has fewer than n edges out."
#![tactic(auto)]

mod part_state;
pub mod split_graph;
