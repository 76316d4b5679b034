// "Component", as a graph in work.
#![tactic(auto)]

pub mod component_graph;
