// Which states of weight above 0 reach which, and the states of the component.
#![tactic(auto)]

pub mod reaching;
