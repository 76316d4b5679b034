// The listing of a code as text in lent bytes, and a text as the result of a call.
#![tactic(auto)]

pub mod filling;
pub mod listing;
