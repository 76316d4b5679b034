// The steps of compiling a job as text in lent bytes, by the functions that compile it.
#![tactic(auto)]

mod beginnings;
mod endings;
mod failures;
mod stages;
pub mod tracing;
