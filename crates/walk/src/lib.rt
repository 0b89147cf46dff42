//! The sweep over a rule's instructions: what is known flows forward, row by row.
#![tactic(auto)]

mod flow;
mod send;
mod tally;
mod visit;

pub use flow::sweep;
pub use tally::Tally;
