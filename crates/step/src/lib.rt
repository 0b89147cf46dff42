//! What one instruction makes of what is known before it: whether its need is shown, and what is known after it.
#![tactic(auto)]

mod before;
mod cause;
mod judge;
mod mark;
mod outcome;
mod report;
mod transfer;

pub use cause::Cause;
pub use mark::Mark;
pub use outcome::{Change, Jump, Outcome, Patch};
pub use report::Report;
pub use transfer::carry;
