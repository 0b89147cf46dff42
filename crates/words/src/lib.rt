//! What a machine does with words of 64 bits: its operations, its comparisons and its widths.
#![tactic(auto)]

mod operation;
mod relation;
mod width;

pub use operation::Operation;
pub use relation::Relation;
pub use width::Width;
