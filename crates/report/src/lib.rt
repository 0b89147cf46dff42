//! Printing into an output that the caller lends: the reports of a check, or the fault of a text. All of it is printed, or
//! nothing.
#![tactic(auto)]

mod fault;
mod line;
mod print;
mod refusal;
mod report;
mod row;

pub use fault::print_fault;
use line::LONGEST_LINE;
pub use refusal::PrintRefusal;
pub use report::print_reports;
use rule::MOST_INSTRUCTIONS;

/// Room for everything that is printed: a heading of 31 bytes, and for each instruction a line of five numbers, each of at most
/// twenty digits with a byte behind them.
pub const LONGEST: usize = 31 + MOST_INSTRUCTIONS * LONGEST_LINE;
