//! Carries out the instructions of a rule on a memory, and fills the memory.
#![tactic(auto)]

mod bytes;
mod course;
mod filling;
mod next;
mod place;
mod ran;
mod registers;
mod step;

pub use course::run;
pub use filling::fill;
pub use ran::Ran;
