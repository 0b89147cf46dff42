//! What a rule is once it is read: a table of records, its buffers first and then its instructions.
#![tactic(auto)]

mod instruction;
mod limits;
mod record;
mod shape;

pub use instruction::{Condition, Instruction, Operand};
pub use limits::{MOST_BUFFERS, MOST_BYTES, MOST_INSTRUCTIONS, MOST_RECORDS};
pub use record::{Item, Mode, Record};
pub use shape::Shape;
