//! What a line of a rule says: its heading, a buffer, a label or an instruction. The third layer of reading a rule.

#![tactic(auto)]

mod fault;
mod fields;
mod header;
mod mnemonic;
mod operand;
mod parse;
mod statement;

pub use fault::LineFault;
pub use header::{is_heading, parse_header};
pub use mnemonic::{Mnemonic, mnemonic_in};
pub use parse::parse_statement;
pub use statement::{Header, Statement};
