//! Reads the text of a rule into a table of records. The fourth layer: what holds of the text as a whole.

#![tactic(auto)]

mod buffers;
mod code;
mod link;
mod names;
mod scope;
mod source;
mod survey;
mod table;

pub use table::read;
