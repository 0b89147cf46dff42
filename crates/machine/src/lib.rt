//! The machine that rules run on, as relations in `specs/`, which tables are rules for it, and where their buffers lie.
#![tactic(auto)]

mod memory;
mod table;
mod valid;

pub use memory::size_of;
pub use table::Rule;
pub use valid::measure;
