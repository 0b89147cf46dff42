//! What the text of a rule means: the definitions that a reading is held to, and the causes of its refusals.
//! The fourth layer, as far as it is said and not done.

#![tactic(auto)]

mod fault;
mod refusal;

pub use fault::ProgramFault;
pub use refusal::Refusal;
