//! A table of records on its way to a rule that runs: a draft is checked over a domain, a clean draft is passed, and a
//! passed rule fills its memory and runs.
#![tactic(auto)]

mod call;
mod calls;
mod check;
mod draft;
mod memory;
mod pass;
mod passed;
mod refusal;

pub use call::Call;
pub use draft::Draft;
pub use passed::Passed;
pub use refusal::{CheckRefusal, FillRefusal, PassRefusal, RunRefusal};
