//! Tests of passed rules: what fills and runs leave, where each refusal begins, and what a refused call leaves.
#![tactic(auto)]

#[cfg(test)]
mod fills;
mod rules;
#[cfg(test)]
mod runs;
