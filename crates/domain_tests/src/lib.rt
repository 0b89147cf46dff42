//! Tests of the domains: worked values of each operation, and the questions at the ends of the words.

#![tactic(auto)]

#[cfg(test)]
mod tables;
#[cfg(test)]
mod tests;
