//! Tests of the check where its rules begin and end: over several products, at the last places of the largest buffers, with
//! lists just long enough, and on tables that no text gives. Each expected report was worked out by hand.
#![tactic(auto)]

#[cfg(test)]
mod expect;
#[cfg(test)]
mod largest;
#[cfg(test)]
mod lists;
#[cfg(test)]
mod products;
#[cfg(test)]
mod tables;
