//! Tests of the reader where its rules begin and end: the longest texts and numbers, the fullest tables, the last place a label may stand.
//! Each expected place was counted in the text by hand.

#![tactic(auto)]

#[cfg(test)]
mod build;
#[cfg(test)]
mod expect;
#[cfg(test)]
mod labels;
#[cfg(test)]
mod lengths;
#[cfg(test)]
mod names;
#[cfg(test)]
mod numbers;
#[cfg(test)]
mod records;
#[cfg(test)]
mod room;
