//! What a domain is: values that stand for sets of words, behind one interface with its laws; and
//! the two domains that facts are made of.

#![tactic(auto)]

mod domain;
mod facts;
mod ranges;
mod tristates;

pub use domain::Domain;
pub use facts::Facts;
