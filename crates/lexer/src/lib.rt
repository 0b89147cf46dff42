//! A text as characters, lines and fields: the two lowest layers of reading a rule.
//! Nothing is copied: a line and a field are parts of the borrowed text, each with its place.

#![tactic(auto)]

mod class;
mod fault;
mod field;
mod lexer;
mod line;
mod number;
mod place;
mod scan;

pub use class::Class;
pub use fault::{CharacterFault, FieldFault};
pub use field::{Field, Name};
pub use lexer::Lexer;
pub use line::{Filled, Line};
pub use place::Place;
pub use scan::check_text;
