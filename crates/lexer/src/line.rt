ghost use Rattle.std.specs.Prelude.{◌≡◌, ◌+◌, ◌<◌, ◌≤◌, [], ◌∷◌, length, take, drop, IfSome, MatchOption};
ghost use Rattle.lexer.specs.Lines.{piece_of, pieces_of};

use super::field::Field;
use super::place::Place;
use super::scan::{field_len, spaces};

/// What is left of a line: its number from 1, the place to go on from, and the text as far as the line's end.
#[derive(Clone, Copy, PartialEq, Eq, Debug)]
pub struct Line<'a> {
    pub number: usize,
    pub at: usize,
    pub text: &'a [u8],
}

/// A line that has fields: the first, and what is left of the line.
#[derive(Clone, Copy, PartialEq, Eq, Debug)]
pub struct Filled<'a> {
    pub first: Field<'a>,
    pub rest: Line<'a>,
}

impl<'a> Line<'a> {
    /// The next field, after which the line goes on. It is a part of the text, at its place.
    pub fn next_field(&mut self) -> Option<Field<'a>>
        ensures cases { MatchOption result (pieces_of self.old ≡ []) (λ f. pieces_of self.old ≡ piece_of f ∷ pieces_of self.new) }
        ensures part { IfSome result (λ f. f.text.now ≡ take (length f.text.now) (drop f.place.at self.old.text.now)) }
        ensures within { IfSome result (λ f. (self.old.at ≤ f.place.at) × (f.place.at + length f.text.now ≤ length self.old.text.now) × (0 < length f.text.now)) }
    {
        let text = self.text;
        let rest = text.get(self.at..)?;
        let from = self.at + spaces(rest);
        let to = from + field_len(&text[from..]);
        self.at = to;
        if from == to {
            return None;
        }
        Some(Field {
            place: Place {
                line: self.number,
                at: from,
            },
            text: &text[from..to],
        })
    }
}
