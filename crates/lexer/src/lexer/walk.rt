ghost use Rattle.std.specs.Prelude.{◌≡◌, ◌+◌, ◌<◌, ◌≤◌, [], ◌∷◌, length, take, drop, IfSome, MatchOption};
ghost use Rattle.lexer.specs.Lines.{fields_of, row_of, rows_of, lines_of};

use super::super::line::{Filled, Line};
use super::super::scan::line_len;
use super::Lexer;

impl<'a> Lexer<'a> {
    /// The whole of a text.
    pub fn new(text: &'a [u8]) -> Lexer<'a>
        ensures { (result.number ≡ 1) × (result.at ≡ 0) × (result.text.now ≡ text.now) }
    {
        Lexer {
            number: 1,
            at: 0,
            text,
        }
    }

    /// The next line, after which the text goes on.
    fn next_line(&mut self) -> Option<Line<'a>>
        ensures cases { MatchOption result ((rows_of self.old ≡ []) × (rows_of self.new ≡ [])) (λ l. rows_of self.old ≡ row_of l ∷ rows_of self.new) }
        ensures same { self.new.text.now ≡ self.old.text.now }
        ensures forward { self.old.at ≤ self.new.at }
        ensures part { IfSome result (λ l. l.text.now ≡ take (length l.text.now) self.old.text.now) }
        ensures within { IfSome result (λ l. (l.at ≡ self.old.at) × (length l.text.now ≤ self.new.at) × (self.new.at ≤ length self.old.text.now)) }
    {
        let text = self.text;
        let from = self.at;
        if from >= text.len() {
            return None;
        }
        let end = from + line_len(&text[from..]);
        let line = Line {
            number: self.number,
            at: from,
            text: &text[..end],
        };
        // the line's number, which is told, and no place in a list
        self.number += 1;
        self.at = if end < text.len() { end + 1 } else { end };
        Some(line)
    }

    /// The next line that has fields.
    // No `Iterator`: a `for` would know what a line says and not where it lies in the text, which its callers need.
    pub fn next_filled(&mut self) -> Option<Filled<'a>>
        ensures cases { MatchOption result ((lines_of self.old ≡ []) × (lines_of self.new ≡ [])) (λ l. lines_of self.old ≡ fields_of l ∷ lines_of self.new) }
        ensures same { self.new.text.now ≡ self.old.text.now }
        ensures part { IfSome result (λ l. l.first.text.now ≡ take (length l.first.text.now) (drop l.first.place.at self.old.text.now)) }
        ensures within { IfSome result (λ l. (self.old.at ≤ l.first.place.at) × (0 < length l.first.text.now) × (l.first.place.at + length l.first.text.now ≤ self.new.at) × (self.new.at ≤ length self.old.text.now)) }
    {
        while let Some(mut rest) = self.next_line() {
            if let Some(first) = rest.next_field() {
                return Some(Filled { first, rest });
            }
        }
        None
    }
}
