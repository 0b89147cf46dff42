ghost use Rattle.std.specs.Prelude.{◌≡◌, ◌+◌, ◌≤◌};

mod walk;

/// What is left of a text: the number of its next line, the place where that begins, and the text.
/// Each line but the last has a byte at least, its line feed, so the number stays behind the place.
#[derive(Clone, Copy, PartialEq, Eq, Debug)]
pub struct Lexer<'a> {
    number: usize,
    at: usize,
    text: &'a [u8],
    ghost counted: { number ≤ at + 1 },
}

impl<'a> Lexer<'a> {
    /// The whole text, read and unread.
    pub fn text(&self) -> &'a [u8]
        ensures { result.now ≡ self.now.text.now }
    {
        self.text
    }
}
