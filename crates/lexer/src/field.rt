ghost use Rattle.std.specs.Prelude.{◌≡◌};
ghost use Rattle.std.specs.Str.{bytes_eq};
ghost use Rattle.lexer.specs.Characters.{is_name};
ghost use Rattle.lexer.specs.Fields.{or_kind, named_in, spelled_in, register_in, unmarked, ends_in_colon};
ghost use Rattle.lexer.specs.Lines.{piece_of};
ghost use Rattle.lexer.specs.Numbers.{constant_in, size_in};

use super::class::{is_letter, is_name_byte};
use super::fault::FieldFault;
use super::number::{constant_in, size_in};
use super::place::Place;

/// A field of a line: a part of the text, and where it begins.
#[derive(Clone, Copy, PartialEq, Eq, Debug)]
pub struct Field<'a> {
    pub place: Place,
    pub text: &'a [u8],
}

/// A name found in a text: a part of the text itself, and where it begins. Not each field is one, so the type is its own.
#[derive(Clone, Copy, PartialEq, Eq, Debug)]
pub struct Name<'a> {
    pub place: Place,
    pub text: &'a [u8],
}

/// 1 to 16 lower-case letters, digits or underscores, a letter first.
fn is_name(text: &[u8]) -> bool
    ensures { result ≡ is_name text.now }
{
    if text.is_empty() || text.len() > 16 || !is_letter(text[0]) {
        return false;
    }
    text.iter().all(|b| is_name_byte(*b))
}

impl<'a> Field<'a> {
    /// Is the field just the word?
    pub fn is(self, word: &[u8]) -> bool
        ensures { result ≡ bytes_eq self.entry.text.now word.now }
    {
        self.text == word
    }

    /// The field as a name.
    pub fn name(self) -> Result<Name<'a>, FieldFault>
        ensures { spelled_in result ≡ named_in (piece_of self.entry) }
    {
        if !is_name(self.text) {
            return Err(FieldFault::Kind(self.place));
        }
        Ok(Name {
            place: self.place,
            text: self.text,
        })
    }

    /// The field as a register, `r0` to `r7`, or nothing.
    pub fn register(self) -> Option<u8>
        ensures { result ≡ register_in self.entry.text.now }
    {
        match self.text {
            [b'r', digit @ b'0'..=b'7'] => Some(*digit - b'0'),
            _ => None,
        }
    }

    /// The field as a constant, or nothing.
    pub fn constant(self) -> Option<u64>
        ensures { result ≡ constant_in self.entry.text.now }
    {
        constant_in(self.text)
    }

    /// The field as the size of a buffer.
    pub fn size(self) -> Result<usize, FieldFault>
        ensures { result ≡ or_kind (size_in self.entry.text.now) self.entry.place }
    {
        size_in(self.text).ok_or(FieldFault::Kind(self.place))
    }

    /// Does the field end in a colon?
    pub fn ends_in_colon(self) -> bool
        ensures { result ≡ ends_in_colon self.entry.text.now }
    {
        match self.text {
            [.., last] => *last == b':',
            [] => false,
        }
    }

    /// The field without its last character, if it has one.
    pub fn without_last(self) -> Field<'a>
        ensures { piece_of result ≡ unmarked (piece_of self.entry) }
    {
        let end = self.text.len().saturating_sub(1);
        Field {
            place: self.place,
            text: &self.text[..end],
        }
    }
}
