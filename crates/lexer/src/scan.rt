ghost use Rattle.std.specs.Prelude.{◌≡◌, ◌≤◌, length, not, Some, None, MatchResult, ◌==◌};
ghost use Rattle.std.specs.List.{prefix_len};
ghost use Rattle.lexer.specs.declared.place.Place.{Place};
ghost use Rattle.lexer.specs.declared.fault.FieldFault.TheVariants.{Character};
ghost use Rattle.lexer.specs.Characters.{field_byte};
ghost use Rattle.lexer.specs.Foreign.{foreign};

use super::class::is_field_byte;
use super::fault::{CharacterFault, FieldFault};
use super::place::Place;

/// Refuses the first byte that is neither printable nor a line feed.
fn check_characters(text: &[u8]) -> Result<(), CharacterFault>
    ensures { MatchResult result (λ _. foreign text.now ≡ None) (λ f. foreign text.now ≡ Some f.place) }
{
    // the line's number, which is told, and no place in a list
    let mut line = 1;
    for (at, b) in text.iter().enumerate() {
        match *b {
            b'\n' => line += 1,
            b' '..=b'~' => {}
            _ => return Err(CharacterFault {
                place: Place { line, at },
            }),
        }
    }
    Ok(())
}

/// A text that fields can be cut from: all of its characters are fit.
pub fn check_text(text: &[u8]) -> Result<(), FieldFault>
    ensures { MatchResult result (λ _. foreign text.now ≡ None) (λ f. (p : Place) × (foreign text.now ≡ Some p) × (f ≡ Character (record { place = p }))) }
{
    check_characters(text)?;
    Ok(())
}

/// How many spaces the bytes begin with.
pub(crate) fn spaces(bytes: &[u8]) -> usize
    ensures value { result ≡ prefix_len (λ b. b == 32) bytes.now }
    ensures within { result ≤ length bytes.now }
{
    bytes.iter().take_while(|b| **b == b' ').count()
}

/// How many bytes of a field the bytes begin with.
pub(crate) fn field_len(bytes: &[u8]) -> usize
    ensures value { result ≡ prefix_len field_byte bytes.now }
    ensures within { result ≤ length bytes.now }
{
    bytes.iter().take_while(|b| is_field_byte(**b)).count()
}

/// How many bytes there are before the first line feed, or in all.
pub(crate) fn line_len(bytes: &[u8]) -> usize
    ensures value { result ≡ prefix_len (λ b. not (b == 10)) bytes.now }
    ensures within { result ≤ length bytes.now }
{
    bytes.iter().take_while(|b| **b != b'\n').count()
}
