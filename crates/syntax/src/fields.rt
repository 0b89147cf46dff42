ghost use Rattle.std.specs.Prelude.{◌≡◌, length, Some, None, MatchResult, ◌==◌};
ghost use Rattle.lexer.specs.Lines.{piece_of, pieces_of};
ghost use Rattle.syntax.specs.declared.fault.LineFault.TheVariants.{Form};
ghost use Rattle.syntax.specs.Statements.{one_in, two_in, three_in};

use super::fault::LineFault;
use lexer::{Field, Filled};

/// Has the line no field but its first?
pub(crate) fn is_alone(line: Filled) -> bool
    ensures { result ≡ (length (pieces_of line.entry.rest) == 0) }
{
    let mut rest = line.rest;
    rest.next_field().is_none()
}

// One, two or three fields are three functions. One with a const parameter, `Result<[Field; N], LineFault>`, was tried:
// the borrow checker covers neither it nor its callers, since a signature's array of fields has no kind there.

/// The fields after the first, if they are just one.
pub(crate) fn one_more<'a>(line: Filled<'a>) -> Result<Field<'a>, LineFault>
    ensures { MatchResult result
        (λ a. one_in (pieces_of line.entry.rest) ≡ Some (piece_of a))
        (λ e. (one_in (pieces_of line.entry.rest) ≡ None) × (e ≡ Form line.entry.first.place)) }
{
    let mut rest = line.rest;
    match (rest.next_field(), rest.next_field()) {
        (Some(a), None) => Ok(a),
        _ => Err(LineFault::Form(line.first.place)),
    }
}

/// The fields after the first, if they are just two.
pub(crate) fn two_more<'a>(line: Filled<'a>) -> Result<(Field<'a>, Field<'a>), LineFault>
    ensures { MatchResult result
        (λ p. two_in (pieces_of line.entry.rest) ≡ Some (piece_of p.0, piece_of p.1))
        (λ e. (two_in (pieces_of line.entry.rest) ≡ None) × (e ≡ Form line.entry.first.place)) }
{
    let mut rest = line.rest;
    match (rest.next_field(), rest.next_field(), rest.next_field()) {
        (Some(a), Some(b), None) => Ok((a, b)),
        _ => Err(LineFault::Form(line.first.place)),
    }
}

/// The fields after the first, if they are just three.
pub(crate) fn three_more<'a>(
    line: Filled<'a>,
) -> Result<(Field<'a>, Field<'a>, Field<'a>), LineFault>
    ensures { MatchResult result
        (λ p. three_in (pieces_of line.entry.rest) ≡ Some (piece_of p.0, piece_of p.1, piece_of p.2))
        (λ e. (three_in (pieces_of line.entry.rest) ≡ None) × (e ≡ Form line.entry.first.place)) }
{
    let mut rest = line.rest;
    match (
        rest.next_field(),
        rest.next_field(),
        rest.next_field(),
        rest.next_field(),
    ) {
        (Some(a), Some(b), Some(c), None) => Ok((a, b, c)),
        _ => Err(LineFault::Form(line.first.place)),
    }
}
