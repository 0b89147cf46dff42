ghost use Rattle.std.specs.Prelude.{◌≡◌};
ghost use Rattle.lexer.specs.Lines.{piece_of, fields_of};
ghost use Rattle.syntax.specs.Spelled.{said, header as spelled_header, BufferFrom};
ghost use Rattle.syntax.specs.Statements.{buffer_of, header_of, are_heading, is_heading};

use super::fault::LineFault;
use super::fields::{is_alone, two_more};
use super::operand::mode;
use super::statement::Header;
use lexer::{Field, Filled, Name};

fn are_heading(first: Field, second: Field, third: Field) -> bool
    ensures { result ≡ are_heading (piece_of first.entry) (piece_of second.entry) (piece_of third.entry) }
{
    first.is(b"name") && second.is(b"size") && third.is(b"mode")
}

/// Is the line `name size mode`?
pub fn is_heading(line: Filled) -> bool
    ensures { result ≡ is_heading (fields_of line.entry) }
{
    match two_more(line) {
        Ok((second, third)) => are_heading(line.first, second, third),
        Err(_) => false,
    }
}

/// `tab 64 ro`
fn buffer<'a>(
    first: Field<'a>,
    second: Field<'a>,
    third: Field<'a>,
) -> Result<Header<Name<'a>>, LineFault>
    ensures value { said spelled_header result ≡ buffer_of (piece_of first.entry) (piece_of second.entry) (piece_of third.entry) }
    ensures name { BufferFrom (piece_of first.entry) result }
{
    let name = first.name()?;
    let size = second.size()?;
    let mode = mode(third)?;
    Ok(Header::Buffer { name, size, mode })
}

/// What a line says before the line `code` and at it.
pub fn parse_header<'a>(line: Filled<'a>) -> Result<Header<Name<'a>>, LineFault>
    ensures value { said spelled_header result ≡ header_of line.entry.first.place (fields_of line.entry) }
    ensures name { BufferFrom (piece_of line.entry.first) result }
{
    if is_alone(line) && line.first.is(b"code") {
        return Ok(Header::Code);
    }
    let (second, third) = two_more(line)?;
    buffer(line.first, second, third)
}
