ghost use Rattle.std.specs.Prelude.{◌≡◌, ◌+◌, ◌≤◌, true, length, take, drop, is_ok, IfOk, Ok, Err, MatchResult};
ghost use Rattle.grammar.specs.Causes.{Judged, Unblamed};
ghost use Rattle.grammar.specs.Reading.{reading, table_of, shape_of};

use super::buffers::read_buffers;
use super::code::read_rest;
use super::source::Source;
use grammar::ProgramFault;
use rule::{Record, Shape};

/// Writes the records of a text to the front of the table.
fn fill_table(text: &[u8], table: &mut [Record]) -> Result<Shape, ProgramFault>
    ensures cases { MatchResult result
        (λ s. reading (length table.old) text.now ≡ Ok (record { buffers = take s.buffers table.new; instructions = take s.instructions (drop s.buffers table.new) }))
        (λ f. reading (length table.old) text.now ≡ Err f) }
    ensures rest { IfOk result (λ s. (s.buffers + s.instructions ≤ length table.old) × (drop (s.buffers + s.instructions) table.new ≡ drop (s.buffers + s.instructions) table.old)) }
{
    let mut source = Source::open(text)?;
    let names = read_buffers(&mut source, table)?;
    let buffers = names.len();
    let instructions = read_rest(source, &names, table)?;
    Ok(Shape {
        buffers,
        instructions,
    })
}

/// Reads a text into a table: the records of its buffers and then of its instructions, with blanks after them.
/// A refused text leaves the whole table blank.
pub fn read(text: &[u8], table: &mut [Record]) -> Result<Shape, ProgramFault>
    ensures value { result ≡ shape_of (reading (length table.old) text.now) }
    ensures judged { Judged (length table.old) text.now result }
    ensures only { Unblamed (length table.old) text.now → is_ok result ≡ true }
    ensures after { table.new ≡ table_of (length table.old) (reading (length table.old) text.now) }
{
    table.fill(Record::BLANK);
    match fill_table(text, table) {
        Ok(shape) => Ok(shape),
        Err(fault) => {
            table.fill(Record::BLANK);
            Err(fault)
        }
    }
}
