ghost use Rattle.std.specs.Prelude.{◌≡◌, ◌≤◌, min, [], length, take, drop, IfOk, Some, Ok, Err, MatchResult};
ghost use Rattle.lexer.specs.Lines.{lines_of};
ghost use Rattle.arrayvec.specs.ArrayVec.{array_vec_len};
ghost use Rattle.reader.specs.Entries.{entries_in};
ghost use Rattle.grammar.specs.Reading.{buffers_from, body_of};

use super::names::Names;
use super::source::Source;
use grammar::ProgramFault;
use rule::{Item, MOST_BUFFERS, Record};
use syntax::{Header, parse_header};

/// Writes the buffers to the front of the table as far as the line `code`, which has to come, and answers their names.
pub(crate) fn read_buffers<'a>(
    source: &mut Source<'a>,
    table: &mut [Record],
) -> Result<Names<'a, MOST_BUFFERS>, ProgramFault>
    ensures cases { MatchResult result
        (λ ns. buffers_from (min 8 (length table.old)) [] [] (lines_of source.old.lexer) ≡ Ok (record { names = entries_in ns; records = take (array_vec_len ns.marks) table.new; code = Some (lines_of source.new.lexer) }))
        (λ f. body_of (length table.old) (length source.old.lexer.text.now) (lines_of source.old.lexer) ≡ Err f) }
    ensures few { IfOk result (λ ns. array_vec_len ns.marks ≤ length table.old) }
    ensures rest { IfOk result (λ ns. drop (array_vec_len ns.marks) table.new ≡ drop (array_vec_len ns.marks) table.old) }
    ensures text { source.new.lexer.text.now ≡ source.old.lexer.text.now }
{
    let mut names = Names::new(*source);
    while let Some(line) = source.lexer.next_filled() {
        match parse_header(line)? {
            Header::Code => return Ok(names),
            Header::Buffer { name, size, mode } => {
                if names.get(name.text).is_some() {
                    return Err(ProgramFault::Repeated(name.place));
                }
                let count = names.len();
                if count >= MOST_BUFFERS || count >= table.len() {
                    return Err(ProgramFault::Full(line.first.place));
                }
                names.declare(name, count);
                table[count] = Record {
                    line: line.first.place.line,
                    item: Item::Buffer { size, mode },
                };
            }
        }
    }
    Err(ProgramFault::Unclosed(source.lexer.text().len()))
}
