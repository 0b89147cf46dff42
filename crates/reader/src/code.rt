ghost use Rattle.std.specs.Prelude.{◌≡◌, ◌+◌, ◌-◌, ◌≤◌, length, take, drop, IfOk, Ok, Err, MatchResult};
ghost use Rattle.lexer.specs.Lines.{lines_of};
ghost use Rattle.arrayvec.specs.ArrayVec.{array_vec_len};
ghost use Rattle.reader.specs.Entries.{entries_in};
ghost use Rattle.grammar.specs.Reading.{code_of};

use super::link::link_code;
use super::names::Names;
use super::scope::Scope;
use super::source::Source;
use super::survey::survey_code;
use grammar::ProgramFault;
use rule::{MOST_BUFFERS, Record};

/// Writes the instructions after the line `code` to the front of the slots.
fn read_code(
    source: Source,
    names: &Names<MOST_BUFFERS>,
    heads: &[Record],
    slots: &mut [Record],
) -> Result<usize, ProgramFault>
    ensures cases { MatchResult result
        (λ n. code_of (length slots.old) (length source.entry.lexer.text.now) (entries_in names.now) heads.now (lines_of source.entry.lexer) ≡ Ok (take n slots.new))
        (λ f. code_of (length slots.old) (length source.entry.lexer.text.now) (entries_in names.now) heads.now (lines_of source.entry.lexer) ≡ Err f) }
    ensures rest { IfOk result (λ n. (n ≤ length slots.old) × (drop n slots.new ≡ drop n slots.old)) }
{
    let mut labels = Names::new(source);
    let survey = survey_code(source.lexer, &mut labels, slots.len())?;
    let scope = Scope {
        names,
        heads,
        labels: &labels,
        count: survey.instructions,
    };
    let count = link_code(scope, source.lexer, slots)?;
    if !survey.closed {
        return Err(ProgramFault::Unclosed(source.lexer.text().len()));
    }
    Ok(count)
}

/// Writes the instructions after the line `code` to the table, after its buffers, of which each has its name.
pub(crate) fn read_rest(
    source: Source,
    names: &Names<MOST_BUFFERS>,
    table: &mut [Record],
) -> Result<usize, ProgramFault>
    requires few { array_vec_len names.now.marks ≤ length table.old }
    ensures cases { let buffers = array_vec_len names.now.marks in MatchResult result
        (λ n. code_of (length table.old - buffers) (length source.entry.lexer.text.now) (entries_in names.now) (take buffers table.old) (lines_of source.entry.lexer) ≡ Ok (take n (drop buffers table.new)))
        (λ f. code_of (length table.old - buffers) (length source.entry.lexer.text.now) (entries_in names.now) (take buffers table.old) (lines_of source.entry.lexer) ≡ Err f) }
    ensures front { let buffers = array_vec_len names.now.marks in take buffers table.new ≡ take buffers table.old }
    ensures rest { let buffers = array_vec_len names.now.marks in IfOk result (λ n. (buffers + n ≤ length table.old) × (drop (buffers + n) table.new ≡ drop (buffers + n) table.old)) }
{
    let (front, slots) = table.split_at_mut(names.len());
    read_code(source, names, front, slots)
}
