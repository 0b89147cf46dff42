ghost use Rattle.std.specs.Prelude.{◌≡◌, ◌≤◌, min, false, [], IfOk, Ok, Err, MatchResult};
ghost use Rattle.lexer.specs.Lines.{lines_of};
ghost use Rattle.arrayvec.specs.ArrayVec.{array_vec_len};
ghost use Rattle.reader.specs.Entries.{entries_in};
ghost use Rattle.grammar.specs.Reading.{survey_from};

use super::names::Names;
use grammar::ProgramFault;
use lexer::Lexer;
use rule::MOST_INSTRUCTIONS;
use syntax::{Statement, parse_statement};

/// How many labels a text has at most: a label has two bytes at least, and the text 8192 at most.
pub(crate) const MOST_LABELS: usize = 4096;

/// How many instructions the code of a text has, and whether its last line is `ret`.
/// A text that is not closed still has its names judged first, so this is no refusal here, and the count is needed.
#[derive(Clone, Copy)]
pub(crate) struct Survey {
    pub(crate) instructions: usize,
    pub(crate) closed: bool,
}

/// Declares the labels of the lines that are left, and counts the instructions, for which there is so much room.
pub(crate) fn survey_code(
    mut lexer: Lexer,
    labels: &mut Names<MOST_LABELS>,
    room: usize,
) -> Result<Survey, ProgramFault>
    requires same { lexer.text.now ≡ labels.old.text.now }
    requires none { array_vec_len labels.old.marks ≡ 0 }
    ensures cases { MatchResult result
        (λ s. survey_from (min 96 room) [] 0 false (lines_of lexer.entry) ≡ Ok (record { labels = entries_in labels.new; count = s.instructions; closed = s.closed }))
        (λ f. survey_from (min 96 room) [] 0 false (lines_of lexer.entry) ≡ Err f) }
    ensures within { IfOk result (λ s. s.instructions ≤ room) }
{
    let most = room.min(MOST_INSTRUCTIONS);
    // Labels come between, so the lines' own count is not that of the instructions.
    let mut instructions = 0;
    let mut closed = false;
    while let Some(line) = lexer.next_filled() {
        match parse_statement(line)? {
            Statement::Label(name) => {
                if labels.get(name.text).is_some() {
                    return Err(ProgramFault::Repeated(name.place));
                }
                labels.declare(name, instructions);
                closed = false;
            }
            Statement::Instruction(instruction) => {
                if instructions >= most {
                    return Err(ProgramFault::Full(line.first.place));
                }
                instructions += 1;
                closed = instruction.is_ret();
            }
        }
    }
    Ok(Survey {
        instructions,
        closed,
    })
}
