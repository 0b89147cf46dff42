ghost use Rattle.std.specs.Prelude.{◌≡◌, ◌≤◌, [], length, take, drop, IfOk, Ok, Err, MatchResult};
ghost use Rattle.lexer.specs.Lines.{lines_of};
ghost use Rattle.reader.specs.Passes.{instructions_in};
ghost use Rattle.grammar.specs.Reading.{link_from};
ghost use Rattle.reader.specs.Scopes.{scope_in};

use super::scope::Scope;
use grammar::ProgramFault;
use lexer::Lexer;
use rule::{Item, Record};
use syntax::{Statement, parse_statement};

/// Writes the instructions of the lines that are left to the front of the slots, with their names resolved.
pub(crate) fn link_code(
    scope: Scope,
    mut lexer: Lexer,
    slots: &mut [Record],
) -> Result<usize, ProgramFault>
    requires { instructions_in (lines_of lexer) ≤ length slots.old }
    ensures cases { MatchResult result
        (λ n. link_from (scope_in scope.entry) [] (lines_of lexer.entry) ≡ Ok (take n slots.new))
        (λ f. link_from (scope_in scope.entry) [] (lines_of lexer.entry) ≡ Err f) }
    ensures rest { IfOk result (λ n. (n ≤ length slots.old) × (drop n slots.new ≡ drop n slots.old)) }
{
    // A slot is taken only where a line holds an instruction, so the count is of slots and not of lines.
    let mut count = 0;
    while let Some(line) = lexer.next_filled() {
        if let Statement::Instruction(instruction) = parse_statement(line)? {
            slots[count] = Record {
                line: line.first.place.line,
                item: Item::Instruction(scope.resolve(count, instruction)?),
            };
            count += 1;
        }
    }
    Ok(count)
}
