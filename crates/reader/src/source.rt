ghost use Rattle.std.specs.Prelude.{◌≡◌, ℕ, ◌≤◌, length, IfOk, Err, MatchResult};
ghost use Rattle.lexer.specs.Foreign.{foreign};
ghost use Rattle.lexer.specs.Lines.{lines_of, filled_lines};
ghost use Rattle.grammar.specs.declared.fault.ProgramFault.TheVariants.{Line as InLine};
ghost use Rattle.grammar.specs.Reading.{body_of, program_of, clean, reading};

use grammar::ProgramFault;
use lexer::{Lexer, Place, check_text};
use rule::MOST_BYTES;
use syntax::{LineFault, is_heading};

/// A text that is short enough to be read, and what is left of it.
#[derive(Clone, Copy)]
pub(crate) struct Source<'a> {
    pub(crate) lexer: Lexer<'a>,
    ghost short: { length lexer.text.now ≤ 8192 },
}

/// A text past its heading, all of whose characters are fit.
fn past_heading<'a>(text: &'a [u8]) -> Result<Lexer<'a>, LineFault>
    ensures cases { MatchResult result
        (λ x. ((room : ℕ) → clean (foreign text.now) (program_of room (length text.now) (filled_lines text.now)) ≡ body_of room (length text.now) (lines_of x)))
        (λ f. ((room : ℕ) → clean (foreign text.now) (program_of room (length text.now) (filled_lines text.now)) ≡ Err (InLine f))) }
    ensures text { IfOk result (λ x. x.text.now ≡ text.now) }
{
    check_text(text)?;
    let mut lexer = Lexer::new(text);
    match lexer.next_filled() {
        Some(line) if is_heading(line) => Ok(lexer),
        Some(line) => Err(LineFault::Heading(line.first.place)),
        None => Err(LineFault::Heading(Place {
            line: 0,
            at: text.len(),
        })),
    }
}

impl<'a> Source<'a> {
    /// A text past its heading, if it is not too long.
    pub(crate) fn open(text: &'a [u8]) -> Result<Source<'a>, ProgramFault>
        ensures { MatchResult result
            (λ s. ((room : ℕ) → reading room text.now ≡ body_of room (length s.lexer.text.now) (lines_of s.lexer)))
            (λ f. ((room : ℕ) → reading room text.now ≡ Err f)) }
    {
        if text.len() > MOST_BYTES {
            return Err(ProgramFault::TooLong);
        }
        let lexer = past_heading(text)?;
        Ok(Source { lexer })
    }
}
