//! The static library for tools in C or Rust: one call, over bytes and numbers.
#![tactic(auto)]

ghost use Rattle.std.specs.Prelude.{◌≡◌};
ghost use Rattle.answer.specs.Answers.{answer_text};
ghost use Rattle.report.specs.Printing.{output_after};
ghost use Rattle.tuharimo.specs.Counts.{count_of};

use answer::answer;

/// Reads a rule text, checks the rule and prints the answer into the output. Answers how many bytes are printed, or 0 where
/// the output is too short, which is then left as it was; no answer is empty.
#[unsafe(no_mangle)]
pub extern "C" fn tuharimo_answer(text: &[u8], output: &mut [u8]) -> usize
    ensures count { result ≡ count_of (answer_text text.now) output.old }
    ensures after { output.new ≡ output_after (answer_text text.now) output.old }
{
    match answer(text, output) {
        Ok(count) => count,
        Err(_) => 0,
    }
}
