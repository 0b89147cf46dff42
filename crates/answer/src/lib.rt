//! What is told of a text: the fault that it is refused for, or the reports of its check. The table and the lists of the
//! check have a fixed size, and nothing is allocated.
#![tactic(auto)]

ghost use Rattle.std.specs.Prelude.{◌≡◌, true, length, MatchResult, OnOk};
ghost use Rattle.machine.specs.Valid.{table_ok};
ghost use Rattle.report.specs.Printing.{output_after, printed};
ghost use Rattle.report.specs.Texts.{fault_text};
ghost use Rattle.answer.specs.Answers.{ReadIsRule, SafeRule, SafeText, answer_text, check_text};

use checker::Draft;
use domain::Domain;
use grammar::ProgramFault;
use product::Standard;
use reader::read;
pub use report::LONGEST;
use report::{PrintRefusal, print_fault, print_reports};
use rule::{MOST_INSTRUCTIONS, MOST_RECORDS, Record, Shape};
use step::{Mark, Report};
use walk::Tally;

/// Reads a text into a table of 104 records. What is read is a rule.
fn read_rule(text: &[u8], table: &mut [Record]) -> Result<Shape, ProgramFault>
    requires { length table.old ≡ 104 }
    ensures told { MatchResult result
        (λ _. answer_text text.now ≡ check_text table.new)
        (λ f. answer_text text.now ≡ fault_text f) }
    ensures valid { OnOk result (table_ok table.new ≡ true) }
    ensures safe { MatchResult result (λ _. (SafeRule table.new → SafeText text.now)) (λ _. SafeText text.now) }
    ensures rule { ReadIsRule text.now }
{
    read(text, table)
}

/// Checks a rule over the standard product, and prints the reports.
fn print_check(table: &[Record], output: &mut [u8]) -> Result<usize, PrintRefusal>
    requires { table_ok table.now ≡ true }
    ensures count { result ≡ printed (check_text table.now) output.old }
    ensures after { output.new ≡ output_after (check_text table.now) output.old }
    ensures safe { SafeRule table.now }
{
    let mut rows = [Standard::any(); 8 * MOST_INSTRUCTIONS];
    let mut marks = [Mark::UNREACHED; MOST_INSTRUCTIONS];
    let mut reports = [Report::BLANK; MOST_INSTRUCTIONS];
    match Draft::of(table).check(&mut rows, &mut marks, &mut reports) {
        Ok(Tally { count, .. }) => print_reports(&reports[0..count], output),
        // the table is a rule, and the lists have room for every rule
        Err(_) => unreachable(),
    }
}

/// Reads a text, checks the rule that is read, and prints the reports, or the fault of a text that is refused. Answers how
/// many bytes are printed; an output that is too short is left as it was.
pub fn answer(text: &[u8], output: &mut [u8]) -> Result<usize, PrintRefusal>
    ensures count { result ≡ printed (answer_text text.now) output.old }
    ensures after { output.new ≡ output_after (answer_text text.now) output.old }
    ensures safe { SafeText text.now }
    ensures rule { ReadIsRule text.now }
{
    let mut table = [Record::BLANK; MOST_RECORDS];
    match read_rule(text, &mut table) {
        Ok(_) => print_check(&table, output),
        Err(fault) => print_fault(fault, output),
    }
}
