ghost use Rattle.std.specs.Prelude.{◌≡◌};
ghost use Rattle.report.specs.Printing.{output_after, printed};
ghost use Rattle.report.specs.Texts.{report_fields, reports_text};

use super::line::{Line, line_of};
use super::print::print;
use super::refusal::PrintRefusal;
use super::row::Row;
use step::Report;

impl Row for Report {
    ghost fields = { report_fields };

    fn line(&self) -> Line {
        let register = self.register.map(u64::from);
        line_of(&[
            Some(self.line as u64),
            Some(u64::from(self.cause.number())),
            register,
            Some(self.least),
            Some(self.most),
        ])
    }
}

/// Prints the names of what is told in a report, and below them a line for each report. Answers how many bytes are
/// printed; an output that is too short is left as it was.
pub fn print_reports(reports: &[Report], output: &mut [u8]) -> Result<usize, PrintRefusal>
    ensures count { result ≡ printed (reports_text reports.now) output.old }
    ensures after { output.new ≡ output_after (reports_text reports.now) output.old }
{
    print(b"line cause register least most\n", reports, output)
}
