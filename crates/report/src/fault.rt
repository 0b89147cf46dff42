ghost use Rattle.std.specs.Prelude.{◌≡◌};
ghost use Rattle.report.specs.Printing.{output_after, printed};
ghost use Rattle.report.specs.Texts.{fault_fields, fault_text};

use super::line::{Line, line_of};
use super::print::print;
use super::refusal::PrintRefusal;
use super::row::Row;
use grammar::ProgramFault;

impl Row for ProgramFault {
    ghost fields = { fault_fields };

    fn line(&self) -> Line {
        let refusal = self.refusal();
        line_of(&[
            Some(u64::from(refusal.number)),
            Some(refusal.line as u64),
            Some(refusal.place as u64),
            Some(u64::from(refusal.layer)),
        ])
    }
}

/// Prints the names of what a fault tells, and below them what this one tells. Answers how many bytes are printed; an
/// output that is too short is left as it was.
pub fn print_fault(fault: ProgramFault, output: &mut [u8]) -> Result<usize, PrintRefusal>
    ensures count { result ≡ printed (fault_text fault) output.old }
    ensures after { output.new ≡ output_after (fault_text fault) output.old }
{
    print(b"number line place layer\n", &[fault], output)
}
