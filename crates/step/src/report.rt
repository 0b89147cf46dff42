ghost use Rattle.std.specs.Prelude.{◌≡◌};
ghost use Rattle.step.specs.Rows.{reported};

use super::cause::Cause;
use domain::Facts;

/// What is told of an instruction whose need is not shown: its line, the cause, the register concerned (none where it is
/// a constant), and the range that the facts have for it.
#[derive(Clone, Copy, PartialEq, Eq, Debug)]
pub struct Report {
    pub line: usize,
    pub cause: Cause,
    pub register: Option<u8>,
    pub least: u64,
    pub most: u64,
}

impl Report {
    /// What may stand in a list of reports before a check.
    pub const BLANK: Report = Report {
        line: 0,
        cause: Cause::Unset,
        register: None,
        least: 0,
        most: 0,
    };

    pub(crate) fn new(line: usize, cause: Cause, register: Option<u8>, facts: Facts) -> Report
        ensures { result ≡ reported line cause register facts }
    {
        Report {
            line,
            cause,
            register,
            least: facts.range.least(),
            most: facts.range.most(),
        }
    }
}
