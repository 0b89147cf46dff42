ghost use Rattle.std.specs.Prelude.{◌≡◌, ◌*◌, ◌<◌, ◌≤◌, ◌++◌, length, drop, replicate, slice_set, None};
ghost use Rattle.machine.specs.Tables.{code_length};
ghost use Rattle.walk.specs.Walk.{unreached, start, sheet, checked};

use super::tally::Tally;
use super::visit::visit;
use domain::Domain;
use machine::Rule;
use step::{Mark, Report};

/// Before the first instruction every value is any, and control comes to the first alone.
fn open<D: Domain>(rows: &mut [D], marks: &mut [Mark], count: usize)
    requires some { 0 < count }
    requires rows { 8 * count ≤ length rows.old }
    requires marks { count ≤ length marks.old }
    ensures rows { rows.new ≡ replicate (8 * count) D.Domain.every ++ drop (8 * count) rows.old }
    ensures marks { marks.new ≡ slice_set (replicate count unreached ++ drop count marks.old) 0 start }
{
    // no `fill`: nothing says of a domain that its clones are its copies
    for value in rows[..8 * count].iter_mut() {
        *value = D::any();
    }
    marks[..count].fill(Mark::UNREACHED);
    marks[0] = Mark::START;
}

/// What is known flows through a whole rule, from the first instruction to the last. Public only because crates divide
/// the check: the lists have room for the rule.
pub fn sweep<D: Domain>(
    rule: Rule<'_>,
    rows: &mut [D],
    marks: &mut [Mark],
    reports: &mut [Report],
) -> Tally<D>
    requires rows { 8 * code_length rule.table.now ≤ length rows.old }
    requires marks { code_length rule.table.now ≤ length marks.old }
    requires reports { code_length rule.table.now ≤ length reports.old }
    ensures { sheet rows.new marks.new reports.new result.count result.answer ≡ checked D.Domain rule.entry.table.now rows.old marks.old reports.old }
{
    let table = rule.table();
    let code = rule.code();
    open(rows, marks, code.len());
    let mut tally = Tally {
        count: 0,
        answer: None,
    };
    for (at, line) in code.iter().enumerate() {
        tally = visit(table, *line, at, rows, marks, reports, tally);
    }
    tally
}
