ghost use Rattle.std.specs.Prelude.{◌≡◌, ◌+◌, ◌*◌, ◌/◌, ◌<◌, ◌≤◌, length};
ghost use Rattle.walk.specs.Walk.{sheet, Ways, noted_reports, noted_count, joined_in, applied, outcome_at, visited};

use super::send::{leap, send};
use super::tally::Tally;
use domain::Domain;
use rule::Record;
use step::{Mark, Outcome, Report, carry};

/// A report, if there is one, goes behind those that are there. The list is lent, so their count stands beside it.
fn note(reports: &mut [Report], count: usize, report: Option<Report>) -> usize
    requires { count < length reports.old }
    ensures reports { reports.new ≡ noted_reports report reports.old count }
    ensures count { result ≡ noted_count report count }
{
    match report {
        Some(report) => {
            reports[count] = report;
            count + 1
        }
        None => count,
    }
}

fn join_answers<D: Domain>(old: Option<D>, new: Option<D>) -> Option<D>
    ensures { result ≡ joined_in D.Domain old new }
{
    match (old, new) {
        (None, new) => new,
        (Some(old), None) => Some(old),
        (Some(old), Some(new)) => Some(old.join(new)),
    }
}

// Rows, marks and reports are passed one by one. A struct of the three would hold three `&mut`, and each method would owe a
// clause for each of them, that it is still the reference that was lent.

/// What an instruction makes of its row goes on.
fn follow<D: Domain>(
    at: usize,
    out: Outcome<D>,
    rows: &mut [D],
    marks: &mut [Mark],
    reports: &mut [Report],
    tally: Tally<D>,
) -> Tally<D>
    requires ways { Ways (length marks.old) at out }
    requires rows { Ways (length rows.old / 8) at out }
    requires few { at < length marks.old }
    requires room { tally.count < length reports.old }
    ensures count { result.count ≤ tally.count + 1 }
    ensures sheet { sheet rows.new marks.new reports.new result.count result.answer ≡ applied D.Domain at out (sheet rows.old marks.old reports.old tally.count tally.answer) }
{
    send(rows, marks, at, at + 1, out.next);
    leap(rows, marks, at, out.jump);
    let count = note(reports, tally.count, out.report);
    let answer = join_answers(tally.answer, out.answer);
    Tally { count, answer }
}

/// The instruction at a place, where control can come there.
pub fn visit<D: Domain>(
    table: &[Record],
    code: Record,
    at: usize,
    rows: &mut [D],
    marks: &mut [Mark],
    reports: &mut [Report],
    tally: Tally<D>,
) -> Tally<D>
    requires ways { Ways (length marks.old) at (outcome_at D.Domain table.now code at rows.old marks.old) }
    requires rows { Ways (length rows.old / 8) at (outcome_at D.Domain table.now code at rows.old marks.old) }
    requires few { (at < length marks.old) × (8 * at + 8 ≤ length rows.old) }
    requires room { tally.count < length reports.old }
    ensures sheet { sheet rows.new marks.new reports.new result.count result.answer ≡ visited D.Domain table.now code at (sheet rows.old marks.old reports.old tally.count tally.answer) }
    ensures count { result.count ≤ tally.count + 1 }
{
    let mark = marks[at];
    if !mark.reached {
        return tally;
    }
    // eight values to an instruction, in one list: a lent list of arrays of values would ask of their type how large it is
    let out = carry(table, code.line, code.item, &rows[8 * at..8 * at + 8], mark);
    follow(at, out, rows, marks, reports, tally)
}
