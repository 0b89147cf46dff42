//! What a check must come to. The lists hold other values before, and a refused check keeps them.
use checker::Draft;
use domain::Domain;
use parity::Parity;
use product::{Product, Standard};
use range::Range;
use reader::read;
use rule::{MOST_INSTRUCTIONS, MOST_RECORDS, Record};
use std::process::Abort;
use std::test::Fail;
use step::{Cause, Mark, Report};
use tristate::Tristate;
use walk::Tally;

/// The standard product the other way round.
type Mirrored = Product<Range, Tristate>;

/// The standard product beside a domain from outside.
type WithParity = Product<Parity, Standard>;

/// The one word of each value before.
pub(crate) const OLD_WORD: u64 = 77;

/// A mark that no check leaves.
pub(crate) const OLD_MARK: Mark = Mark {
    reached: false,
    set: [true; 8],
};

/// A report that no rule gets.
pub(crate) const OLD_REPORT: Report = Report {
    line: 9999,
    cause: Cause::Unset,
    register: None,
    least: 1,
    most: 0,
};

/// What is asked of a report: its line, and the number of its cause, which is what is told of it.
#[derive(Clone, Copy)]
pub(crate) struct Told {
    pub(crate) line: usize,
    pub(crate) cause: u8,
}

/// The reports are these; where they are not, the rule is named.
fn check_told(rt: &impl Abort, rule: &str, reports: &[Report], expected: &[Told]) {
    assert_eq!(rt; reports.len(), expected.len(), "reports of {rule}");
    for (report, told) in reports.iter().zip(expected.iter()) {
        assert_eq!(rt; report.line, told.line, "line in {rule}");
        assert_eq!(rt; report.cause.number(), told.cause, "cause in {rule}");
    }
}

/// The check of a table comes to these reports. Its answer.
pub(crate) fn answer<D: Domain>(
    rt: &impl Abort,
    rule: &str,
    table: &[Record],
    expected: &[Told],
    rows: &mut [D],
    marks: &mut [Mark],
    reports: &mut [Report],
) -> Result<Option<D>, Fail> {
    match Draft::of(table).check(rows, marks, reports) {
        Ok(Tally { count, answer }) => {
            assert!(rt; count <= reports.len());
            check_told(rt, rule, &reports[..count], expected);
            Ok(answer)
        }
        Err(_) => Err(Fail::new("the check was refused")),
    }
}

/// The same of a text.
pub(crate) fn answer_text<D: Domain>(
    rt: &impl Abort,
    text: &str,
    expected: &[Told],
    rows: &mut [D],
) -> Result<Option<D>, Fail> {
    let mut table = [Record::BLANK; MOST_RECORDS];
    if read(text.as_bytes(), &mut table).is_err() {
        return Err(Fail::new("the text was refused"));
    }
    answer(
        rt,
        text,
        &table,
        expected,
        rows,
        &mut [OLD_MARK; MOST_INSTRUCTIONS],
        &mut [OLD_REPORT; MOST_INSTRUCTIONS],
    )
}

/// The check of a text comes to the same reports over each of three products.
pub(crate) fn all_tell(rt: &impl Abort, text: &str, expected: &[Told]) -> Result<(), Fail> {
    answer_text(
        rt,
        text,
        expected,
        &mut [Standard::only(OLD_WORD); 8 * MOST_INSTRUCTIONS],
    )?;
    answer_text(
        rt,
        text,
        expected,
        &mut [Mirrored::only(OLD_WORD); 8 * MOST_INSTRUCTIONS],
    )?;
    answer_text(
        rt,
        text,
        expected,
        &mut [WithParity::only(OLD_WORD); 8 * MOST_INSTRUCTIONS],
    )?;
    Ok(())
}

fn check_kept(
    rt: &impl Abort,
    rows: &[Standard],
    marks: &[Mark],
    reports: &[Report],
) -> Result<(), Fail> {
    for row in rows {
        assert_eq!(rt; *row, Standard::only(OLD_WORD), "a value");
    }
    for mark in marks {
        assert_eq!(rt; *mark, OLD_MARK, "a mark");
    }
    for report in reports {
        assert_eq!(rt; *report, OLD_REPORT, "a report");
    }
    Ok(())
}

/// The check of a table is refused, and keeps the lists.
pub(crate) fn refused(
    rt: &impl Abort,
    table: &[Record],
    rows: &mut [Standard],
    marks: &mut [Mark],
    reports: &mut [Report],
) -> Result<(), Fail> {
    match Draft::of(table).check(rows, marks, reports) {
        Ok(_) => Err(Fail::new("the table was checked")),
        Err(refusal) => {
            assert_eq!(rt; refusal.number(), 12);
            check_kept(rt, rows, marks, reports)
        }
    }
}
