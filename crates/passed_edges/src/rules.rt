//! Rules for the tests, from their texts.
use checker::{CheckRefusal, Draft, Passed};
use domain::Domain;
use product::Standard;
use reader::read;
use rule::Record;
use step::{Mark, Report};

/// How many reports a check over a domain makes of a draft of at most 16 instructions.
pub(crate) fn reports_over<D: Domain>(
    draft: &mut Draft<'_>,
    rows: &mut [D],
) -> Result<usize, CheckRefusal> {
    let mut marks = [Mark::UNREACHED; 16];
    let mut reports = [Report::BLANK; 16];
    let tally = draft.check(rows, &mut marks, &mut reports)?;
    Ok(tally.count)
}

/// Reads a text into the table, and passes what the standard product accepts of it. Says how many reports there were.
pub(crate) fn pass<'a>(
    text: &str,
    table: &'a mut [Record],
    rule: &mut Passed<'a>,
) -> Result<usize, &'static str> {
    if read(text.as_bytes(), table).is_err() {
        return Err("the text was refused");
    }
    let mut draft = Draft::of(table);
    let mut rows = [Standard::any(); 128];
    let Ok(count) = reports_over(&mut draft, &mut rows) else {
        return Err("the check was refused");
    };
    let _ = draft.pass(rule);
    Ok(count)
}
