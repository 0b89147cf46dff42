use super::rules::{pass, reports_over};
use checker::{Draft, Passed};
use domain::Domain;
use product::Standard;
use range::Range;
use reader::read;
use rule::Record;
use std::process::Abort;
use std::test::Fail;

/// Every width is loaded and stored. A byte order that is turned around, or a width too many, would tell.
const WIDTHS: &str =
    "name size mode\nin 8 ro\nout 16 rw\ncode\nld64 r0 in 0\nst64 out 8 r0\nld32 r5 in 4\nst32 out 4 r5\nld16 r5 in 2\nst16 out 2 r5\nld8 r5 in 1\nst8 out 1 r5\nret\n";

#[test]
fn loads_and_stores_each_width_lowest_byte_first(rt: HostRuntime) -> Result<(), Fail> {
    let mut table = [Record::BLANK; 16];
    let mut rule = Passed::built_in();
    assert_eq!(rt; pass(WIDTHS, &mut table, &mut rule)?, 0);
    let mut memory = [0u8; 24];
    assert!(rt;
        rule.fill(&mut memory, 0, 0, &[1, 2, 3, 4, 5, 6, 7, 8])
            .is_ok()
    );
    answers(&rt, &rule, 0, &mut memory, 0x0807_0605_0403_0201, 9)?;
    assert_eq!(rt; &memory[0..8], &[1, 2, 3, 4, 5, 6, 7, 8][0..8], "in");
    assert_eq!(rt;
        &memory[8..16],
        &[0, 2, 3, 4, 5, 6, 7, 8][0..8],
        "out, the narrow ones"
    );
    assert_eq!(rt;
        &memory[16..24],
        &[1, 2, 3, 4, 5, 6, 7, 8][0..8],
        "out, the widest"
    );
    Ok(())
}

/// Counts up a byte of its buffer, and stores the low byte of a wide word next to it.
const COUNT: &str =
    "name size mode\nseen 2 rw\ncode\nld8 r0 seen 0\nadd r0 1\nst8 seen 0 r0\nst8 seen 1 r1\nret\n";

/// The rule does not run on this memory, for its size.
fn refused(rt: &impl Abort, rule: &Passed<'_>, memory: &mut [u8]) -> Result<(), Fail> {
    match rule.run([0, 0, 0, 0], memory) {
        Ok(_) => Err(Fail::new("a memory of another size")),
        Err(refusal) => {
            assert_eq!(rt; refusal.number(), 14);
            Ok(())
        },
    }
}

/// The rule runs, from this first word, and answers so in so many steps.
fn answers(
    rt: &impl Abort,
    rule: &Passed<'_>,
    word: u64,
    memory: &mut [u8],
    answer: u64,
    steps: usize,
) -> Result<(), Fail> {
    match rule.run([word, 0, 0, 0], memory) {
        Ok(ran) => {
            assert_eq!(rt; ran.answer, answer);
            assert_eq!(rt; ran.steps, steps);
            Ok(())
        }
        Err(_) => Err(Fail::new("the run was refused")),
    }
}

#[test]
fn stores_stay_and_a_refused_run_leaves_the_memory(rt: HostRuntime) -> Result<(), Fail> {
    let mut table = [Record::BLANK; 8];
    let mut rule = Passed::built_in();
    assert_eq!(rt; pass(COUNT, &mut table, &mut rule)?, 0);
    let mut short = [7u8];
    let mut long = [7u8, 8, 9];
    refused(&rt, &rule, &mut short)?;
    refused(&rt, &rule, &mut long)?;
    assert_eq!(rt; short, [7], "after a refused run");
    assert_eq!(rt; long, [7, 8, 9], "after a refused run");
    let mut memory = [7u8, 8];
    answers(&rt, &rule, 0x1ff, &mut memory, 8, 5)?;
    assert_eq!(rt; memory, [8, 0xff], "after one run");
    answers(&rt, &rule, 0x1200, &mut memory, 9, 5)?;
    assert_eq!(rt; memory, [9, 0], "after two runs");
    Ok(())
}

#[test]
fn the_built_in_rule_returns_0_in_two_steps(rt: HostRuntime) -> Result<(), Fail> {
    let rule = Passed::built_in();
    assert_eq!(rt; rule.memory_size(), 0);
    answers(&rt, &rule, 5, &mut [], 0, 2)
}

/// Loads beyond its buffer for some words, so it has a report.
const BEYOND: &str = "name size mode\nin 8 ro\ncode\nld8 r0 in r1\nret\n";

#[test]
fn a_draft_with_a_report_is_not_passed(rt: HostRuntime) -> Result<(), Fail> {
    let mut table = [Record::BLANK; 4];
    if read(BEYOND.as_bytes(), &mut table).is_err() {
        return Err(Fail::new("the text was refused"));
    }
    let mut draft = Draft::of(&table);
    assert_eq!(rt;
        reports_over(&mut draft, &mut [Standard::any(); 16]).ok(),
        Some(1)
    );
    let mut rule = Passed::built_in();
    match draft.pass(&mut rule) {
        Ok(()) => return Err(Fail::new("it was passed")),
        Err(refusal) => assert_eq!(rt; refusal.number(), 13),
    }
    assert_eq!(rt; rule.memory_size(), 0, "the place keeps the built-in rule");
    match Draft::of(&table).pass(&mut rule) {
        Ok(()) => Err(Fail::new("a draft that was never checked was passed")),
        Err(refusal) => {
            assert_eq!(rt; refusal.number(), 13);
            Ok(())
        },
    }
}

/// Only known bits show that the index is even.
const EVEN: &str = "name size mode\nin 8 ro\ncode\nand r1 6\nld16 r0 in r1\nret\n";

#[test]
fn no_later_check_takes_cleanness_away(rt: HostRuntime) -> Result<(), Fail> {
    let mut table = [Record::BLANK; 4];
    if read(EVEN.as_bytes(), &mut table).is_err() {
        return Err(Fail::new("the text was refused"));
    }
    let mut draft = Draft::of(&table);
    assert_eq!(rt;
        reports_over(&mut draft, &mut [Standard::any(); 24]).ok(),
        Some(0)
    );
    assert_eq!(rt;
        reports_over(&mut draft, &mut [Range::any(); 24]).ok(),
        Some(1),
        "a range alone"
    );
    let mut rule = Passed::built_in();
    assert!(rt; draft.pass(&mut rule).is_ok());
    assert_eq!(rt; rule.memory_size(), 8);
    Ok(())
}
