//! Checks the routes of a small site against its signals and points by a rule. The rule is read, checked and passed, its
//! memory is filled from the site's tables, and it runs once for each route; what it finds stands in a buffer of its own.
#![tactic(auto)]

mod site;

use checker::{Draft, Passed};
use domain::Domain;
use product::Standard;
use reader::read;
use report::{LONGEST, PrintRefusal, print_fault, print_reports};
use rule::{MOST_RECORDS, Record};
use site::{FOUND, Site};
use std::fs;
use std::io::Write;
use step::{Mark, Report};

/// How many routes the site has.
const ROUTES: u64 = 8;

/// Prints what the checker tells; an output that is too short tells nothing.
fn print(rt: &HostRuntime, told: Result<usize, PrintRefusal>, output: &[u8]) -> anyhow::Result<()> {
    if let Ok(len) = told {
        rt.stdout().write_all(output.get(..len).unwrap_or(&[]))?;
    }
    Ok(())
}

/// Checks a draft over the standard product, and prints the reports.
fn check(rt: &HostRuntime, draft: &mut Draft<'_>, instructions: usize) -> anyhow::Result<()> {
    let heap = rt.alloc();
    let mut rows = vec![in heap; Standard::any(); instructions.saturating_mul(8)]?;
    let mut marks = vec![in heap; Mark::UNREACHED; instructions]?;
    let mut reports = vec![in heap; Report::BLANK; instructions]?;
    let mut output = [0u8; LONGEST];
    match draft.check(&mut rows, &mut marks, &mut reports) {
        Ok(tally) => {
            let told = reports.as_slice().get(..tally.count).unwrap_or(&[]);
            print(rt, print_reports(told, &mut output), &output)
        }
        Err(refusal) => {
            let number = refusal.number();
            println!(rt; "not checked: {number}")?;
            Ok(())
        }
    }
}

/// Runs the rule once for each route. What it stores stays, so the findings gather in its buffer.
fn run_routes(rt: &HostRuntime, rule: &Passed<'_>, memory: &mut [u8]) -> anyhow::Result<()> {
    println!(rt; "route answer steps")?;
    for route in 0..ROUTES {
        match rule.run([route, 0, 0, 0], memory) {
            Ok(ran) => {
                let answer = ran.answer;
                let steps = ran.steps;
                println!(rt; "{route} {answer} {steps}")?;
            }
            Err(refusal) => {
                let number = refusal.number();
                println!(rt; "{route} refused by {number}")?;
            }
        }
    }
    Ok(())
}

/// What the rule is for: its memory is filled from the site's tables, and each route is checked.
fn work(rt: &HostRuntime, rule: &Passed<'_>) -> anyhow::Result<()> {
    let site = Site::read(rt)?;
    let mut memory = vec![in rt.alloc(); 0u8; rule.memory_size()]?;
    let refused = site.fill(rule, &mut memory);
    if refused > 0 {
        println!(rt; "{refused} tables do not fit the rule")?;
    }
    run_routes(rt, rule, &mut memory)?;
    if let Some(found) = rule.buffer(&memory, FOUND) {
        println!(rt; "found {found:?}")?;
    }
    site.show(rt, rule, &memory)
}

/// Reads the text of a file into the table, and says how many instructions it has, or prints why it is no rule.
fn load(rt: &HostRuntime, file: &str, table: &mut [Record]) -> anyhow::Result<Option<usize>> {
    let text = fs::read(rt, file)?;
    match read(text.as_slice(), table) {
        Ok(shape) => Ok(Some(shape.instructions)),
        Err(fault) => {
            let mut output = [0u8; LONGEST];
            print(rt, print_fault(fault, &mut output), &output)?;
            Ok(None)
        }
    }
}

/// Checks the rule in the table and passes it, or prints the number of the refusal.
fn passed<'a>(
    rt: &HostRuntime,
    table: &'a [Record],
    instructions: usize,
) -> anyhow::Result<Option<Passed<'a>>> {
    let mut draft = Draft::of(table);
    check(rt, &mut draft, instructions)?;
    let mut rule = Passed::built_in();
    match draft.pass(&mut rule) {
        Ok(()) => Ok(Some(rule)),
        Err(refusal) => {
            let number = refusal.number();
            println!(rt; "not passed: {number}")?;
            Ok(None)
        }
    }
}

fn main(rt: HostRuntime) -> anyhow::Result<()> {
    let mut table = [Record::BLANK; MOST_RECORDS];
    let Some(instructions) = load(&rt, "site.rule", &mut table)? else {
        return Ok(());
    };
    if let Some(rule) = passed(&rt, &table, instructions)? {
        work(&rt, &rule)?;
    }
    // the rule has run for the last time, so the table is free for another text
    if let Some(instructions) = load(&rt, "next.rule", &mut table)? {
        let _ = passed(&rt, &table, instructions)?;
    }
    Ok(())
}
