use super::expect::{OLD_MARK, OLD_REPORT, OLD_WORD, answer, refused};
use domain::Domain;
use product::Standard;
use rule::{Instruction, Item, Operand, Record};
use std::test::Fail;

/// Two instructions, so sixteen values, two marks and two reports.
static RULE: [Record; 2] = [
    Record {
        line: 3,
        item: Item::Instruction(Instruction::Mov {
            target: 0,
            source: Operand::Constant(0),
        }),
    },
    Record {
        line: 4,
        item: Item::Instruction(Instruction::Ret),
    },
];

#[test]
fn lists_just_long_enough(rt: HostRuntime) -> Result<(), Fail> {
    let answer = answer(
        &rt,
        "two instructions",
        &RULE,
        &[],
        &mut [Standard::only(OLD_WORD); 16],
        &mut [OLD_MARK; 2],
        &mut [OLD_REPORT; 2],
    )?;
    assert!(rt; answer.is_some());
    Ok(())
}

#[test]
fn one_value_short(rt: HostRuntime) -> Result<(), Fail> {
    refused(
        &rt,
        &RULE,
        &mut [Standard::only(OLD_WORD); 15],
        &mut [OLD_MARK; 2],
        &mut [OLD_REPORT; 2],
    )
}

#[test]
fn one_mark_short(rt: HostRuntime) -> Result<(), Fail> {
    refused(
        &rt,
        &RULE,
        &mut [Standard::only(OLD_WORD); 16],
        &mut [OLD_MARK; 1],
        &mut [OLD_REPORT; 2],
    )
}

#[test]
fn one_report_short(rt: HostRuntime) -> Result<(), Fail> {
    refused(
        &rt,
        &RULE,
        &mut [Standard::only(OLD_WORD); 16],
        &mut [OLD_MARK; 2],
        &mut [OLD_REPORT; 1],
    )
}
