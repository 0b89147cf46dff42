use super::build::{coded, repeated};
use super::expect::{OLD, accepted, read_into, refused_field};
use rule::{Instruction, Item, Operand, Record};
use std::alloc::{AllocError, Global};
use std::process::Abort;
use std::test::Fail;

/// A rule with this constant, which stands in line 3 at byte 27.
fn moving(heap: Global, number: &str) -> Result<String, AllocError> {
    let code = format!(in heap; "mov r0 {number}\nret\n")?;
    coded(heap, code.as_str())
}

/// The word that a constant stands for.
fn check_word(rt: &impl Abort, heap: Global, number: &str, expected: u64) -> Result<(), Fail> {
    let text = moving(heap, number)?;
    let mut table = [OLD; 2];
    read_into(rt, &mut table, text.as_str(), 0, 2)?;
    let first = table[0];
    match first {
        Record {
            line: 3,
            item: Item::Instruction(
                Instruction::Mov {
                    target: 0,
                    source: Operand::Constant(word),
                },
            ),
        } => {
            assert_eq!(rt; word, expected);
            Ok(())
        },
        _ => Err(Fail::new("no constant")),
    }
}

/// The constant is refused.
fn check_no_word(rt: &impl Abort, heap: Global, number: &str) -> Result<(), Fail> {
    let text = moving(heap, number)?;
    refused_field(rt, text.as_str(), 3, 27)
}

/// The size of a buffer, which stands in line 2 at byte 17, is refused.
fn check_no_size(rt: &impl Abort, heap: Global, size: &str) -> Result<(), Fail> {
    let text = format!(in heap; "name size mode\nb {size} ro\ncode\nret\n")?;
    refused_field(rt, text.as_str(), 2, 17)
}

#[test]
fn zeros_may_lead(rt: HostRuntime) -> Result<(), Fail> {
    let heap = rt.alloc();
    let zeros = repeated(heap, "0", 4999)?;
    check_word(&rt, heap, format!(in heap; "{zeros}7")?.as_str(), 7)?;
    check_word(&rt, heap, format!(in heap; "-{zeros}1")?.as_str(), u64::MAX)
}

#[test]
fn many_nines_are_too_many(rt: HostRuntime) -> Result<(), Fail> {
    let heap = rt.alloc();
    let nines = repeated(heap, "9", 5000)?;
    check_no_word(&rt, heap, nines.as_str())?;
    check_no_word(&rt, heap, format!(in heap; "-{nines}")?.as_str())
}

#[test]
fn the_greatest_and_the_least_constant(rt: HostRuntime) -> Result<(), Fail> {
    let heap = rt.alloc();
    check_word(&rt, heap, "18446744073709551615", u64::MAX)?;
    check_no_word(&rt, heap, "18446744073709551616")?;
    check_word(&rt, heap, "-9223372036854775808", 9223372036854775808)?;
    check_no_word(&rt, heap, "-9223372036854775809")
}

#[test]
fn a_negative_constant_wraps_and_minus_zero_is_zero(rt: HostRuntime) -> Result<(), Fail> {
    let heap = rt.alloc();
    check_word(&rt, heap, "-1", 18446744073709551615)?;
    check_word(&rt, heap, "-0", 0)?;
    check_word(&rt, heap, "0", 0)
}

#[test]
fn a_number_is_digits_after_at_most_one_minus(rt: HostRuntime) -> Result<(), Fail> {
    let heap = rt.alloc();
    check_no_word(&rt, heap, "-")?;
    check_no_word(&rt, heap, "--1")?;
    check_no_word(&rt, heap, "+1")?;
    check_no_word(&rt, heap, "1_0")?;
    check_no_word(&rt, heap, "r8")
}

#[test]
fn a_buffer_has_1_to_1024_bytes(rt: HostRuntime) -> Result<(), Fail> {
    let heap = rt.alloc();
    accepted(&rt, "name size mode\na 1 ro\nb 1024 rw\ncode\nret\n", 2, 1)?;
    check_no_size(&rt, heap, "0")?;
    check_no_size(&rt, heap, "1025")?;
    check_no_size(&rt, heap, "-1")
}
