use super::build::coded;
use super::expect::{OLD, accepted, read_into, refused, refused_field};
use grammar::Refusal;
use rule::{Instruction, Item, Operand, Record};
use std::alloc::Global;
use std::process::Abort;
use std::test::Fail;

/// The name is fine, of a buffer and of a label.
fn check_name(rt: &impl Abort, heap: Global, name: &str) -> Result<(), Fail> {
    let text = format!(in heap;
        "name size mode\n{name} 8 ro\ncode\n{name}:\nld8 r0 {name} 0\nret\n"
    )?;
    accepted(rt, text.as_str(), 1, 2)
}

/// The name is refused where a buffer has it, a label and a jump.
fn check_no_name(rt: &impl Abort, heap: Global, name: &str) -> Result<(), Fail> {
    let buffer = format!(in heap; "name size mode\n{name} 8 ro\ncode\nret\n")?;
    refused_field(rt, buffer.as_str(), 2, 15)?;
    let label = coded(heap, format!(in heap; "{name}:\nret\n")?.as_str())?;
    refused_field(rt, label.as_str(), 3, 20)?;
    let jump = coded(heap, format!(in heap; "jmp {name}\nret\n")?.as_str())?;
    refused_field(rt, jump.as_str(), 3, 24)
}

#[test]
fn a_name_has_up_to_16_characters(rt: HostRuntime) -> Result<(), Fail> {
    let heap = rt.alloc();
    check_name(&rt, heap, "a")?;
    check_name(&rt, heap, "a_3456789_123456")?;
    check_no_name(&rt, heap, "a_3456789_1234567")
}

#[test]
fn a_name_starts_with_a_letter(rt: HostRuntime) -> Result<(), Fail> {
    let heap = rt.alloc();
    check_name(&rt, heap, "a_")?;
    check_no_name(&rt, heap, "_a")?;
    check_no_name(&rt, heap, "1a")
}

#[test]
fn upper_case_is_no_letter(rt: HostRuntime) -> Result<(), Fail> {
    let heap = rt.alloc();
    check_no_name(&rt, heap, "Tab")?;
    check_no_name(&rt, heap, "tAB")
}

#[test]
fn a_label_may_have_the_name_of_a_buffer(rt: HostRuntime) -> Result<(), Fail> {
    accepted(
        &rt,
        "name size mode\ntab 8 ro\ncode\njmp tab\ntab:\nret\n",
        1,
        2,
    )
}

#[test]
fn a_comment_ends_a_field_in_its_middle(rt: HostRuntime) -> Result<(), Fail> {
    let mut table = [OLD; 2];
    read_into(
        &rt,
        &mut table,
        "name size mode#x\ncode#x\nmov r0 12#34\nret#",
        0,
        2,
    )?;
    let first = table[0];
    assert_eq!(rt;
        first,
        Record {
            line: 3,
            item: Item::Instruction(Instruction::Mov {
                target: 0,
                source: Operand::Constant(12),
            }),
        }
    );
    Ok(())
}

// what stands after the comment's sign is no field: `mov r0` alone is no instruction
#[test]
fn a_comment_hides_the_fields_after_it(rt: HostRuntime) -> Result<(), Fail> {
    refused(
        &rt,
        "name size mode\ncode\nmov r0#12\nret\n",
        Refusal {
            number: 4,
            line: 3,
            place: 20,
            layer: 3,
        },
    )
}
