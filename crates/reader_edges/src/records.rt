use super::expect::{OLD, read_into, refused};
use grammar::Refusal;
use rule::{Condition, Instruction, Item, Mode, Operand, Record};
use std::process::Abort;
use std::test::Fail;
use words::{Operation, Width};

/// Two buffers and seven instructions, with lines between them that no record has.
const RULE: &str = "name size mode
tab 64 ro

out 8 rw # what comes of it
code
and r1 63
ld8 r0 tab r1
jlt r0 10 low
st16 out 0 r0
jmp done
low:
mov r0 -1
done:
ret";

/// One of the records of the rule.
fn record(rt: &impl Abort, place: usize) -> Result<Record, Fail> {
    let mut table = [OLD; 9];
    read_into(rt, &mut table, RULE, 2, 7)?;
    assert!(rt; place < 9);
    Ok(table[place])
}

#[test]
fn buffers_have_their_size_and_mode(rt: HostRuntime) -> Result<(), Fail> {
    let tab = record(&rt, 0)?;
    assert_eq!(rt;
        tab,
        Record {
            line: 2,
            item: Item::Buffer {
                size: 64,
                mode: Mode::ReadOnly,
            },
        }
    );
    let out = record(&rt, 1)?;
    assert_eq!(rt;
        out,
        Record {
            line: 4,
            item: Item::Buffer {
                size: 8,
                mode: Mode::ReadWrite,
            },
        }
    );
    Ok(())
}

#[test]
fn operations_have_their_operands(rt: HostRuntime) -> Result<(), Fail> {
    let and = record(&rt, 2)?;
    assert_eq!(rt;
        and,
        Record {
            line: 6,
            item: Item::Instruction(Instruction::Alu {
                operation: Operation::And,
                target: 1,
                operand: Operand::Constant(63),
            }),
        }
    );
    let mov = record(&rt, 7)?;
    assert_eq!(rt;
        mov,
        Record {
            line: 12,
            item: Item::Instruction(Instruction::Mov {
                target: 0,
                source: Operand::Constant(u64::MAX),
            }),
        }
    );
    Ok(())
}

#[test]
fn loads_and_stores_have_the_number_of_their_buffer(rt: HostRuntime) -> Result<(), Fail> {
    let load = record(&rt, 3)?;
    assert_eq!(rt;
        load,
        Record {
            line: 7,
            item: Item::Instruction(Instruction::Load {
                width: Width::W8,
                target: 0,
                buffer: 0,
                index: Operand::Register(1),
            }),
        }
    );
    let store = record(&rt, 5)?;
    assert_eq!(rt;
        store,
        Record {
            line: 9,
            item: Item::Instruction(Instruction::Store {
                width: Width::W16,
                buffer: 1,
                index: Operand::Constant(0),
                source: 0,
            }),
        }
    );
    Ok(())
}

#[test]
fn jumps_have_the_number_of_their_target(rt: HostRuntime) -> Result<(), Fail> {
    let branch = record(&rt, 4)?;
    assert_eq!(rt;
        branch,
        Record {
            line: 8,
            item: Item::Instruction(Instruction::Branch {
                condition: Condition::Less,
                left: 0,
                right: Operand::Constant(10),
                to: 5,
            }),
        }
    );
    let jump = record(&rt, 6)?;
    assert_eq!(rt;
        jump,
        Record {
            line: 10,
            item: Item::Instruction(Instruction::Jump { to: 6 }),
        }
    );
    let ret = record(&rt, 8)?;
    assert_eq!(rt;
        ret,
        Record {
            line: 14,
            item: Item::Instruction(Instruction::Ret),
        }
    );
    Ok(())
}

#[test]
fn a_foreign_byte_leaves_nothing(rt: HostRuntime) -> Result<(), Fail> {
    refused(
        &rt,
        "name size mode\nb 8 rw\ncode\nret # \t\n",
        Refusal {
            number: 2,
            line: 4,
            place: 33,
            layer: 1,
        },
    )
}

#[test]
fn an_unknown_buffer_leaves_nothing(rt: HostRuntime) -> Result<(), Fail> {
    refused(
        &rt,
        "name size mode\nb 8 rw\ncode\nst8 b 0 r1\nld8 r0 c 0\nret\n",
        Refusal {
            number: 7,
            line: 5,
            place: 45,
            layer: 4,
        },
    )
}

#[test]
fn a_store_into_a_buffer_to_read_leaves_nothing(rt: HostRuntime) -> Result<(), Fail> {
    refused(
        &rt,
        "name size mode\nb 8 ro\ncode\nld8 r0 b 0\nst8 b 0 r0\nret\n",
        Refusal {
            number: 10,
            line: 5,
            place: 42,
            layer: 4,
        },
    )
}
