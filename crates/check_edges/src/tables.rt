use super::expect::{OLD_MARK, OLD_REPORT, OLD_WORD, refused};
use domain::Domain;
use product::Standard;
use rule::{Instruction, Item, MOST_RECORDS, Mode, Operand, Record};
use std::process::Abort;
use std::test::Fail;
use words::Width;

/// `mov r0 0`
const MOV: Item = Item::Instruction(Instruction::Mov {
    target: 0,
    source: Operand::Constant(0),
});

/// What no text gives, each in four records.
static TABLES: [[Item; 4]; 15] = [
    // a blank record in front
    [
        Item::Blank,
        Item::Instruction(Instruction::Ret),
        Item::Blank,
        Item::Blank,
    ],
    // a register 8, to write
    [
        Item::Instruction(Instruction::Mov {
            target: 8,
            source: Operand::Constant(0),
        }),
        Item::Instruction(Instruction::Ret),
        Item::Blank,
        Item::Blank,
    ],
    // a register 8, to read
    [
        Item::Instruction(Instruction::Mov {
            target: 0,
            source: Operand::Register(8),
        }),
        Item::Instruction(Instruction::Ret),
        Item::Blank,
        Item::Blank,
    ],
    // a buffer of no bytes
    [
        Item::Buffer {
            size: 0,
            mode: Mode::ReadOnly,
        },
        MOV,
        Item::Instruction(Instruction::Ret),
        Item::Blank,
    ],
    // a buffer of 1,025 bytes
    [
        Item::Buffer {
            size: 1025,
            mode: Mode::ReadOnly,
        },
        MOV,
        Item::Instruction(Instruction::Ret),
        Item::Blank,
    ],
    // a jump to itself
    [
        MOV,
        Item::Instruction(Instruction::Jump { to: 1 }),
        Item::Instruction(Instruction::Ret),
        Item::Blank,
    ],
    // a jump back
    [
        MOV,
        Item::Instruction(Instruction::Jump { to: 0 }),
        Item::Instruction(Instruction::Ret),
        Item::Blank,
    ],
    // a jump past the end
    [
        MOV,
        Item::Instruction(Instruction::Jump { to: 3 }),
        Item::Instruction(Instruction::Ret),
        Item::Blank,
    ],
    // a load from a buffer that is not there
    [
        Item::Buffer {
            size: 8,
            mode: Mode::ReadOnly,
        },
        Item::Instruction(Instruction::Load {
            width: Width::W8,
            target: 0,
            buffer: 1,
            index: Operand::Constant(0),
        }),
        Item::Instruction(Instruction::Ret),
        Item::Blank,
    ],
    // a store into a read-only buffer
    [
        Item::Buffer {
            size: 8,
            mode: Mode::ReadOnly,
        },
        MOV,
        Item::Instruction(Instruction::Store {
            width: Width::W8,
            buffer: 0,
            index: Operand::Constant(0),
            source: 0,
        }),
        Item::Instruction(Instruction::Ret),
    ],
    // no instruction
    [
        Item::Buffer {
            size: 8,
            mode: Mode::ReadWrite,
        },
        Item::Blank,
        Item::Blank,
        Item::Blank,
    ],
    // nothing at all
    [Item::Blank, Item::Blank, Item::Blank, Item::Blank],
    // the last instruction is no `ret`
    [MOV, Item::Blank, Item::Blank, Item::Blank],
    // a buffer after an instruction
    [
        MOV,
        Item::Buffer {
            size: 8,
            mode: Mode::ReadOnly,
        },
        Item::Instruction(Instruction::Ret),
        Item::Blank,
    ],
    // a record after a blank
    [
        MOV,
        Item::Instruction(Instruction::Ret),
        Item::Blank,
        Item::Instruction(Instruction::Ret),
    ],
];

/// The check of the table is refused, with lists that are long enough.
fn no_rule(rt: &impl Abort, table: &[Record]) -> Result<(), Fail> {
    refused(
        rt,
        table,
        &mut [Standard::only(OLD_WORD); 832],
        &mut [OLD_MARK; 104],
        &mut [OLD_REPORT; 104],
    )
}

#[test]
fn tables_that_no_text_gives(rt: HostRuntime) -> Result<(), Fail> {
    for items in TABLES.iter() {
        let mut table = [Record::BLANK; MOST_RECORDS];
        for (record, item) in table.iter_mut().zip(items.iter()) {
            *record = Record {
                line: 1,
                item: *item,
            };
        }
        no_rule(&rt, &table)?;
    }
    Ok(())
}

#[test]
fn ninety_seven_instructions(rt: HostRuntime) -> Result<(), Fail> {
    let ret = Record {
        line: 1,
        item: Item::Instruction(Instruction::Ret),
    };
    no_rule(&rt, &[ret; 97])
}
