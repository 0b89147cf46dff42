//! What a reading must come to. Every table holds other records before, so that nothing of them may be left.
use grammar::Refusal;
use reader::read;
use rule::{Instruction, Item, MOST_RECORDS, Record, Shape};
use std::process::Abort;
use std::test::Fail;

/// A record that none of the texts has.
pub(crate) const OLD: Record = Record {
    line: 9999,
    item: Item::Instruction(Instruction::Jump { to: 9999 }),
};

/// The records from this place on are blank, and those before it are not, nor are they the old ones.
fn check_used(rt: &impl Abort, table: &[Record], count: usize) -> Result<(), Fail> {
    for record in table.iter().take(count) {
        assert!(rt;
            *record != Record::BLANK && record.line != OLD.line,
            "a record in use"
        );
    }
    for record in table.iter().skip(count) {
        assert_eq!(rt; *record, Record::BLANK, "a record not in use");
    }
    Ok(())
}

/// The text is refused so, and leaves the table blank.
pub(crate) fn refused_into(
    rt: &impl Abort,
    table: &mut [Record],
    text: &str,
    expected: Refusal,
) -> Result<(), Fail> {
    table.fill(OLD);
    match read(text.as_bytes(), table) {
        Ok(_) => Err(Fail::new("the text was read")),
        Err(fault) => {
            assert_eq!(rt; fault.refusal(), expected);
            check_used(rt, table, 0)
        }
    }
}

/// The same with a table that is long enough for every rule.
pub(crate) fn refused(rt: &impl Abort, text: &str, expected: Refusal) -> Result<(), Fail> {
    let mut table = [OLD; MOST_RECORDS];
    refused_into(rt, &mut table, text, expected)
}

/// The text is refused for one field: of the wrong kind, or beyond its limits.
pub(crate) fn refused_field(
    rt: &impl Abort,
    text: &str,
    line: usize,
    place: usize,
) -> Result<(), Fail> {
    let expected = Refusal {
        number: 5,
        line,
        place,
        layer: 2,
    };
    refused(rt, text, expected)
}

/// The text is read, and the table holds this many buffers, then this many instructions, then blanks.
pub(crate) fn read_into(
    rt: &impl Abort,
    table: &mut [Record],
    text: &str,
    buffers: usize,
    instructions: usize,
) -> Result<(), Fail> {
    table.fill(OLD);
    match read(text.as_bytes(), table) {
        Ok(shape) => {
            assert_eq!(rt;
                shape,
                Shape {
                    buffers,
                    instructions
                }
            );
            check_used(rt, table, buffers.saturating_add(instructions))
        }
        Err(fault) => {
            let number = fault.refusal().number;
            Err(Fail::new(format_args!("the text was refused, number {number}")))
        }
    }
}

/// The same with a table that is long enough for every rule.
pub(crate) fn accepted(
    rt: &impl Abort,
    text: &str,
    buffers: usize,
    instructions: usize,
) -> Result<(), Fail> {
    let mut table = [OLD; MOST_RECORDS];
    read_into(rt, &mut table, text, buffers, instructions)
}
